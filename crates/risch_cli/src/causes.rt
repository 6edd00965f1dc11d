// The lines of faults of syntax and of refusals.
ghost use Rattle.std.specs.Prelude.{◌≡◌, IfOk};
ghost use Rattle.risch_cert.specs.Answers.{line};
ghost use Rattle.risch_cli.specs.Causes as spec;

use risch_expression::Cause;
use risch_io::Text;
use risch_text::Refusal;
use std::alloc::{AllocError, Global};

/// The line of a fault of syntax at a place.
pub(crate) fn syntax_line(alloc: Global, at: u32, cause: Cause) -> Result<Text, AllocError>
    ensures { IfOk result (λ text. text ≡ line (spec.print_syntax at cause)) }
{
    let cause = print_cause(cause);
    let text = format!(in alloc; "syntax at {at}: {cause}\n")?;
    Ok(Text::from_vec(text.into_bytes()))
}

/// The line of a refusal at a place.
pub(crate) fn refused_line(alloc: Global, at: u32, cause: Refusal) -> Result<Text, AllocError>
    ensures { IfOk result (λ text. text ≡ line (spec.print_refused at cause)) }
{
    let cause = print_refusal(cause);
    let text = format!(in alloc; "refused at {at}: {cause}\n")?;
    Ok(Text::from_vec(text.into_bytes()))
}

/// Why bytes do not fit the grammar.
fn print_cause(cause: Cause) -> &'static str
    ensures { result.now ≡ spec.print_cause cause }
{
    match cause {
        Cause::Byte => "unexpected byte",
        Cause::End => "unexpected end",
        Cause::Wide => "number too wide",
        Cause::Exponent => "exponent too wide",
        Cause::Name => "unknown name",
        Cause::Deep => "too deep",
        Cause::Trailing => "trailing text",
        Cause::Shape => "bad sum",
    }
}

/// Why a line has no value.
fn print_refusal(cause: Refusal) -> &'static str
    ensures { result.now ≡ spec.print_refusal cause }
{
    match cause {
        Refusal::ZeroDivision => "division by zero",
        Refusal::TooHigh => "too high",
        Refusal::ZeroArgument => "zero argument",
        Refusal::ConstantArgument => "constant argument",
    }
}
