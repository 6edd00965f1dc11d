//! The printed text of a check.

ghost use Rattle.std.specs.Prelude.{◌≡◌, Some, IfOk};
ghost use Rattle.risch_cert.specs.Answers as answers;
ghost use Rattle.risch_cert.specs.declared.answer.Place.TheVariants.{Checking};
ghost use Rattle.risch_check.specs.Printing as spec;

use crate::kinds::Check;
use risch_cert::{Answer, Halt, Place, print_answer};
use risch_chain_end::text;
use risch_elem::Stop;
use risch_io::Text;
use std::alloc::{AllocError, Global};

/// The text of a check.
///
/// `Err` for want of memory alone; want of memory in the check has no text.
#[tactic(auto, unfolding(crate::specs::Printing::print_check))]
pub fn print_check(alloc: Global, check: &Check) -> Result<Text, AllocError>
    ensures { IfOk result (λ text. spec.print_check check.now ≡ Some text) }
{
    match check {
        Check::Accepted => text(alloc, "accepted\n"),
        Check::Refused { line, left, right } => {
            print_refusal(alloc, *line, left.as_slice(), right.as_slice())
        }
        Check::Stopped(stop) => print_stop(alloc, stop),
        Check::Memory => Err(AllocError),
    }
}

/// The line that is refused, and what stands there and should stand there.
fn print_refusal(alloc: Global, line: u32, left: &[u8], right: &[u8]) -> Result<Text, AllocError>
    ensures { IfOk result (λ text. text ≡ spec.print_refusal line left.now right.now) }
{
    let first = format!(in alloc; "refused at line {line}\nleft ")?;
    let mut text = Text::from_vec(first.into_bytes());
    text.push_all(left)?;
    text.push_all(b"\nright ")?;
    text.push_all(right)?;
    text.push(b'\n')?;
    Ok(text)
}

/// The stop of a check.
#[tactic(auto, unfolding(risch_cert::specs::Answers::print_answer))]
fn print_stop(alloc: Global, stop: &Stop) -> Result<Text, AllocError>
    ensures { IfOk result (λ text. text ≡ answers.print_halt (record { stop = stop.now; place = Checking })) }
{
    let stop = stop.copy(alloc)?;
    let place = Place::Checking;
    print_answer(alloc, &Answer::Stopped(Halt { stop, place }))
}
