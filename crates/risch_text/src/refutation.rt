//! The end of a printed refutation.

ghost use Rattle.std.specs.Prelude.{◌≡◌, ◌+◌, ◌<◌, ◌≤◌, ◌^◌, Some, IfOk, IfErr, OnOk};
ghost use Rattle.risch_expression.specs.Results.{map_value};
ghost use Rattle.risch_expression.specs.Reading.{IsFaultOf};
ghost use Rattle.risch_text.specs.Lines.{InFile};
ghost use Rattle.risch_text.specs.Certified as spec;
ghost use Rattle.risch_text.specs.Reading.{IsEndRead, IsNextEnd};

use crate::file::monomials;
use crate::lines::Lines;
use crate::programs::EndProgram;
use risch_expression::ReadFault;
use std::alloc::Global;

/// What stands behind `residue of V`, over n monomials: the power and the trace.
#[tactic(auto, unfolding(crate::specs::Certified::end_power))]
fn end_power(
    alloc: Global,
    lines: &mut Lines<'_>,
    n: u8,
    level: u8,
) -> Result<EndProgram, ReadFault>
    requires in_file { InFile lines.old }
    requires known { level ≤ n }
    ensures read { IfOk result (λ program. IsEndRead n (spec.end_power n level lines.old) program lines.new) }
    ensures fault { IfErr result (λ fault. IsFaultOf fault (spec.end_power n level lines.old)) }
    ensures in_file { OnOk result (InFile lines.new) }
{
    lines.word(b"power")?;
    let power = lines.small_number()?;
    let trace = lines.expression_line(alloc, b"trace", monomials(n))?;
    Ok(EndProgram {
        level,
        power,
        trace,
    })
}

/// What stands behind the word `residue`, over n monomials.
#[tactic(auto, unfolding(crate::specs::Certified::residue_end))]
fn residue_end(alloc: Global, lines: &mut Lines<'_>, n: u8) -> Result<EndProgram, ReadFault>
    requires { InFile lines.old }
    ensures read { IfOk result (λ program. IsEndRead n (spec.residue_end n lines.old) program lines.new) }
    ensures fault { IfErr result (λ fault. IsFaultOf fault (spec.residue_end n lines.old)) }
    ensures in_file { OnOk result (InFile lines.new) }
{
    lines.word(b"of")?;
    let level = lines.variable(n)?;
    end_power(alloc, lines, n, level)
}

/// The end that is read, as one that may not yet be read.
fn some_end(end: Result<EndProgram, ReadFault>) -> Result<Option<EndProgram>, ReadFault>
    ensures { result ≡ map_value Some end }
{
    match end {
        Ok(end) => Ok(Some(end)),
        Err(fault) => Err(fault),
    }
}

/// What stands behind the word `end`, over n monomials; `None` where it is not yet read.
#[tactic(auto, unfolding(crate::specs::Certified::end_kind))]
fn end_kind(alloc: Global, lines: &mut Lines<'_>, n: u8) -> Result<Option<EndProgram>, ReadFault>
    requires { InFile lines.old }
    ensures read { IfOk result (λ end. IsNextEnd n (spec.end_kind n lines.old) end lines.new) }
    ensures fault { IfErr result (λ fault. IsFaultOf fault (spec.end_kind n lines.old)) }
    ensures in_file { OnOk result (InFile lines.new) }
{
    if lines.take_word(b"residue") {
        return some_end(residue_end(alloc, lines, n));
    }
    if lines.take_word(b"exponent") || lines.take_word(b"degree") {
        return Ok(None);
    }
    Err(lines.unexpected().into())
}

/// What stands behind the line `rest`, over n monomials; `None` where it is not yet read.
#[tactic(auto, using(crate::proofs::AnswerLines::word_low), unfolding(crate::specs::Certified::end_line))]
pub(crate) fn end_line(
    alloc: Global,
    lines: &mut Lines<'_>,
    n: u8,
) -> Result<Option<EndProgram>, ReadFault>
    requires { InFile lines.old }
    ensures read { IfOk result (λ end. IsNextEnd n (spec.end_line n lines.old) end lines.new) }
    ensures fault { IfErr result (λ fault. IsFaultOf fault (spec.end_line n lines.old)) }
    ensures low { OnOk result (lines.old.line < 2 ^ 32) }
    ensures in_file { OnOk result (InFile lines.new) }
{
    if lines.take_word(b"equation") {
        return Ok(None);
    }
    lines.word(b"end")?;
    end_kind(alloc, lines, n)
}
