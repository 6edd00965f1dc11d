//! The lines of a printed answer.

ghost use Rattle.std.specs.Prelude.{◌≡◌, ℕ, ◌+◌, ◌<◌, ◌≤◌, ◌^◌, [], ◌∷◌, ◌++◌, length, codes, option_map, Some, IfOk, IfErr, OnOk};
ghost use Rattle.risch_expression.specs.Results.{map_value};
ghost use Rattle.risch_frac.specs.Fraction as fraction;
ghost use Rattle.risch_expression.specs.Reading.{IsFaultOf};
ghost use Rattle.risch_text.specs.Lines.{expression_line, InFile};
ghost use Rattle.risch_text.specs.File as file;
ghost use Rattle.risch_text.specs.Certified as spec;
ghost use Rattle.risch_text.specs.Certified.{AnswerTree};
ghost use Rattle.risch_text.specs.Programs.{partial_program, ended_program, refuted_program, IsPartialOver};
ghost use Rattle.risch_text.specs.declared.programs.PartialProgram.{PartialProgram};
ghost use Rattle.risch_text.specs.Reading.{MovesTo, IsSum, IsLogLine, IsNextLog, IsNextFault, AreLogLines, IsPartialRead, IsNextEnd, IsSomeAnswer, IsWholeCertified};

use crate::file::{monomials, problem_lines};
use crate::lines::Lines;
use crate::programs::{
    AnswerProgram, CertifiedProgram, Divisor, EndProgram, Factor, LogProgram, LogPrograms,
    PartialProgram, RefutationProgram,
};
use crate::refutation::end_line;
use risch_elem::{Items, NumberList};
use risch_expression::{Names, Program, ReadFault, SyntaxFault};
use risch_frac::Frac;
use std::alloc::{AllocError, Global};

/// x, so many monomials, and z.
fn with_z(monomials: u8) -> Names
    ensures { result ≡ spec.with_z monomials }
{
    Names {
        monomials,
        with_z: true,
    }
}

/// A number, which a `-` before it negates.
#[tactic(auto, unfolding(crate::specs::Certified::signed_number))]
fn signed_number(lines: &mut Lines<'_>) -> Result<Frac, SyntaxFault>
    requires { InFile lines.old }
    ensures moves { MovesTo result (spec.signed_number lines.old) lines.new }
    ensures in_file { OnOk result (InFile lines.new) }
{
    if lines.take_byte(b'-') {
        let number = lines.number()?;
        Ok(number.neg())
    } else {
        lines.number()
    }
}

/// A factor: a number with an optional `-`, and optionally `/` and a number.
#[tactic(auto, unfolding(crate::specs::Certified::factor))]
fn factor(lines: &mut Lines<'_>) -> Result<Factor, SyntaxFault>
    requires { InFile lines.old }
    ensures moves { MovesTo result (spec.factor lines.old) lines.new }
    ensures in_file { OnOk result (InFile lines.new) }
{
    let top = signed_number(lines)?;
    let left = lines.left();
    if !lines.take_byte(b'/') {
        return Ok(Factor { top, bottom: None });
    }
    let number = lines.number()?;
    Ok(Factor {
        top,
        bottom: Some(Divisor { number, left }),
    })
}

/// What stands behind the word `log`, over n monomials.
fn after_log(alloc: Global, lines: &mut Lines<'_>, n: u8) -> Result<LogProgram, ReadFault>
    requires { InFile lines.old }
    ensures read { IfOk result (λ program. IsLogLine n (spec.after_log n lines.old) program lines.new) }
    ensures fault { IfErr result (λ fault. IsFaultOf fault (spec.after_log n lines.old)) }
    ensures in_file { OnOk result (InFile lines.new) }
{
    let factor = factor(lines)?;
    let argument = lines.expression_line(alloc, b"of", monomials(n))?;
    Ok(LogProgram::Log(factor, argument))
}

/// What stands behind the word `sum`, over n monomials.
fn after_sum(alloc: Global, lines: &mut Lines<'_>, n: u8) -> Result<LogProgram, ReadFault>
    requires { InFile lines.old }
    ensures read { IfOk result (λ program. IsLogLine n (spec.after_sum n lines.old) program lines.new) }
    ensures fault { IfErr result (λ fault. IsFaultOf fault (spec.after_sum n lines.old)) }
    ensures in_file { OnOk result (InFile lines.new) }
{
    let start = lines.line_start();
    let modulus = lines.sum(alloc, with_z(n))?;
    let argument = lines.expression_line(alloc, b"of", with_z(n))?;
    Ok(LogProgram::Sum(modulus, argument, start))
}

/// The logarithm that is read, as one that stands next.
fn some_log(log: Result<LogProgram, ReadFault>) -> Result<Option<LogProgram>, ReadFault>
    ensures { result ≡ map_value Some log }
{
    match log {
        Ok(log) => Ok(Some(log)),
        Err(fault) => Err(fault),
    }
}

/// The logarithm that stands next, over n monomials.
fn next_log(alloc: Global, lines: &mut Lines<'_>, n: u8) -> Result<Option<LogProgram>, ReadFault>
    requires { InFile lines.old }
    ensures read { IfOk result (λ log. IsNextLog n (spec.next_log n lines.old) log lines.old lines.new) }
    ensures fault { IfErr result (λ fault. IsNextFault fault (spec.next_log n lines.old)) }
    ensures in_file { OnOk result (InFile lines.new) }
{
    if lines.take_word(b"log") {
        return some_log(after_log(alloc, lines, n));
    }
    if lines.take_word(b"sum") {
        return some_log(after_sum(alloc, lines, n));
    }
    Ok(None)
}

impl LogPrograms {
    /// Appends a logarithm and the number of its line.
    fn push(&mut self, line: u32, log: LogProgram) -> Result<(), AllocError>
        ensures logs { OnOk result (self.new.logs ≡ self.old.logs ++ log ∷ []) }
        ensures lines { OnOk result (self.new.lines ≡ self.old.lines ++ line ∷ []) }
    {
        self.logs.push(log)?;
        self.lines.push(line)
    }
}

/// The logarithms that stand next, over n monomials, behind none, with the numbers of their lines behind those of the lines above.
#[tactic(auto, using(crate::proofs::AnswerLines::logs_begin, crate::proofs::AnswerLines::logs_stop, crate::proofs::AnswerLines::logs_done, crate::proofs::AnswerLines::logs_more, crate::proofs::AnswerLines::logs_fault))]
fn log_lines(
    alloc: Global,
    lines: &mut Lines<'_>,
    n: u8,
    so_far: &mut LogPrograms,
) -> Result<(), ReadFault>
    requires in_file { InFile lines.old }
    requires none { so_far.old.logs ≡ [] }
    ensures read { OnOk result (AreLogLines n (length so_far.old.lines) (spec.log_lines n (length lines.old.rest) (record { logs = []; lines = so_far.old.lines }) lines.old) so_far.new lines.new) }
    ensures fault { IfErr result (λ fault. IsFaultOf fault (spec.log_lines n (length lines.old.rest) (record { logs = []; lines = so_far.old.lines }) lines.old)) }
    ensures in_file { OnOk result (InFile lines.new) }
{
    for _turn in 0..lines.left() {
        let line = lines.line();
        let Some(log) = next_log(alloc, lines, n)? else {
            return Ok(());
        };
        so_far.push(line as u32, log)?;
    }
    Ok(())
}

/// What a line says, if it has ended.
fn if_ended(end: Result<(), SyntaxFault>, refuted: bool) -> Result<bool, SyntaxFault>
    ensures { result ≡ map_value (λ _. refuted) end }
{
    match end {
        Ok(()) => Ok(refuted),
        Err(fault) => Err(fault),
    }
}

/// Whether the first line of an answer is `refuted`, and not `integral`.
fn is_refuted(lines: &mut Lines<'_>) -> Result<bool, SyntaxFault>
    requires { InFile lines.old }
    ensures moves { MovesTo result (spec.is_refuted lines.old) lines.new }
    ensures low { OnOk result (lines.old.line < 2 ^ 32) }
    ensures in_file { OnOk result (InFile lines.new) }
{
    if lines.take_word(b"integral") {
        return if_ended(lines.line_end(), false);
    }
    if_ended(lines.bare_line(b"refuted"), true)
}

/// The part of an answer, over n monomials, behind its first line, which has this number.
fn part_line(
    alloc: Global,
    lines: &mut Lines<'_>,
    n: u8,
    first: u32,
) -> Result<PartialProgram, ReadFault>
    requires { InFile lines.old }
    ensures read { IfOk result (λ partial. IsSum (file.monomials n) (expression_line (codes "part") (file.monomials n) lines.old) partial.part lines.new) }
    ensures so_far { IfOk result (λ partial. partial.so_far ≡ record { logs = []; lines = first ∷ lines.old.line ∷ [] }) }
    ensures fault { IfErr result (λ fault. IsFaultOf fault (expression_line (codes "part") (file.monomials n) lines.old)) }
    ensures in_file { OnOk result (InFile lines.new) }
{
    let mut numbers = NumberList::new(alloc);
    numbers.push(first)?;
    let part = lines.numbered_line(alloc, b"part", monomials(n), &mut numbers)?;
    Ok(PartialProgram {
        part,
        so_far: LogPrograms {
            logs: Items::new(alloc),
            lines: numbers,
        },
    })
}

/// The part and the logarithms of an answer, over n monomials, behind its first line, which has this number.
fn partial_lines(
    alloc: Global,
    lines: &mut Lines<'_>,
    n: u8,
    first: u32,
) -> Result<PartialProgram, ReadFault>
    requires { InFile lines.old }
    ensures read { IfOk result (λ program. IsPartialRead n (spec.partial_lines n first lines.old) program lines.new) }
    ensures fault { IfErr result (λ fault. IsFaultOf fault (spec.partial_lines n first lines.old)) }
    ensures in_file { OnOk result (InFile lines.new) }
{
    let mut partial = part_line(alloc, lines, n, first)?;
    log_lines(alloc, lines, n, &mut partial.so_far)?;
    Ok(partial)
}

/// The end of an integral, with the number of its line behind those of an answer so far.
fn integral_end(
    lines: &mut Lines<'_>,
    numbers: &mut NumberList,
) -> Result<Option<Option<RefutationProgram>>, ReadFault>
    requires { InFile lines.old }
    ensures read { (n : ℕ) (tree : AnswerTree) (partial : PartialProgram) → partial ≡ partial_program tree → IsPartialOver (n + 1) tree → numbers.old ≡ partial.so_far.lines → IfOk result (λ found. IsSomeAnswer n (spec.integral_end tree lines.old) (option_map (ended_program partial numbers.new) found) lines.new) }
    ensures fault { (tree : AnswerTree) → IfErr result (λ fault. IsFaultOf fault (spec.integral_end tree lines.old)) }
    ensures in_file { OnOk result (InFile lines.new) }
{
    let last = lines.line();
    lines.bare_line(b"end")?;
    numbers.push(last as u32)?;
    Ok(Some(None))
}

/// What stands behind the line `rest`, over n monomials, and the number of its line, which is put behind those of the lines above; `None` where it is not yet read.
fn end_of_refutation(
    alloc: Global,
    lines: &mut Lines<'_>,
    n: u8,
    numbers: &mut NumberList,
) -> Result<Option<EndProgram>, ReadFault>
    requires { InFile lines.old }
    ensures read { IfOk result (λ end. IsNextEnd n (spec.end_line n lines.old) end lines.new) }
    ensures numbered { OnOk result (numbers.new ≡ numbers.old ++ lines.old.line ∷ []) }
    ensures fault { IfErr result (λ fault. IsFaultOf fault (spec.end_line n lines.old)) }
    ensures in_file { OnOk result (InFile lines.new) }
{
    let line = lines.line();
    let end = end_line(alloc, lines, n)?;
    numbers.push(line as u32)?;
    Ok(end)
}

/// The refutation with this rest and this end; `None` where the end is not yet read.
fn refutation_of(rest: Program, end: Option<EndProgram>) -> Option<Option<RefutationProgram>>
    ensures { result ≡ option_map (refuted_program rest) end }
{
    match end {
        None => None,
        Some(end) => Some(Some(RefutationProgram { rest, end })),
    }
}

/// The rest and the end of a refutation, over n monomials, with the numbers of their lines behind those of an answer so far; `None` where it is not yet read.
fn refutation_lines(
    alloc: Global,
    lines: &mut Lines<'_>,
    n: u8,
    numbers: &mut NumberList,
) -> Result<Option<Option<RefutationProgram>>, ReadFault>
    requires { InFile lines.old }
    ensures read { (tree : AnswerTree) (partial : PartialProgram) → partial ≡ partial_program tree → IsPartialOver (n + 1) tree → numbers.old ≡ partial.so_far.lines → IfOk result (λ found. IsSomeAnswer n (spec.refutation_end n tree lines.old) (option_map (ended_program partial numbers.new) found) lines.new) }
    ensures fault { (tree : AnswerTree) → IfErr result (λ fault. IsFaultOf fault (spec.refutation_end n tree lines.old)) }
    ensures in_file { OnOk result (InFile lines.new) }
{
    let rest = lines.numbered_line(alloc, b"rest", monomials(n), numbers)?;
    let end = end_of_refutation(alloc, lines, n, numbers)?;
    Ok(refutation_of(rest, end))
}

/// The end of an answer, over n monomials, with the numbers of its lines behind those of an answer so far: no refutation where it is an integral; `None` where it is not yet read.
fn end_lines(
    alloc: Global,
    lines: &mut Lines<'_>,
    n: u8,
    refuted: bool,
    numbers: &mut NumberList,
) -> Result<Option<Option<RefutationProgram>>, ReadFault>
    requires { InFile lines.old }
    ensures read { (tree : AnswerTree) (partial : PartialProgram) → partial ≡ partial_program tree → IsPartialOver (n + 1) tree → numbers.old ≡ partial.so_far.lines → IfOk result (λ found. IsSomeAnswer n (spec.answer_end n refuted tree lines.old) (option_map (ended_program partial numbers.new) found) lines.new) }
    ensures fault { (tree : AnswerTree) → IfErr result (λ fault. IsFaultOf fault (spec.answer_end n refuted tree lines.old)) }
    ensures in_file { OnOk result (InFile lines.new) }
{
    if refuted {
        refutation_lines(alloc, lines, n, numbers)
    } else {
        integral_end(lines, numbers)
    }
}

impl PartialProgram {
    /// The answer with this end; `None` where it is not yet read.
    fn ended(self, end: Option<Option<RefutationProgram>>) -> Option<AnswerProgram>
        ensures { result ≡ option_map (ended_program self self.so_far.lines) end }
    {
        match end {
            None => None,
            Some(refutation) => Some(AnswerProgram {
                part: self.part,
                logs: self.so_far.logs,
                refutation,
                lines: self.so_far.lines,
            }),
        }
    }
}

/// An answer so far, and its end, over n monomials; `None` where it is not yet read.
fn answer_end(
    alloc: Global,
    lines: &mut Lines<'_>,
    n: u8,
    refuted: bool,
    mut partial: PartialProgram,
) -> Result<Option<AnswerProgram>, ReadFault>
    requires { InFile lines.old }
    ensures read { (tree : AnswerTree) → partial ≡ partial_program tree → IsPartialOver (n + 1) tree → IfOk result (λ program. IsSomeAnswer n (spec.answer_end n refuted tree lines.old) program lines.new) }
    ensures fault { (tree : AnswerTree) → IfErr result (λ fault. IsFaultOf fault (spec.answer_end n refuted tree lines.old)) }
    ensures in_file { OnOk result (InFile lines.new) }
{
    let end = end_lines(alloc, lines, n, refuted, &mut partial.so_far.lines)?;
    Ok(partial.ended(end))
}

/// The lines of a printed answer, over n monomials; `None` where it is not yet read.
fn answer_lines(
    alloc: Global,
    lines: &mut Lines<'_>,
    n: u8,
) -> Result<Option<AnswerProgram>, ReadFault>
    requires { InFile lines.old }
    ensures read { IfOk result (λ program. IsSomeAnswer n (spec.answer_lines n lines.old) program lines.new) }
    ensures fault { IfErr result (λ fault. IsFaultOf fault (spec.answer_lines n lines.old)) }
    ensures in_file { OnOk result (InFile lines.new) }
{
    let first = lines.line();
    let refuted = is_refuted(lines)?;
    let partial = partial_lines(alloc, lines, n, first as u32)?;
    answer_end(alloc, lines, n, refuted, partial)
}

/// A file that holds a problem, its printed answer, and nothing more; `None` where the answer is not yet read.
pub(crate) fn whole_certified(
    alloc: Global,
    bytes: &[u8],
) -> Result<Option<CertifiedProgram>, ReadFault>
    requires { length bytes.now < 2 ^ 32 }
    ensures read { IfOk result (λ program. IsWholeCertified (spec.whole_certified bytes.now) program) }
    ensures fault { IfErr result (λ fault. IsFaultOf fault (spec.whole_certified bytes.now)) }
{
    let mut lines = Lines::start(bytes);
    let problem = problem_lines(alloc, &mut lines)?;
    let Some(answer) = answer_lines(alloc, &mut lines, problem.tower.len() as u8)? else {
        return Ok(None);
    };
    lines.finish()?;
    Ok(Some(CertifiedProgram { problem, answer }))
}
