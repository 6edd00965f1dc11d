//! The lines of problem files.

ghost use Rattle.std.specs.Prelude.{◌≡◌, ◌+◌, ◌<◌, ◌≤◌, ◌^◌, [], length, IfOk, IfErr, OnOk};
ghost use Rattle.risch_expression.specs.Reading.{IsFaultOf};
ghost use Rattle.risch_text.specs.Lines.{InFile};
ghost use Rattle.risch_text.specs.File as spec;
ghost use Rattle.risch_text.specs.Reading.{MovesTo, IsTowerLine, AreTowerLines, IsProblemRead, IsWholeProblem};

use crate::lines::Lines;
use crate::programs::{ProblemProgram, TowerProgram};
use risch_elem::Items;
use risch_expression::{Names, ReadFault, SyntaxFault};
use std::alloc::Global;

/// The most tower lines that a file may have.
const MOST_LINES: u8 = 9;

/// x and so many monomials.
pub(crate) fn monomials(monomials: u8) -> Names
    ensures { result ≡ spec.monomials monomials }
{
    Names {
        monomials,
        with_z: false,
    }
}

/// Whether `exp` stands here, and not `log`.
#[tactic(auto, unfolding(crate::specs::File::is_exponential))]
fn is_exponential(lines: &mut Lines<'_>) -> Result<bool, SyntaxFault>
    requires { InFile lines.old }
    ensures moves { MovesTo result (spec.is_exponential lines.old) lines.new }
    ensures in_file { OnOk result (InFile lines.new) }
{
    if lines.take_word(b"log") {
        return Ok(false);
    }
    if lines.take_word(b"exp") {
        return Ok(true);
    }
    Err(lines.unexpected())
}

/// What stands behind the name of the monomial above n others, where so many bytes were left at that name.
#[tactic(auto, unfolding(crate::specs::File::tower_line))]
fn tower_line(
    alloc: Global,
    lines: &mut Lines<'_>,
    n: u8,
    left: u32,
) -> Result<TowerProgram, ReadFault>
    requires { InFile lines.old }
    ensures read { IfOk result (λ program. IsTowerLine (n + 1) (spec.tower_line n left lines.old) program lines.new) }
    ensures fault { IfErr result (λ fault. IsFaultOf fault (spec.tower_line n left lines.old)) }
    ensures in_file { OnOk result (InFile lines.new) }
{
    lines.symbol(b'=')?;
    let exponential = is_exponential(lines)?;
    lines.symbol(b'(')?;
    let argument = lines.sum(alloc, monomials(n))?;
    lines.symbol(b')')?;
    lines.line_end()?;
    Ok(TowerProgram {
        exponential,
        argument,
        left,
    })
}

/// The tower lines that stand next.
fn tower_lines(alloc: Global, lines: &mut Lines<'_>) -> Result<Items<TowerProgram>, ReadFault>
    requires { InFile lines.old }
    ensures read { IfOk result (λ programs. AreTowerLines (spec.tower_lines 9 [] lines.old) programs lines.new) }
    ensures few { IfOk result (λ programs. length programs ≤ 9) }
    ensures fault { IfErr result (λ fault. IsFaultOf fault (spec.tower_lines 9 [] lines.old)) }
    ensures in_file { OnOk result (InFile lines.new) }
{
    let mut tower = Items::new(alloc);
    for n in 0..MOST_LINES {
        let left = lines.left();
        if !lines.take_word(&[b't', b'1' + n]) {
            return Ok(tower);
        }
        tower.push(tower_line(alloc, lines, n, left)?)?;
    }
    Ok(tower)
}

/// The tower lines that stand next, and the line of the integrand.
pub(crate) fn problem_lines(
    alloc: Global,
    lines: &mut Lines<'_>,
) -> Result<ProblemProgram, ReadFault>
    requires { InFile lines.old }
    ensures read { IfOk result (λ program. IsProblemRead (spec.problem_lines lines.old) program lines.new) }
    ensures few { IfOk result (λ program. length program.tower ≤ 9) }
    ensures fault { IfErr result (λ fault. IsFaultOf fault (spec.problem_lines lines.old)) }
    ensures in_file { OnOk result (InFile lines.new) }
{
    let tower = tower_lines(alloc, lines)?;
    let names = monomials(tower.len() as u8);
    let integrand = lines.expression_line(alloc, b"integrate", names)?;
    Ok(ProblemProgram { tower, integrand })
}

/// A file that holds a problem and nothing more.
#[tactic(auto, unfolding(crate::specs::File::whole_problem))]
pub(crate) fn whole_problem(alloc: Global, bytes: &[u8]) -> Result<ProblemProgram, ReadFault>
    requires { length bytes.now < 2 ^ 32 }
    ensures read { IfOk result (λ program. IsWholeProblem (spec.whole_problem bytes.now) program) }
    ensures fault { IfErr result (λ fault. IsFaultOf fault (spec.whole_problem bytes.now)) }
{
    let mut lines = Lines::start(bytes);
    let program = problem_lines(alloc, &mut lines)?;
    lines.finish()?;
    Ok(program)
}
