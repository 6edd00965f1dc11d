//! The values of what was read, line by line.

ghost use Rattle.std.specs.Prelude.{◌≡◌, ◌+◌, ℕ, false, List, [], map, length, IfOk, OnOk};
ghost use Rattle.risch_element_theory.specs.WholeTower.{Within};
ghost use Rattle.risch_expression.specs.Tree.{Tree};
ghost use Rattle.risch_expression.specs.Program.{steps};
ghost use Rattle.risch_text.specs.File.{TowerLine, ProblemTree};
ghost use Rattle.risch_text.specs.Values as spec;
ghost use Rattle.risch_text.specs.Programs.{tower_program, problem_program, IsProgramOver, AreProgramsOver, IsProblemProgramOver};
ghost use Rattle.risch_text.specs.Reading.{Reads, ReadsWith};

use crate::fault::Fault;
use crate::problem::Problem;
use crate::programs::{ProblemProgram, TowerProgram};
use risch_elem::Elem;
use risch_expression::{Step, evaluate_element};
use risch_tower::{Monomial, Tower};
use std::alloc::Global;

/// The element that an expression stands for, in a line that begins there.
pub(crate) fn element_at(alloc: Global, start: u32, program: &[Step]) -> Result<Elem, Fault>
    ensures value { (tree : Tree) → program.now ≡ steps tree → Reads result (spec.element_at start tree) }
    ensures within { (n : ℕ) → IsProgramOver n false program.now → IfOk result (λ it. Within n it) }
{
    match evaluate_element(alloc, program) {
        Ok(element) => Ok(element),
        Err(fault) => Err(Fault::of_value(start, fault)),
    }
}

/// The monomial with this argument.
fn monomial_with(exponential: bool, argument: Elem) -> Monomial
    ensures { result ≡ spec.monomial_with exponential argument }
{
    if exponential {
        Monomial::Exp(argument)
    } else {
        Monomial::Log(argument)
    }
}

/// Adds the monomial of a tower line.
fn push_line(alloc: Global, tower: &mut Tower, line: &TowerProgram) -> Result<(), Fault>
    requires { IsProgramOver (length tower.old + 1) false line.now.argument }
    ensures value { (l : TowerLine) → line.now ≡ tower_program l → ReadsWith result tower.new (spec.with_line tower.old l) }
    ensures higher { OnOk result (length tower.new ≡ length tower.old + 1) }
{
    let argument = element_at(alloc, line.left, line.argument.as_slice())?;
    match tower.push(alloc, monomial_with(line.exponential, argument)) {
        Ok(()) => Ok(()),
        Err(fault) => Err(Fault::of_push(line.left, fault)),
    }
}

/// The tower with the monomials of the lines.
fn tower_of(alloc: Global, lines: &[TowerProgram]) -> Result<Tower, Fault>
    requires { AreProgramsOver 1 lines.now }
    ensures value { (ls : List TowerLine) → lines.now ≡ map tower_program ls → Reads result (spec.with_lines [] ls) }
    ensures height { IfOk result (λ tower. length tower ≡ length lines.now) }
{
    let mut tower = Tower::new(alloc);
    for line in lines {
        push_line(alloc, &mut tower, line)?;
    }
    Ok(tower)
}

/// The tower, and then the integrand.
pub(crate) fn problem_of(alloc: Global, program: &ProblemProgram) -> Result<Problem, Fault>
    requires { IsProblemProgramOver program.now }
    ensures value { (tree : ProblemTree) → program.now ≡ problem_program tree → Reads result (spec.problem_value tree) }
    ensures height { IfOk result (λ problem. length problem.tower ≡ length program.now.tower) }
{
    let tower = tower_of(alloc, program.tower.as_slice())?;
    let integrand = element_at(alloc, 0, program.integrand.as_slice())?;
    Ok(Problem { tower, integrand })
}
