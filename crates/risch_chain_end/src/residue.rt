//! The condition that residues are not constant.

ghost use Rattle.std.specs.Prelude.{◌≡◌, ◌≤◌, ◌<◌, ◌+◌, length, IsFalse, IfOk};
ghost use Rattle.risch_level.specs.Levels.{element};
ghost use Rattle.risch_element_theory.specs.WholeTower.{meaning, polynomial, Within};
ghost use Rattle.risch_tower.specs.TowerMeaning.{monomials};
ghost use Rattle.risch_monomial.specs.LevelDerivation.{level_derivation};
ghost use Rattle.risch_monomial.specs.LevelElements.{numerator_at, denominator_at};
ghost use Rattle.risch_monomial.specs.NormalPolynomials.{HasNormalDivisors};
ghost use Rattle.risch_residue_traces.specs.TracesMeaning.{AreNotConstant};
ghost use Rattle.risch_chain_end.specs.Verdict.{Gives};
ghost use Rattle.risch_chain_end.specs.End as spec;
ghost use Rattle.risch_chain_end.specs.EndMeaning.{HasSquareFreeDenominator, AreGivenBy};

use crate::fault::Fault;
use crate::runs::power_sums;
use crate::texts::{digits, text};
use risch_cert::print_elem;
use risch_elem::Elem;
use risch_residue_traces::Traces;
use risch_tower::Tower;
use std::alloc::Global;

/// The line is refused unless the power is the one that is found.
fn check_power(alloc: Global, line: u32, power: u16, found: u16) -> Result<(), Fault>
    ensures rule { Gives result (spec.checked_power line power found) }
    ensures same { IfOk result (λ _. power ≡ found) }
{
    if power == found {
        return Ok(());
    }
    let left = digits(alloc, power)?;
    let right = digits(alloc, found)?;
    Err(Fault::Refused { line, left, right })
}

/// The line is refused unless the trace is the one that is found.
fn check_trace(alloc: Global, line: u32, trace: &Elem, found: &Elem) -> Result<(), Fault>
    ensures rule { Gives result (spec.checked_trace line trace.now found.now) }
    ensures same { IfOk result (λ _. meaning trace.now ≡ meaning found.now) }
{
    if trace.same(found) {
        return Ok(());
    }
    let left = print_elem(alloc, trace)?;
    let right = print_elem(alloc, found)?;
    Err(Fault::Refused { line, left, right })
}

/// The line is refused unless the residues are not constant, with this power and this trace.
#[tactic(auto, using(crate::proofs::VerdictSteps::steps))]
fn check_traces(
    alloc: Global,
    line: u32,
    power: u16,
    trace: &Elem,
    found: &Traces,
) -> Result<(), Fault>
    ensures rule { Gives result (spec.checked_traces line power trace.now found.now) }
    ensures given { IfOk result (λ _. AreGivenBy power trace.now found.now) }
{
    match found {
        Traces::Constant(_) => {
            let left = digits(alloc, power)?;
            let right = text(alloc, "none")?;
            Err(Fault::Refused { line, left, right })
        }
        Traces::NotConstant {
            power: found,
            trace: next,
        } => {
            check_power(alloc, line, power, *found)?;
            check_trace(alloc, line, trace, next)
        }
    }
}

/// The line is refused unless the element h is not 0.
fn check_some(alloc: Global, line: u32, normal: &Elem) -> Result<(), Fault>
    ensures rule { Gives result (spec.checked_some line normal.now) }
    ensures some { IfOk result (λ _. IsFalse (element.is_zero normal.now)) }
{
    if !normal.is_zero() {
        return Ok(());
    }
    let left = text(alloc, "0")?;
    let right = text(alloc, "not 0")?;
    Err(Fault::Refused { line, left, right })
}

/// The condition that the normal part h is not 0 and its residues are not constant, with this power and this trace.
#[tactic(auto, using(crate::proofs::VerdictSteps::steps), unfolding(crate::specs::End::checked_residue))]
pub(crate) fn check_residue(
    alloc: Global,
    tower: &Tower,
    line: u32,
    level: u8,
    normal: &Elem,
    power: u16,
    trace: &Elem,
) -> Result<(), Fault>
    requires level { level ≤ length tower.now }
    requires within { Within (level + 1) normal.now }
    requires proper { length (numerator_at level normal.now) < length (denominator_at level normal.now) }
    requires normal_divisors { HasNormalDivisors (level_derivation (monomials tower.now) level) (polynomial (denominator_at level normal.now)) }
    requires square_free { HasSquareFreeDenominator level normal.now }
    ensures rule { Gives result (spec.checked_residue tower.now line level normal.now power trace.now) }
    ensures not_constant { IfOk result (λ _. AreNotConstant tower.now level normal.now power trace.now) }
{
    check_some(alloc, line, normal)?;
    let found = power_sums(alloc, tower, level, normal)?;
    check_traces(alloc, line, power, trace, &found)
}
