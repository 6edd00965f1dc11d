//! The conditions at the end of a refutation.

ghost use Rattle.std.specs.Prelude.{◌≤◌, ◌<◌, ◌+◌, length, IfOk};
ghost use Rattle.risch_level.specs.Accessors as accessors;
ghost use Rattle.risch_element_theory.specs.WholeTower.{meaning, polynomial, Within};
ghost use Rattle.risch_tower.specs.TowerMeaning.{monomials};
ghost use Rattle.risch_monomial.specs.LevelDerivation.{level_derivation};
ghost use Rattle.risch_monomial.specs.LevelElements.{numerator_at, denominator_at};
ghost use Rattle.risch_monomial.specs.NormalPolynomials.{HasNormalDivisors};
ghost use Rattle.risch_split.specs.SplittingMeaning.{AreCanonicalParts};
ghost use Rattle.risch_chain_end.specs.Verdict.{Gives};
ghost use Rattle.risch_chain_end.specs.End as spec;
ghost use Rattle.risch_chain_end.specs.EndMeaning.{end_of, HasSquareFreeDenominator, IsReadOff, IsEndOf};

use crate::denominator::check_denominator;
use crate::fault::Fault;
use crate::residue::check_residue;
use crate::runs::canonical_parts;
use risch_cert::{Chain, End, print_variable};
use risch_elem::Elem;
use risch_monomial::level_of;
use risch_split::Canonical;
use risch_tower::Tower;
use std::alloc::Global;

/// The line is refused unless the rest lies in the level.
fn check_level(alloc: Global, line: u32, level: u8, rest: &Elem) -> Result<(), Fault>
    ensures rule { Gives result (spec.checked_level line level (accessors.level 5 rest.now)) }
    ensures within { IfOk result (λ _. Within (level + 1) rest.now) }
{
    match rest.level() {
        Some(of) if level < of => {
            let left = print_variable(alloc, of)?;
            let right = print_variable(alloc, level)?;
            Err(Fault::Refused { line, left, right })
        }
        _ => Ok(()),
    }
}

/// The condition that the end is read off the normal part h.
fn check_end_of(
    alloc: Global,
    tower: &Tower,
    line: u32,
    level: u8,
    end: &End,
    normal: &Elem,
) -> Result<(), Fault>
    requires level { level ≤ length tower.now }
    requires within { Within (level + 1) normal.now }
    requires proper { length (numerator_at level normal.now) < length (denominator_at level normal.now) }
    requires normal_divisors { HasNormalDivisors (level_derivation (monomials tower.now) level) (polynomial (denominator_at level normal.now)) }
    requires square_free { HasSquareFreeDenominator level normal.now }
    ensures rule { Gives result (spec.checked_end_of tower.now line level normal.now end.now) }
    ensures read_off { IfOk result (λ _. IsReadOff tower.now level normal.now end.now) }
{
    match end {
        End::Residue { power, trace } => {
            check_residue(alloc, tower, line, level, normal, *power, trace)
        }
    }
}

/// The conditions on the canonical parts of the rest.
#[tactic(auto, using(crate::proofs::VerdictSteps::steps))]
fn check_parts(
    alloc: Global,
    tower: &Tower,
    line: u32,
    chain: &Chain,
    parts: &Canonical,
) -> Result<(), Fault>
    requires level { chain.now.level ≤ length tower.now }
    requires rest { Within (chain.now.level + 1) chain.now.rest }
    requires reduced { Within (chain.now.level + 1) parts.now.reduced }
    requires normal { Within (chain.now.level + 1) parts.now.normal }
    requires parts { AreCanonicalParts tower.now chain.now.level chain.now.rest parts.now }
    ensures rule { Gives result (spec.checked_parts tower.now line chain.now.level chain.now.end parts.now) }
    ensures end { IfOk result (λ _. IsEndOf (monomials tower.now) chain.now.level (meaning chain.now.rest) (end_of chain.now.end)) }
{
    level_of(tower, chain.level);
    let _rest = chain.rest.nest();
    let _reduced = parts.reduced.nest();
    let _normal = parts.normal.nest();
    check_denominator(alloc, line, chain.level, &parts.normal)?;
    check_end_of(alloc, tower, line, chain.level, &chain.end, &parts.normal)
}

/// Whether the end of a refutation holds: whether it is read off the canonical parts of the rest. The end stands at this line.
///
/// `Refused` with the first condition that does not hold; `Ended` with the stop of a value that this condition needs, Overflow or Size or `NotSound(e)` with an element e that is no fraction and has De = 0, or with Memory for want of memory alone.
#[tactic(auto, using(crate::proofs::VerdictSteps::steps), unfolding(crate::specs::End::checked_end))]
pub fn check_end(alloc: Global, tower: &Tower, line: u32, chain: &Chain) -> Result<(), Fault>
    requires { chain.now.level ≤ length tower.now }
    ensures rule { Gives result (spec.checked_end tower.now line chain.now) }
    ensures end { IfOk result (λ _. IsEndOf (monomials tower.now) chain.now.level (meaning chain.now.rest) (end_of chain.now.end)) }
{
    check_level(alloc, line, chain.level, &chain.rest)?;
    let parts = canonical_parts(alloc, tower, chain.level, &chain.rest)?;
    check_parts(alloc, tower, line, chain, &parts)
}
