//! Hermite reduction as a run.

ghost use Rattle.std.specs.Prelude.{◌≡◌, ◌≤◌, ◌+◌, length};
ghost use Rattle.risch_elem.specs.Runs.{OnLeft, OnReturn, Rose};
ghost use Rattle.risch_element_theory.specs.WholeTower.{polynomial, Within};
ghost use Rattle.risch_tower.specs.TowerMeaning.{monomials};
ghost use Rattle.risch_monomial.specs.LevelDerivation.{level_derivation};
ghost use Rattle.risch_monomial.specs.LevelElements.{denominator_at};
ghost use Rattle.risch_monomial.specs.NormalPolynomials.{HasNormalDivisors};
ghost use Rattle.risch_run.specs.Ruled.{IfDone};
ghost use Rattle.risch_run.specs.Counted.{IsCountedRun};
ghost use Rattle.risch_hermite.specs.HermiteReduction as spec;
ghost use Rattle.risch_hermite.specs.HermiteMeaning.{IsHermiteReduction};

use crate::reduction::{Hermite, reduction};
use risch_elem::{Elem, Run, Units};
use risch_run::answer;
use risch_tower::Tower;
use std::alloc::Global;

/// The Hermite reduction f = Dg + h + rest of an element f of a level with the variable t, whose denominator has normal square-free divisors (Bronstein, section 5.3).
///
/// The denominator d of h is coprime with Dd, h is proper, and rest is a polynomial in t. The denominator's part of exponent i costs i - 1 units.
///
/// Stops: that of the first value that cannot be formed; Budget exactly where the count of units stands at its most and a further step is due.
#[tactic(auto, using(risch_run::proofs::RuledSteps::answers, risch_run::proofs::CountedSteps::answers))]
pub fn hermite<U: Units>(
    alloc: Global,
    tower: &Tower,
    level: u8,
    normal: &Elem,
    units: &mut U,
) -> Run<Hermite>
    requires level { level ≤ length tower.now }
    requires within { Within (level + 1) normal.now }
    requires normal { HasNormalDivisors (level_derivation (monomials tower.now) level) (polynomial (denominator_at level normal.now)) }
    ensures rule { IsCountedRun result (spec.hermite tower.now level normal.now) (U.units units.old) (U.units units.new) (U.most units.old) }
    ensures meaning { IfDone result (λ it. IsHermiteReduction tower.now level normal.now it) }
    ensures within { IfDone result (λ it. Within (level + 1) it.g × Within (level + 1) it.h × Within (level + 1) it.rest) }
    ensures left { OnLeft result (Rose (U.leaves units.old) (U.leaves units.new)) }
    ensures not_left { OnReturn result (U.leaves units.new ≡ U.leaves units.old) }
    ensures same_most { U.most units.new ≡ U.most units.old }
    ensures same_kept { U.kept units.new ≡ U.kept units.old }
{
    answer(reduction(alloc, tower, level, normal, units))
}
