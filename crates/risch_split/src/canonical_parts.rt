//! The canonical parts of an element of a level.

ghost use Rattle.std.specs.Prelude.{◌≡◌, ◌≤◌, ◌<◌, ◌+◌, length, Some, IfOk};
ghost use Rattle.risch_univariate.specs.Degree.{IsMonic};
ghost use Rattle.risch_univariate.specs.Division.{IsCoprime};
ghost use Rattle.risch_mean.specs.ElementField.{elements};
ghost use Rattle.risch_field.specs.Checked.{Agrees, map_ok};
ghost use Rattle.risch_polynomial.specs.Poly as rules;
ghost use Rattle.risch_level.specs.Levels.{Element, element as operations};
ghost use Rattle.risch_element_theory.specs.WholeTower.{IsElement, polynomial, Within, AllWithin};
ghost use Rattle.risch_monomial.specs.LevelElements.{numerator_at, denominator_at};
ghost use Rattle.risch_run.specs.Ruled.{IsResult, IfErrNotSound};
ghost use Rattle.risch_split.specs.Canonical as spec;
ghost use Rattle.risch_split.specs.SplittingMeaning.{IsNewConstant, AreCanonicalParts, IsSplitting};
ghost use Rattle.risch_split.specs.SplittingSteps.{IsDivisionAt};

use crate::splitting::{Split, splitting};
use risch_elem::{Elem, Fail, Poly};
use risch_field::Arith;
use risch_monomial::{level_of, of_polynomial, ratio};
use risch_run::Ended;
use risch_tower::Tower;
use std::alloc::{AllocError, Global};

/// An element of a level as the sum of a reduced and a proper normal one.
#[derive(Drop)]
pub struct Canonical {
    pub reduced: Elem,
    pub normal: Elem,
}

impl Canonical {
    /// The parts once more.
    ///
    /// `Err` for want of memory alone.
    pub fn copy(&self, alloc: Global) -> Result<Canonical, AllocError>
        ensures { IfOk result (λ copy. copy ≡ self.now) }
    {
        Ok(Canonical {
            reduced: self.reduced.copy(alloc)?,
            normal: self.normal.copy(alloc)?,
        })
    }
}

/// q + r/s, for s other than 0.
#[tactic(auto, using(risch_field::proofs::CheckedSteps::stop_passes, risch_field::proofs::CheckedSteps::value_passes), unfolding(crate::specs::Canonical::reduced_part))]
fn reduced_part(
    alloc: Global,
    level: u8,
    whole: &Poly,
    top: &Poly,
    bottom: &Poly,
) -> Result<Elem, Fail>
    requires level { level < 5 }
    requires some { 0 < length bottom.now }
    requires whole_within { AllWithin level whole.now }
    requires top_within { AllWithin level top.now }
    requires bottom_within { AllWithin level bottom.now }
    ensures rule { Agrees result (spec.reduced_part level whole.now top.now bottom.now) }
    ensures within { IfOk result (λ it. Within (level + 1) it) }
{
    let polynomial = of_polynomial(alloc, level, whole)?;
    let proper = ratio(alloc, level, top, bottom)?;
    polynomial.add(alloc, &proper)
}

/// The parts q and r/n of q + r/n.
#[tactic(auto, using(risch_field::proofs::CheckedSteps::stop_passes, risch_field::proofs::CheckedSteps::value_passes), unfolding(crate::specs::Canonical::without_special))]
fn without_special(
    alloc: Global,
    level: u8,
    whole: &Poly,
    rest: &Poly,
    normal: &Poly,
) -> Result<Canonical, Fail>
    requires level { level < 5 }
    requires some { 0 < length normal.now }
    requires whole_within { AllWithin level whole.now }
    requires rest_within { AllWithin level rest.now }
    requires normal_within { AllWithin level normal.now }
    ensures rule { Agrees result (spec.without_special level whole.now rest.now normal.now) }
    ensures within { IfOk result (λ it. Within (level + 1) it.reduced × Within (level + 1) it.normal) }
{
    let reduced = of_polynomial(alloc, level, whole)?;
    let normal = ratio(alloc, level, rest, normal)?;
    Ok(Canonical { reduced, normal })
}

/// The parts q + r/s and 0.
#[tactic(auto, using(risch_field::proofs::CheckedSteps::stop_passes, risch_field::proofs::CheckedSteps::value_passes), unfolding(crate::specs::Canonical::without_normal))]
fn without_normal(
    alloc: Global,
    level: u8,
    whole: &Poly,
    rest: &Poly,
    special: &Poly,
) -> Result<Canonical, Fail>
    requires level { level < 5 }
    requires some { 0 < length special.now }
    requires whole_within { AllWithin level whole.now }
    requires rest_within { AllWithin level rest.now }
    requires special_within { AllWithin level special.now }
    ensures rule { Agrees result (spec.without_normal level whole.now rest.now special.now) }
    ensures within { IfOk result (λ it. Within (level + 1) it.reduced × Within (level + 1) it.normal) }
{
    let reduced = reduced_part(alloc, level, whole, rest, special)?;
    Ok(Canonical {
        reduced,
        normal: Elem::zero(),
    })
}

/// The parts q + r'/s and z/n for the solution r' and z of n·r' + s·z = r.
#[tactic(auto, using(risch_field::proofs::CheckedSteps::stop_passes, risch_field::proofs::CheckedSteps::value_passes))]
fn parts_of(
    alloc: Global,
    level: u8,
    whole: &Poly,
    split: &Split,
    solution: &(Poly, Poly),
) -> Result<Canonical, Fail>
    requires level { level < 5 }
    requires some_normal { 0 < length split.now.normal }
    requires some_special { 0 < length split.now.special }
    requires whole_within { AllWithin level whole.now }
    requires normal_within { AllWithin level split.now.normal }
    requires special_within { AllWithin level split.now.special }
    requires top_within { AllWithin level solution.now.0 }
    requires other_within { AllWithin level solution.now.1 }
    ensures rule { Agrees result (spec.parts_of level whole.now split.now (Some solution.now)) }
    ensures within { IfOk result (λ it. Within (level + 1) it.reduced × Within (level + 1) it.normal) }
{
    let (top, other) = solution;
    let reduced = reduced_part(alloc, level, whole, top, &split.special)?;
    let normal = ratio(alloc, level, other, &split.normal)?;
    Ok(Canonical { reduced, normal })
}

/// The parts of q + r/(n·s): q + r'/s and z/n with n·r' + s·z = r and deg r' < deg s.
#[tactic(auto, using(risch_field::proofs::CheckedSteps::stop_passes, risch_field::proofs::CheckedSteps::value_passes), unfolding(crate::specs::Canonical::parts_by))]
fn parts_by(
    alloc: Global,
    level: u8,
    whole: &Poly,
    rest: &Poly,
    split: &Split,
) -> Result<Canonical, Fail>
    requires level { level < 5 }
    requires whole_within { AllWithin level whole.now }
    requires rest_within { AllWithin level rest.now }
    requires normal_within { AllWithin level split.now.normal }
    requires special_within { AllWithin level split.now.special }
    requires normal_monic { IsMonic elements (polynomial split.now.normal) }
    requires special_monic { IsMonic elements (polynomial split.now.special) }
    requires coprime { IsCoprime elements (polynomial split.now.normal) (polynomial split.now.special) }
    ensures rule { Agrees result (spec.parts_by level whole.now rest.now split.now) }
    ensures within { IfOk result (λ it. Within (level + 1) it.reduced × Within (level + 1) it.normal) }
{
    let _special_inner = split.special.inner();
    if split.special.is_one() {
        return without_special(alloc, level, whole, rest, &split.normal);
    }
    if split.normal.is_one() {
        return without_normal(alloc, level, whole, rest, &split.special);
    }
    let solution = Poly::solve_mod(alloc, &split.special, &split.normal, rest)?;
    parts_of(alloc, level, whole, split, &solution)
}

/// A numerator N = q·M + r over its denominator M, with deg r < deg M.
#[derive(Drop)]
struct Divided {
    quotient: Poly,
    rest: Poly,
    denominator: Poly,
}

/// The numerator of an element at a level, divided by the denominator.
fn division_at(alloc: Global, level: u8, of: &Elem) -> Result<Divided, Fail>
    requires level { level < 5 }
    requires within { Within (level + 1) of.now }
    ensures rule { Agrees (map_ok spec.quotient_and_rest result) (rules.division operations (numerator_at level of.now) (denominator_at level of.now)) }
    ensures meaning { IfOk result (λ it. IsDivisionAt level of.now it) }
    ensures within { IfOk result (λ it. AllWithin level it.quotient × AllWithin level it.rest × AllWithin level it.denominator) }
{
    let numerator = of.num_poly(alloc, level)?;
    let denominator = of.den_poly(alloc, level)?;
    let (quotient, rest) = numerator.div_rem(alloc, &denominator)?;
    let _quotient_inner = quotient.inner();
    let _rest_inner = rest.inner();
    Ok(Divided {
        quotient,
        rest,
        denominator,
    })
}

/// The canonical parts of q + r/M, by the splitting of M, or what ends them.
#[tactic(auto, using(risch_run::proofs::RuledSteps::steps))]
fn parts_of_division(
    alloc: Global,
    tower: &Tower,
    level: u8,
    division: &Divided,
) -> Result<Canonical, Ended>
    requires level { level ≤ length tower.now }
    requires quotient_within { AllWithin level division.now.quotient }
    requires rest_within { AllWithin level division.now.rest }
    requires denominator_within { AllWithin level division.now.denominator }
    requires monic { IsMonic elements (polynomial division.now.denominator) }
    ensures rule { IsResult result (spec.parts_of_division tower.now level division.now) }
    ensures meaning { (f : Element) → IsElement f → Within (level + 1) f → IsDivisionAt level f division.now → IfOk result (λ it. AreCanonicalParts tower.now level f it) }
    ensures not_sound { IfErrNotSound result (IsNewConstant tower.now level) }
    ensures within { IfOk result (λ it. Within (level + 1) it.reduced × Within (level + 1) it.normal) }
{
    level_of(tower, level);
    let split = splitting(alloc, tower, level, &division.denominator)?;
    let _normal_inner = split.normal.inner();
    let _special_inner = split.special.inner();
    let parts = parts_by(alloc, level, &division.quotient, &division.rest, &split)?;
    Ok(parts)
}

/// The canonical parts, or what ends them.
pub(crate) fn canonical_parts(
    alloc: Global,
    tower: &Tower,
    level: u8,
    element: &Elem,
) -> Result<Canonical, Ended>
    requires level { level ≤ length tower.now }
    requires within { Within (level + 1) element.now }
    ensures rule { IsResult result (spec.canonical tower.now level element.now) }
    ensures meaning { IfOk result (λ it. AreCanonicalParts tower.now level element.now it) }
    ensures not_sound { IfErrNotSound result (IsNewConstant tower.now level) }
    ensures within { IfOk result (λ it. Within (level + 1) it.reduced × Within (level + 1) it.normal) }
{
    level_of(tower, level);
    let _nest = element.nest();
    let division = division_at(alloc, level, element)?;
    parts_of_division(alloc, tower, level, &division)
}
