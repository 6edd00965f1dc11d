//! The reduction of an element, part by part of its denominator.

ghost use Rattle.std.specs.Prelude.{◌≡◌, ◌≤◌, ◌<◌, ◌+◌, ℕ, List, All, drop, length, map, IfOk};
ghost use Rattle.risch_ring.specs.CommRing.{power};
ghost use Rattle.risch_univariate.specs.PolynomialRing.{polynomials};
ghost use Rattle.risch_univariate.specs.Degree.{IsMonic};
ghost use Rattle.risch_univariate.specs.Division.{Divides, IsCoprime};
ghost use Rattle.risch_univariate.specs.SplittingFactorization.{IsNormal};
ghost use Rattle.risch_mean.specs.Element as mean;
ghost use Rattle.risch_mean.specs.ElementField.{elements};
ghost use Rattle.risch_field.specs.Checked.{Agrees};
ghost use Rattle.risch_level.specs.Levels.{Element};
ghost use Rattle.risch_element_theory.specs.ElementPolynomials.{◌*ₚ◌, IsDivisionOf};
ghost use Rattle.risch_element_theory.specs.WholeTower.{meaning, polynomial, Within, AllWithin};
ghost use Rattle.risch_tower.specs.declared.level.Level.{Level};
ghost use Rattle.risch_tower.specs.TowerMeaning.{monomials};
ghost use Rattle.risch_monomial.specs.LevelDerivation.{level_derivation};
ghost use Rattle.risch_monomial.specs.LevelElements.{denominator_at};
ghost use Rattle.risch_monomial.specs.NormalPolynomials.{HasNormalDivisors};
ghost use Rattle.risch_run.specs.Counted.{IsCountedResult, LeavesOf};
ghost use Rattle.risch_hermite.specs.HermiteReduction as spec;
ghost use Rattle.risch_hermite.specs.HermiteMeaning.{ArePartsOf, HasPart, IsHermiteReduction, IsReducedTo};

use crate::partial::Partial;
use crate::step::{power, step};
use risch_elem::{Elem, Fail, Poly, Units};
use risch_field::Arith;
use risch_monomial::{level_of, of_polynomial};
use risch_run::{Ended, charge};
use risch_sub::square_free;
use risch_tower::Tower;
use std::alloc::{AllocError, Global};

/// The reduction f = Dg + h + rest of an element f of a level with the variable t.
#[derive(Drop)]
pub struct Hermite {
    /// The element whose derivative is split off.
    pub g: Elem,
    /// The simple part: proper, with a denominator d that is coprime with its derivative Dd.
    pub h: Elem,
    /// A polynomial in t.
    pub rest: Elem,
}

impl Hermite {
    /// The reduction once more.
    ///
    /// `Err` for want of memory alone.
    pub fn copy(&self, alloc: Global) -> Result<Hermite, AllocError>
        ensures { IfOk result (λ copy. copy ≡ self.now) }
    {
        Ok(Hermite {
            g: self.g.copy(alloc)?,
            h: self.h.copy(alloc)?,
            rest: self.rest.copy(alloc)?,
        })
    }
}

/// The steps of the part v for j from `count` down to 1, each of which costs one unit.
fn steps<U: Units>(
    alloc: Global,
    tower: &Tower,
    level: u8,
    part: &Poly,
    cofactor: &Poly,
    count: u16,
    partial: Partial,
    units: &mut U,
) -> Result<Partial, Ended>
    requires level { level ≤ length tower.now }
    requires part_within { AllWithin level part.now }
    requires cofactor_within { AllWithin level cofactor.now }
    requires degree { 2 ≤ length part.now }
    requires normal { IsNormal elements (level_derivation (monomials tower.now) level) (polynomial part.now) }
    requires coprime { IsCoprime elements (polynomial part.now) (polynomial cofactor.now) }
    requires numerator_within { AllWithin level partial.numerator }
    requires sum_within { Within (level + 1) partial.sum }
    ensures rule { IsCountedResult result (spec.steps tower.now level cofactor.now part.now count partial) (U.units units.old) (U.units units.new) (U.most units.old) }
    ensures meaning { (f : mean.Element) → IsReducedTo tower.now level f (polynomial cofactor.now *ₚ power (polynomials elements) (polynomial part.now) (count + 1)) partial → IfOk result (IsReducedTo tower.now level f (polynomial cofactor.now *ₚ power (polynomials elements) (polynomial part.now) 1)) }
    ensures within { IfOk result (λ it. AllWithin level it.numerator × Within (level + 1) it.sum) }
    ensures leaves { LeavesOf result (U.leaves units.old) (U.leaves units.new) }
    ensures same_most { U.most units.new ≡ U.most units.old }
    ensures same_kept { U.kept units.new ≡ U.kept units.old }
{
    let mut partial = partial;
    for done in 0..count {
        charge(units)?;
        let next = step(alloc, tower, level, part, cofactor, count - done, partial)?;
        partial = next;
    }
    Ok(partial)
}

/// w quo v^i, for v other than 0 and i ≥ 1.
#[tactic(auto, using(risch_field::proofs::CheckedSteps::stop_passes, risch_field::proofs::CheckedSteps::value_passes), unfolding(crate::specs::HermiteReduction::cofactor))]
fn cofactor(alloc: Global, part: &Poly, exponent: u16, denominator: &Poly) -> Result<Poly, Fail>
    requires some { 0 < length part.now }
    requires positive { 1 ≤ exponent }
    requires divides { Divides elements (power (polynomials elements) (polynomial part.now) exponent) (polynomial denominator.now) }
    ensures rule { Agrees result (spec.cofactor part.now exponent denominator.now) }
    ensures meaning { IfOk result (λ it. polynomial denominator.now ≡ polynomial it *ₚ power (polynomials elements) (polynomial part.now) exponent) }
    ensures within { (n : ℕ) → AllWithin n part.now → AllWithin n denominator.now → IfOk result (λ it. AllWithin n it) }
{
    let _part_inner = part.inner();
    let power = power(alloc, part, exponent)?;
    let (cofactor, _nothing) = denominator.div_rem(alloc, &power)?;
    Ok(cofactor)
}

/// The steps of the part v with the cofactor u for j from `count` down to 1, and the denominator u·v.
fn with_cofactor<U: Units>(
    alloc: Global,
    tower: &Tower,
    level: u8,
    part: &Poly,
    cofactor: &Poly,
    count: u16,
    before: Partial,
    units: &mut U,
) -> Result<(Partial, Poly), Ended>
    requires level { level ≤ length tower.now }
    requires part_within { AllWithin level part.now }
    requires cofactor_within { AllWithin level cofactor.now }
    requires degree { 2 ≤ length part.now }
    requires normal { IsNormal elements (level_derivation (monomials tower.now) level) (polynomial part.now) }
    requires coprime { IsCoprime elements (polynomial part.now) (polynomial cofactor.now) }
    requires numerator_within { AllWithin level before.numerator }
    requires sum_within { Within (level + 1) before.sum }
    ensures rule { IsCountedResult result (spec.with_cofactor tower.now level cofactor.now part.now count before) (U.units units.old) (U.units units.new) (U.most units.old) }
    ensures meaning { (f : mean.Element) → IsReducedTo tower.now level f (polynomial cofactor.now *ₚ power (polynomials elements) (polynomial part.now) (count + 1)) before → IfOk result (λ it. IsReducedTo tower.now level f (polynomial it.1) it.0) }
    ensures denominator { IfOk result (λ it. polynomial it.1 ≡ polynomial cofactor.now *ₚ polynomial part.now) }
    ensures within { IfOk result (λ it. AllWithin level it.1 × AllWithin level it.0.numerator × Within (level + 1) it.0.sum) }
    ensures leaves { LeavesOf result (U.leaves units.old) (U.leaves units.new) }
    ensures same_most { U.most units.new ≡ U.most units.old }
    ensures same_kept { U.kept units.new ≡ U.kept units.old }
{
    let partial = steps(alloc, tower, level, part, cofactor, count, before, units)?;
    let denominator = cofactor.mul(alloc, part)?;
    Ok((partial, denominator))
}

/// The steps of the part v = n_i, and u·v in the place of the denominator w = u·v^i.
fn with_part<U: Units>(
    alloc: Global,
    tower: &Tower,
    level: u8,
    exponent: u16,
    part: &Poly,
    before: (Partial, Poly),
    units: &mut U,
) -> Result<(Partial, Poly), Ended>
    requires level { level ≤ length tower.now }
    requires exponent { 2 ≤ exponent }
    requires monic { IsMonic elements (polynomial part.now) }
    requires normal { IsNormal elements (level_derivation (monomials tower.now) level) (polynomial part.now) }
    requires has_part { HasPart (polynomial part.now) exponent (polynomial before.1) }
    requires part_within { AllWithin level part.now }
    requires denominator_within { AllWithin level before.1 }
    requires numerator_within { AllWithin level before.0.numerator }
    requires sum_within { Within (level + 1) before.0.sum }
    ensures rule { IsCountedResult result (spec.with_part tower.now level exponent part.now before) (U.units units.old) (U.units units.new) (U.most units.old) }
    ensures meaning { (f : mean.Element) → IsReducedTo tower.now level f (polynomial before.1) before.0 → IfOk result (λ it. IsReducedTo tower.now level f (polynomial it.1) it.0) }
    ensures denominator { IfOk result (λ it. polynomial it.1 *ₚ power (polynomials elements) (polynomial part.now) exponent ≡ polynomial before.1 *ₚ polynomial part.now) }
    ensures within { IfOk result (λ it. AllWithin level it.1 × AllWithin level it.0.numerator × Within (level + 1) it.0.sum) }
    ensures leaves { LeavesOf result (U.leaves units.old) (U.leaves units.new) }
    ensures same_most { U.most units.new ≡ U.most units.old }
    ensures same_kept { U.kept units.new ≡ U.kept units.old }
{
    let _part_inner = part.inner();
    if part.is_one() {
        return Ok(before);
    }
    let (partial, denominator) = before;
    let cofactor = cofactor(alloc, part, exponent, &denominator)?;
    with_cofactor(
        alloc,
        tower,
        level,
        part,
        &cofactor,
        exponent - 1,
        partial,
        units,
    )
}

/// The parts n_2, n_3, .. one after the other.
fn with_parts<U: Units>(
    alloc: Global,
    tower: &Tower,
    level: u8,
    parts: &[Poly],
    start: (Partial, Poly),
    units: &mut U,
) -> Result<(Partial, Poly), Ended>
    requires level { level ≤ length tower.now }
    requires few { length parts.now ≤ 256 }
    requires are_parts { ArePartsOf tower.now level 2 (map polynomial (drop 1 parts.now)) (polynomial start.1) }
    requires parts_within { All (AllWithin level) parts.now }
    requires denominator_within { AllWithin level start.1 }
    requires numerator_within { AllWithin level start.0.numerator }
    requires sum_within { Within (level + 1) start.0.sum }
    ensures rule { IsCountedResult result (spec.with_parts tower.now level 2 (drop 1 parts.now) start) (U.units units.old) (U.units units.new) (U.most units.old) }
    ensures meaning { (f : mean.Element) → IsReducedTo tower.now level f (polynomial start.1) start.0 → IfOk result (λ it. IsReducedTo tower.now level f (polynomial it.1) it.0) }
    ensures monic { IfOk result (λ it. IsMonic elements (polynomial it.1)) }
    ensures normal { IfOk result (λ it. IsNormal elements (level_derivation (monomials tower.now) level) (polynomial it.1)) }
    ensures within { IfOk result (λ it. AllWithin level it.1 × AllWithin level it.0.numerator × Within (level + 1) it.0.sum) }
    ensures leaves { LeavesOf result (U.leaves units.old) (U.leaves units.new) }
    ensures same_most { U.most units.new ≡ U.most units.old }
    ensures same_kept { U.kept units.new ≡ U.kept units.old }
{
    let mut state = start;
    for index in 1..parts.len() {
        let next = with_part(
            alloc,
            tower,
            level,
            index as u16 + 1,
            &parts[index],
            state,
            units,
        )?;
        state = next;
    }
    Ok(state)
}

/// g, r/w and q, for the quotient q and the remainder r of a by w.
#[tactic(auto, using(risch_field::proofs::CheckedSteps::stop_passes, risch_field::proofs::CheckedSteps::value_passes))]
fn with_division(
    alloc: Global,
    level: u8,
    partial: Partial,
    denominator: &Poly,
    division: &(Poly, Poly),
) -> Result<Hermite, Fail>
    requires level { level < 5 }
    requires monic { IsMonic elements (polynomial denominator.now) }
    requires division { IsDivisionOf partial.numerator denominator.now division.now }
    requires denominator_within { AllWithin level denominator.now }
    requires quotient_within { AllWithin level division.now.0 }
    requires remainder_within { AllWithin level division.now.1 }
    requires sum_within { Within (level + 1) partial.sum }
    ensures rule { Agrees result (spec.with_division level partial denominator.now division.now) }
    ensures meaning { (tower : List Level) (f : Element) → IsNormal elements (level_derivation (monomials tower) level) (polynomial denominator.now) → IsReducedTo tower level (meaning f) (polynomial denominator.now) partial → IfOk result (IsHermiteReduction tower level f) }
    ensures within { IfOk result (λ it. Within (level + 1) it.g × Within (level + 1) it.h × Within (level + 1) it.rest) }
{
    let (quotient, remainder) = division;
    let h = Elem::quotient(alloc, level, remainder, denominator)?;
    let rest = of_polynomial(alloc, level, quotient)?;
    let _denominator_inner = denominator.inner();
    let _quotient_inner = quotient.inner();
    let _remainder_inner = remainder.inner();
    let _h_nest = h.nest();
    let _rest_nest = rest.nest();
    Ok(Hermite {
        g: partial.sum,
        h,
        rest,
    })
}

/// g, r/w and q for the numerator a = q·w + r.
fn finished(alloc: Global, level: u8, last: (Partial, Poly)) -> Result<Hermite, Fail>
    requires level { level < 5 }
    requires monic { IsMonic elements (polynomial last.1) }
    requires denominator_within { AllWithin level last.1 }
    requires numerator_within { AllWithin level last.0.numerator }
    requires sum_within { Within (level + 1) last.0.sum }
    ensures rule { Agrees result (spec.finished level last) }
    ensures meaning { (tower : List Level) (f : Element) → IsNormal elements (level_derivation (monomials tower) level) (polynomial last.1) → IsReducedTo tower level (meaning f) (polynomial last.1) last.0 → IfOk result (IsHermiteReduction tower level f) }
    ensures within { IfOk result (λ it. Within (level + 1) it.g × Within (level + 1) it.h × Within (level + 1) it.rest) }
{
    let (partial, denominator) = last;
    let division = partial.numerator.div_rem(alloc, &denominator)?;
    with_division(alloc, level, partial, &denominator, &division)
}

/// 0 and a, and n, of an element a/n of the level: the reduction a/n = D(0) + a/n to begin with.
///
/// `Err` for want of memory alone.
fn start(alloc: Global, level: u8, of: &Elem) -> Result<(Partial, Poly), AllocError>
    requires level { level < 5 }
    requires within { Within (level + 1) of.now }
    ensures rule { IfOk result (λ it. it ≡ spec.start level of.now) }
    ensures within { IfOk result (λ it. AllWithin level it.1 × AllWithin level it.0.numerator × Within (level + 1) it.0.sum) }
{
    let numerator = of.num_poly(alloc, level)?;
    let denominator = of.den_poly(alloc, level)?;
    let sum = Elem::zero();
    Ok((Partial { sum, numerator }, denominator))
}

/// The Hermite reduction, or what ends it.
pub(crate) fn reduction<U: Units>(
    alloc: Global,
    tower: &Tower,
    level: u8,
    normal: &Elem,
    units: &mut U,
) -> Result<Hermite, Ended>
    requires level { level ≤ length tower.now }
    requires within { Within (level + 1) normal.now }
    requires normal { HasNormalDivisors (level_derivation (monomials tower.now) level) (polynomial (denominator_at level normal.now)) }
    ensures rule { IsCountedResult result (spec.hermite tower.now level normal.now) (U.units units.old) (U.units units.new) (U.most units.old) }
    ensures meaning { IfOk result (λ it. IsHermiteReduction tower.now level normal.now it) }
    ensures within { IfOk result (λ it. Within (level + 1) it.g × Within (level + 1) it.h × Within (level + 1) it.rest) }
    ensures leaves { LeavesOf result (U.leaves units.old) (U.leaves units.new) }
    ensures same_most { U.most units.new ≡ U.most units.old }
    ensures same_kept { U.kept units.new ≡ U.kept units.old }
{
    level_of(tower, level);
    let _nest = normal.nest();
    let start = start(alloc, level, normal)?;
    let _denominator_inner = start.1.inner();
    let parts = square_free(alloc, &start.1)?;
    let last = with_parts(alloc, tower, level, parts.as_slice(), start, units)?;
    let reduced = finished(alloc, level, last)?;
    Ok(reduced)
}
