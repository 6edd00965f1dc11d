//! One step of the reduction: a/(u·v^(j + 1)) = D(b/v^j) + (-(j·c) - u·Db)/(u·v^j) for b·(u·Dv) + c·v = -a/j.

ghost use Rattle.std.specs.Prelude.{◌≡◌, ◌≤◌, ◌<◌, ◌+◌, ℕ, Some, length, IfOk};
ghost use Rattle.risch_ring.specs.CommRing as ring;
ghost use Rattle.risch_univariate.specs.PolynomialRing.{polynomials};
ghost use Rattle.risch_univariate.specs.Division.{IsCoprime};
ghost use Rattle.risch_univariate.specs.SplittingFactorization.{IsNormal};
ghost use Rattle.risch_mean.specs.Element as mean;
ghost use Rattle.risch_mean.specs.Element.{◌*ₑ◌};
ghost use Rattle.risch_mean.specs.ElementField.{elements};
ghost use Rattle.risch_field.specs.Checked.{Agrees, map_ok};
ghost use Rattle.risch_polynomial.specs.Poly as rules;
ghost use Rattle.risch_level.specs.Levels.{element};
ghost use Rattle.risch_element_theory.specs.WholeTower.{meaning, polynomial, Within, AllWithin};
ghost use Rattle.risch_element_theory.specs.ElementPolynomials.{◌+ₚ◌, ◌*ₚ◌, negative, multiple};
ghost use Rattle.risch_tower.specs.TowerMeaning.{monomials};
ghost use Rattle.risch_monomial.specs.LevelDerivation.{level_derivation};
ghost use Rattle.risch_hermite.specs.HermiteReduction as spec;
ghost use Rattle.risch_hermite.specs.HermiteMeaning.{IsNextSum, IsReducedTo, IsStepSolution};

use crate::partial::Partial;
use risch_elem::{Elem, Fail, Poly};
use risch_field::Arith;
use risch_frac::Frac;
use risch_monomial::{level_of, ratio};
use risch_tower::Tower;
use std::alloc::{AllocError, Global};

/// p^n, for n ≥ 1.
///
/// Stops: that of the first of the products p·p, p²·p, .. that cannot be formed.
pub(crate) fn power(alloc: Global, of: &Poly, exponent: u16) -> Result<Poly, Fail>
    requires { 1 ≤ exponent }
    ensures rule { Agrees result (spec.power of.now exponent) }
    ensures meaning { IfOk result (λ it. polynomial it ≡ ring.power (polynomials elements) (polynomial of.now) exponent) }
    ensures some { 0 < length of.now → IfOk result (λ it. 0 < length it) }
    ensures within { (n : ℕ) → AllWithin n of.now → IfOk result (λ it. AllWithin n it) }
{
    let mut power = of.copy(alloc)?;
    for _factor in 1..exponent {
        let next = power.mul(alloc, of)?;
        power = next;
    }
    let _of_inner = of.inner();
    let _power_inner = power.inner();
    Ok(power)
}

/// u·Dp.
#[tactic(auto, using(risch_field::proofs::CheckedSteps::stop_passes, risch_field::proofs::CheckedSteps::value_passes), unfolding(crate::specs::HermiteReduction::multiple_of_derivative))]
fn multiple_of_derivative(
    alloc: Global,
    tower: &Tower,
    level: u8,
    by: &Poly,
    of: &Poly,
) -> Result<Poly, Fail>
    requires level { level ≤ length tower.now }
    requires by_within { AllWithin level by.now }
    requires of_within { AllWithin level of.now }
    ensures rule { Agrees result (spec.multiple_of_derivative tower.now level by.now of.now) }
    ensures meaning { IfOk result (λ it. polynomial it ≡ polynomial by.now *ₚ (level_derivation (monomials tower.now) level).derive (polynomial of.now)) }
    ensures within { IfOk result (λ it. AllWithin level it) }
{
    level_of(tower, level);
    let _of_inner = of.inner();
    let derivative = tower.derive_poly(alloc, level, of)?;
    let _derivative_inner = derivative.inner();
    by.mul(alloc, &derivative)
}

/// g + b/v^j, for v other than 0 and j ≥ 1.
#[tactic(auto, using(risch_field::proofs::CheckedSteps::stop_passes, risch_field::proofs::CheckedSteps::value_passes), unfolding(crate::specs::HermiteReduction::next_sum))]
fn next_sum(
    alloc: Global,
    level: u8,
    part: &Poly,
    exponent: u16,
    sum: &Elem,
    top: &Poly,
) -> Result<Elem, Fail>
    requires level { level < 5 }
    requires some { 0 < length part.now }
    requires positive { 1 ≤ exponent }
    requires part_within { AllWithin level part.now }
    requires top_within { AllWithin level top.now }
    requires sum_within { Within (level + 1) sum.now }
    ensures rule { Agrees result (spec.next_sum level part.now exponent sum.now top.now) }
    ensures meaning { IfOk result (λ it. IsNextSum level (polynomial part.now) exponent sum.now it top.now) }
    ensures within { IfOk result (λ it. Within (level + 1) it) }
{
    let bottom = power(alloc, part, exponent)?;
    let piece = ratio(alloc, level, top, &bottom)?;
    sum.add(alloc, &piece)
}

/// j·p.
fn whole_multiple(alloc: Global, exponent: u16, of: &Poly) -> Result<Poly, Fail>
    ensures rule { Agrees result (rules.scaled element (element.whole exponent) of.now) }
    ensures meaning { IfOk result (λ it. polynomial it ≡ multiple (ring.of_nat elements.ring exponent) (polynomial of.now)) }
    ensures within { (n : ℕ) → AllWithin n of.now → IfOk result (λ it. AllWithin n it) }
{
    of.scale(alloc, &Elem::whole(exponent))
}

/// -p - q.
fn negative_sum(alloc: Global, left: &Poly, right: &Poly) -> Result<Poly, Fail>
    ensures rule { Agrees result (rules.sum element (rules.negatives element left.now) (rules.negatives element right.now)) }
    ensures meaning { IfOk result (λ it. polynomial it ≡ negative (polynomial left.now) +ₚ negative (polynomial right.now)) }
    ensures within { (n : ℕ) → AllWithin n left.now → AllWithin n right.now → IfOk result (λ it. AllWithin n it) }
{
    left.neg(alloc)?.add(alloc, &right.neg(alloc)?)
}

/// -(j·c) - u·Db.
#[tactic(auto, using(risch_field::proofs::CheckedSteps::stop_passes, risch_field::proofs::CheckedSteps::value_passes), unfolding(crate::specs::HermiteReduction::next_numerator))]
fn next_numerator(
    alloc: Global,
    tower: &Tower,
    level: u8,
    cofactor: &Poly,
    exponent: u16,
    top: &Poly,
    other: &Poly,
) -> Result<Poly, Fail>
    requires level { level ≤ length tower.now }
    requires cofactor_within { AllWithin level cofactor.now }
    requires top_within { AllWithin level top.now }
    requires other_within { AllWithin level other.now }
    ensures rule { Agrees result (spec.next_numerator tower.now level cofactor.now exponent top.now other.now) }
    ensures meaning { IfOk result (λ it. polynomial it ≡ negative (multiple (ring.of_nat elements.ring exponent) (polynomial other.now)) +ₚ negative (polynomial cofactor.now *ₚ (level_derivation (monomials tower.now) level).derive (polynomial top.now))) }
    ensures within { IfOk result (λ it. AllWithin level it) }
{
    let left = whole_multiple(alloc, exponent, other)?;
    let right = multiple_of_derivative(alloc, tower, level, cofactor, top)?;
    negative_sum(alloc, &left, &right)
}

/// -1/j, for j ≥ 1.
fn negative_inverse(exponent: u16) -> Elem
    requires { 1 ≤ exponent }
    ensures value { result ≡ spec.negative_inverse exponent }
    ensures meaning { meaning result *ₑ ring.of_nat elements.ring exponent ≡ mean.neg mean.one }
    ensures within { (n : ℕ) → Within n result }
{
    let inverse = Frac::new(-1, i128::from(exponent));
    Elem::num(inverse)
}

/// b and c with b·(u·Dv) + c·v = -a/j, for coprime u and v, v normal and of degree at least 1.
#[tactic(auto, using(risch_field::proofs::CheckedSteps::stop_passes, risch_field::proofs::CheckedSteps::value_passes), unfolding(crate::specs::HermiteReduction::solution))]
fn solution(
    alloc: Global,
    tower: &Tower,
    level: u8,
    part: &Poly,
    cofactor: &Poly,
    exponent: u16,
    numerator: &Poly,
) -> Result<(Poly, Poly), Fail>
    requires level { level ≤ length tower.now }
    requires part_within { AllWithin level part.now }
    requires cofactor_within { AllWithin level cofactor.now }
    requires numerator_within { AllWithin level numerator.now }
    requires degree { 2 ≤ length part.now }
    requires positive { 1 ≤ exponent }
    requires normal { IsNormal elements (level_derivation (monomials tower.now) level) (polynomial part.now) }
    requires coprime { IsCoprime elements (polynomial part.now) (polynomial cofactor.now) }
    ensures rule { Agrees (map_ok Some result) (spec.solution tower.now level cofactor.now part.now exponent numerator.now) }
    ensures meaning { IfOk result (λ it. IsStepSolution tower.now level (polynomial cofactor.now) (polynomial part.now) exponent (polynomial numerator.now) (polynomial it.0) (polynomial it.1)) }
    ensures within { IfOk result (λ it. AllWithin level it.0 × AllWithin level it.1) }
{
    let middle = multiple_of_derivative(alloc, tower, level, cofactor, part)?;
    let factor = negative_inverse(exponent);
    let right = numerator.scale(alloc, &factor)?;
    Poly::solve_mod(alloc, part, &middle, &right)
}

/// The step at j with its solution: g + b/v^j and -(j·c) - u·Db in the place of g and a, for b·(u·Dv) + c·v = -a/j.
#[tactic(auto, using(risch_field::proofs::CheckedSteps::stop_passes, risch_field::proofs::CheckedSteps::value_passes))]
fn step_by(
    alloc: Global,
    tower: &Tower,
    level: u8,
    part: &Poly,
    cofactor: &Poly,
    exponent: u16,
    partial: &Partial,
    solution: &(Poly, Poly),
) -> Result<Partial, Fail>
    requires level { level ≤ length tower.now }
    requires part_within { AllWithin level part.now }
    requires cofactor_within { AllWithin level cofactor.now }
    requires degree { 2 ≤ length part.now }
    requires positive { 1 ≤ exponent }
    requires solves { IsStepSolution tower.now level (polynomial cofactor.now) (polynomial part.now) exponent (polynomial partial.now.numerator) (polynomial solution.now.0) (polynomial solution.now.1) }
    requires top_within { AllWithin level solution.now.0 }
    requires other_within { AllWithin level solution.now.1 }
    requires sum_within { Within (level + 1) partial.now.sum }
    ensures rule { Agrees result (spec.step_by tower.now level cofactor.now part.now exponent partial.now (Some solution.now)) }
    ensures meaning { (f : mean.Element) → IsReducedTo tower.now level f (polynomial cofactor.now *ₚ ring.power (polynomials elements) (polynomial part.now) (exponent + 1)) partial.now → IfOk result (IsReducedTo tower.now level f (polynomial cofactor.now *ₚ ring.power (polynomials elements) (polynomial part.now) exponent)) }
    ensures within { IfOk result (λ it. AllWithin level it.numerator × Within (level + 1) it.sum) }
{
    level_of(tower, level);
    let _part_inner = part.inner();
    let (top, other) = solution;
    let sum = next_sum(alloc, level, part, exponent, &partial.sum, top)?;
    let numerator = next_numerator(alloc, tower, level, cofactor, exponent, top, other)?;
    Ok(Partial { sum, numerator })
}

/// The step at j: a/(u·v^(j + 1)) becomes the derivative of b/v^j and a numerator over u·v^j.
pub(crate) fn step(
    alloc: Global,
    tower: &Tower,
    level: u8,
    part: &Poly,
    cofactor: &Poly,
    exponent: u16,
    partial: Partial,
) -> Result<Partial, Fail>
    requires level { level ≤ length tower.now }
    requires part_within { AllWithin level part.now }
    requires cofactor_within { AllWithin level cofactor.now }
    requires degree { 2 ≤ length part.now }
    requires positive { 1 ≤ exponent }
    requires normal { IsNormal elements (level_derivation (monomials tower.now) level) (polynomial part.now) }
    requires coprime { IsCoprime elements (polynomial part.now) (polynomial cofactor.now) }
    requires numerator_within { AllWithin level partial.numerator }
    requires sum_within { Within (level + 1) partial.sum }
    ensures rule { Agrees result (spec.step tower.now level cofactor.now part.now exponent partial) }
    ensures meaning { (f : mean.Element) → IsReducedTo tower.now level f (polynomial cofactor.now *ₚ ring.power (polynomials elements) (polynomial part.now) (exponent + 1)) partial → IfOk result (IsReducedTo tower.now level f (polynomial cofactor.now *ₚ ring.power (polynomials elements) (polynomial part.now) exponent)) }
    ensures within { IfOk result (λ it. AllWithin level it.numerator × Within (level + 1) it.sum) }
{
    let solution = solution(
        alloc,
        tower,
        level,
        part,
        cofactor,
        exponent,
        &partial.numerator,
    )?;
    step_by(
        alloc, tower, level, part, cofactor, exponent, &partial, &solution,
    )
}
