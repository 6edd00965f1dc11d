//! The splitting factorization of a polynomial into its normal and its special part.

ghost use Rattle.std.specs.Prelude.{◌≡◌, ◌≤◌, ◌<◌, ◌+◌, ℕ, length, Ok, IfOk};
ghost use Rattle.risch_univariate.specs.Degree.{IsMonic};
ghost use Rattle.risch_univariate.specs.Division.{Divides};
ghost use Rattle.risch_mean.specs.ElementField.{elements};
ghost use Rattle.risch_field.specs.Checked.{Agrees};
ghost use Rattle.risch_polynomial.specs.Poly as rules;
ghost use Rattle.risch_level.specs.Levels.{element};
ghost use Rattle.risch_element_theory.specs.WholeTower.{IsPolynomial, polynomial, AllWithin};
ghost use Rattle.risch_element_theory.specs.ElementPolynomials.{◌*ₚ◌};
ghost use Rattle.risch_monomial.specs.LevelElements as level_elements;
ghost use Rattle.risch_run.specs.Ruled.{IsResult, IfErrNotSound};
ghost use Rattle.risch_split.specs.Splitting as spec;
ghost use Rattle.risch_split.specs.SplittingMeaning.{IsSplitting, IsNewConstant};
ghost use Rattle.risch_split.specs.SplittingSteps.{IsGcdWithDerivative, IsGcdWithPartial, IsStep, AreParts};

use crate::special::new_constant;
use risch_elem::{Fail, Poly, Stop};
use risch_monomial::{level_of, one};
use risch_run::Ended;
use risch_tower::Tower;
use std::alloc::{AllocError, Global};

/// A monic polynomial as the product of its normal and its special part.
#[derive(Drop)]
pub struct Split {
    pub normal: Poly,
    pub special: Poly,
}

impl Split {
    /// The parts once more.
    ///
    /// `Err` for want of memory alone.
    pub fn copy(&self, alloc: Global) -> Result<Split, AllocError>
        ensures { IfOk result (λ copy. copy ≡ self.now) }
    {
        Ok(Split {
            normal: self.normal.copy(alloc)?,
            special: self.special.copy(alloc)?,
        })
    }
}

/// gcd(d, Dd).
#[tactic(auto, using(risch_field::proofs::CheckedSteps::stop_passes, risch_field::proofs::CheckedSteps::value_passes))]
fn gcd_with_derivative(alloc: Global, tower: &Tower, level: u8, poly: &Poly) -> Result<Poly, Fail>
    requires level { level ≤ length tower.now }
    requires within { AllWithin level poly.now }
    requires monic { IsMonic elements (polynomial poly.now) }
    ensures rule { Agrees result (spec.gcd_with_derivative tower.now level poly.now) }
    ensures meaning { IfOk result (λ it. IsGcdWithDerivative tower.now level poly.now it) }
    ensures within { IfOk result (λ it. AllWithin level it) }
{
    level_of(tower, level);
    let _inner = poly.inner();
    let derivative = tower.derive_poly(alloc, level, poly)?;
    let _derivative_inner = derivative.inner();
    poly.gcd(alloc, &derivative)
}

/// gcd(d, ∂d).
#[tactic(auto, using(risch_field::proofs::CheckedSteps::stop_passes, risch_field::proofs::CheckedSteps::value_passes))]
fn gcd_with_partial(alloc: Global, poly: &Poly) -> Result<Poly, Fail>
    requires { IsMonic elements (polynomial poly.now) }
    ensures rule { Agrees result (spec.gcd_with_partial poly.now) }
    ensures meaning { IfOk result (λ it. IsGcdWithPartial poly.now it) }
    ensures within { (n : ℕ) → AllWithin n poly.now → IfOk result (λ it. AllWithin n it) }
{
    let partial = poly.partial(alloc)?;
    poly.gcd(alloc, &partial)
}

/// a quo b, for a monic divisor b of a.
#[tactic(auto, using(risch_field::proofs::CheckedSteps::stop_passes, risch_field::proofs::CheckedSteps::value_passes), unfolding(risch_polynomial::specs::Poly::quo))]
fn exact_quotient(alloc: Global, of: &Poly, by: &Poly) -> Result<Poly, Fail>
    requires monic { IsMonic elements (polynomial by.now) }
    requires divides { Divides elements (polynomial by.now) (polynomial of.now) }
    ensures rule { Agrees result (rules.quo element of.now by.now) }
    ensures meaning { IfOk result (λ it. polynomial of.now ≡ polynomial it *ₚ polynomial by.now) }
    ensures normal { IfOk result (λ it. IsPolynomial it) }
    ensures within { (n : ℕ) → AllWithin n of.now → AllWithin n by.now → IfOk result (λ it. AllWithin n it) }
{
    let (quotient, _rest) = of.div_rem(alloc, by)?;
    let _inner = quotient.inner();
    Ok(quotient)
}

/// S = gcd(d, Dd) quo gcd(d, ∂d), the product of the special irreducible factors of d, each once.
#[tactic(auto, using(risch_field::proofs::CheckedSteps::stop_passes, risch_field::proofs::CheckedSteps::value_passes), unfolding(crate::specs::Splitting::special_factor))]
fn special_factor(alloc: Global, tower: &Tower, level: u8, poly: &Poly) -> Result<Poly, Fail>
    requires level { level ≤ length tower.now }
    requires within { AllWithin level poly.now }
    requires monic { IsMonic elements (polynomial poly.now) }
    ensures rule { Agrees result (spec.special_factor tower.now level poly.now) }
    ensures meaning { IfOk result (λ it. IsStep tower.now level poly.now it) }
    ensures normal { IfOk result (λ it. IsPolynomial it) }
    ensures within { IfOk result (λ it. AllWithin level it) }
{
    let with_derivative = gcd_with_derivative(alloc, tower, level, poly)?;
    let with_partial = gcd_with_partial(alloc, poly)?;
    exact_quotient(alloc, &with_derivative, &with_partial)
}

/// d and 1, the parts of a polynomial d without special factors.
fn normal_alone(alloc: Global, poly: &Poly) -> Result<Split, Fail>
    ensures { Agrees result (Ok (record { normal = poly.now; special = level_elements.one })) }
{
    let normal = poly.copy(alloc)?;
    let special = one(alloc)?;
    Ok(Split { normal, special })
}

/// S·s in the place of the special part s.
#[tactic(auto, using(risch_field::proofs::CheckedSteps::stop_passes, risch_field::proofs::CheckedSteps::value_passes))]
fn with_factor(alloc: Global, factor: &Poly, split: Split) -> Result<Split, Fail>
    ensures rule { Agrees result (spec.with_factor factor.now split) }
    ensures meaning { IfOk result (λ it. (it.normal ≡ split.normal) × (polynomial it.special ≡ polynomial factor.now *ₚ polynomial split.special)) }
    ensures within { (n : ℕ) → AllWithin n factor.now → AllWithin n split.normal → AllWithin n split.special → IfOk result (λ it. AllWithin n it.normal × AllWithin n it.special) }
{
    let special = factor.mul(alloc, &split.special)?;
    Ok(Split {
        normal: split.normal,
        special,
    })
}

/// The normal and the special part of d.
fn parts(alloc: Global, tower: &Tower, level: u8, poly: &Poly) -> Result<Split, Fail>
    requires level { level ≤ length tower.now }
    requires within { AllWithin level poly.now }
    requires monic { IsMonic elements (polynomial poly.now) }
    ensures rule { (steps : ℕ) → length poly.now ≤ steps → Agrees result (spec.parts_in tower.now level steps poly.now) }
    ensures meaning { IfOk result (λ it. AreParts tower.now level poly.now it) }
    ensures within { IfOk result (λ it. AllWithin level it.normal × AllWithin level it.special) }
{
    let _inner = poly.inner();
    let factor = special_factor(alloc, tower, level, poly)?;
    if factor.is_one() {
        return normal_alone(alloc, poly);
    }
    let rest = exact_quotient(alloc, poly, &factor)?;
    let split = parts(alloc, tower, level, &rest)?;
    with_factor(alloc, &factor, split)
}

/// The splitting factorization, or what ends it.
#[tactic(auto, using(risch_run::proofs::RuledSteps::steps), unfolding(crate::specs::Splitting::splitting))]
pub(crate) fn splitting(
    alloc: Global,
    tower: &Tower,
    level: u8,
    poly: &Poly,
) -> Result<Split, Ended>
    requires level { level ≤ length tower.now }
    requires within { AllWithin level poly.now }
    requires monic { IsMonic elements (polynomial poly.now) }
    ensures rule { IsResult result (spec.splitting tower.now level poly.now) }
    ensures meaning { IfOk result (λ it. IsSplitting tower.now level poly.now it) }
    ensures not_sound { IfErrNotSound result (IsNewConstant tower.now level) }
    ensures within { IfOk result (λ it. AllWithin level it.normal × AllWithin level it.special) }
{
    let split = parts(alloc, tower, level, poly)?;
    let constant = new_constant(alloc, tower, level, &split.special)?;
    match constant {
        None => Ok(split),
        Some(constant) => Err(Ended::Stopped(Stop::NotSound(constant))),
    }
}
