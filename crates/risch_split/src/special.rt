//! The test of a special part: in a sound tower it is 1 at a logarithm and at x, and a power of the variable at an exponential.

ghost use Rattle.std.specs.Prelude.{◌≡◌, ◌≤◌, ◌<◌, ◌+◌, ℕ, length, IfOk, IsFalse, MatchOption};
ghost use Rattle.risch_univariate.specs.Degree.{IsMonic};
ghost use Rattle.risch_univariate.specs.SplittingFactorization.{IsSpecial};
ghost use Rattle.risch_mean.specs.ElementField.{elements};
ghost use Rattle.risch_field.specs.Checked.{Agrees};
ghost use Rattle.risch_polynomial.specs.Poly as rules;
ghost use Rattle.risch_level.specs.Levels.{element};
ghost use Rattle.risch_element_theory.specs.WholeTower.{polynomial, Within, AllWithin};
ghost use Rattle.risch_tower.specs.Tower.{rate_at};
ghost use Rattle.risch_tower.specs.TowerMeaning.{monomials};
ghost use Rattle.risch_split.specs.Splitting as spec;
ghost use Rattle.risch_monomial.specs.LevelDerivation.{level_derivation};
ghost use Rattle.risch_monomial.specs.NormalPolynomials.{IsSpecialAt};
ghost use Rattle.risch_split.specs.SplittingMeaning.{IsNewConstant};

use risch_elem::{Elem, Fail, Items, Poly};
use risch_field::Arith;
use risch_monomial::{level_of, of_polynomial};
use risch_tower::{Kind, Tower};
use std::alloc::{AllocError, Global};

/// t^e.
fn power_of_variable(alloc: Global, exponent: u16) -> Result<Poly, Fail>
    ensures rule { Agrees result (rules.monomial element element.one exponent) }
    ensures some { IfOk result (λ it. 0 < length it) }
    ensures within { (n : ℕ) → IfOk result (λ it. AllWithin n it) }
{
    let inner = risch_polynomial::Poly::monomial(alloc, Elem::one(), exponent)?;
    Ok(Poly::kept(inner))
}

/// The least exponent with a coefficient other than 0.
pub(crate) fn least_exponent(poly: &Poly) -> usize
    ensures value { result ≡ spec.least_exponent poly.now }
    ensures small { result ≤ length poly.now }
    ensures few { length poly.now ≤ 256 }
{
    let coefficients = poly.inner().coefficients();
    for (exponent, coefficient) in coefficients.iter().enumerate() {
        if !coefficient.is_zero() {
            return exponent;
        }
    }
    coefficients.len()
}

/// s' for s = t^e·s', where t does not divide s'.
fn without_variable(alloc: Global, special: &Poly) -> Result<Poly, AllocError>
    ensures { IfOk result (λ it. it ≡ spec.without_variable special.now) }
{
    let exponent = least_exponent(special);
    let _weight = special.weight();
    let mut lower = special.inner().copy(alloc)?.into_coefficients();
    let rest = lower.split_off(exponent)?;
    Poly::of(Items::from_vec(rest))
}

/// s'/t^(deg s'), for s' other than 0.
#[tactic(auto, using(risch_field::proofs::CheckedSteps::stop_passes, risch_field::proofs::CheckedSteps::value_passes), unfolding(crate::specs::Splitting::by_power_of_variable))]
fn by_power_of_variable(alloc: Global, level: u8, poly: &Poly) -> Result<Elem, Fail>
    requires level { level < 5 }
    requires within { AllWithin level poly.now }
    ensures { Agrees result (spec.by_power_of_variable level poly.now) }
{
    let top = of_polynomial(alloc, level, poly)?;
    let exponent = poly.inner().coefficients().len().saturating_sub(1) as u16;
    let power = power_of_variable(alloc, exponent)?;
    let bottom = of_polynomial(alloc, level, &power)?;
    top.div(alloc, &bottom)
}

/// A new constant that the special part s tells where Dt = η: s itself, unless it is 1.
fn primitive_constant(alloc: Global, level: u8, special: &Poly) -> Result<Option<Elem>, Fail>
    requires level { level < 5 }
    requires within { AllWithin level special.now }
    ensures { Agrees result (spec.primitive_constant level special.now) }
{
    if special.is_one() {
        return Ok(None);
    }
    let constant = of_polynomial(alloc, level, special)?;
    Ok(Some(constant))
}

/// A new constant that the special part s tells where Dt = η·t: s'/t^(deg s') for s = t^e·s', unless s' is 1.
fn exponential_constant(alloc: Global, level: u8, special: &Poly) -> Result<Option<Elem>, Fail>
    requires level { level < 5 }
    requires within { AllWithin level special.now }
    ensures { Agrees result (spec.exponential_constant level (spec.without_variable special.now)) }
{
    let rest = without_variable(alloc, special)?;
    if rest.is_one() {
        return Ok(None);
    }
    let constant = by_power_of_variable(alloc, level, &rest)?;
    Ok(Some(constant))
}

/// A new constant of the tower that the special part of a splitting tells.
pub(crate) fn new_constant(
    alloc: Global,
    tower: &Tower,
    level: u8,
    special: &Poly,
) -> Result<Option<Elem>, Fail>
    requires level { level ≤ length tower.now }
    requires within { AllWithin level special.now }
    requires monic { IsMonic elements (polynomial special.now) }
    requires special { IsSpecial elements (level_derivation (monomials tower.now) level) (polynomial special.now) }
    ensures rule { Agrees result (spec.new_constant level ((rate_at tower.now level).kind) special.now) }
    ensures meaning { IfOk result (λ it. MatchOption it (IsSpecialAt ((rate_at tower.now level).kind) (polynomial special.now)) (IsNewConstant tower.now level)) }
{
    level_of(tower, level);
    let _inner = special.inner();
    match tower.kind(level) {
        Kind::Primitive => primitive_constant(alloc, level, special),
        Kind::Exponential => exponential_constant(alloc, level, special),
    }
}
