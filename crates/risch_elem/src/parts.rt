//! Numerators, denominators and quotients of elements at a level of the tower.

ghost use Rattle.std.specs.Prelude.{◌≡◌, ◌++◌, ◌+◌, ◌-◌, ◌<◌, length, IfOk, OnOk};
ghost use Rattle.risch_mean.specs.Element.{one, variable, ◌/ₑ◌};
ghost use Rattle.risch_field.specs.Checked.{Agrees};
ghost use Rattle.risch_polynomial.specs.Poly as poly;
ghost use Rattle.risch_polynomial_theory.specs.Meaning.{AllValid};
ghost use Rattle.risch_level.specs.Levels.{element};
ghost use Rattle.risch_level.specs.Parts.{levels, denominator};
ghost use Rattle.risch_element_theory.specs.WholeTower.{IsElement, IsPolynomial, meaning, value_of, Within, AllWithin};

use crate::elem::Elem;
use crate::polynomial::Poly;
use risch_field::{Arith, Fail};
use risch_nest::Nest;
use std::alloc::{AllocError, Global};

/// Appends p_0, p_1, .. as elements of the tower.
#[tactic(auto, using(risch_element_theory::proofs::PartsRules::items))]
fn push_wrapped(to: &mut Vec<Elem>, from: Vec<Nest>) -> Result<(), AllocError>
    requires { AllValid IsElement from.items }
    ensures { OnOk result (to.new.items ≡ to.old.items ++ from.items) }
{
    for nest in from {
        to.push(Elem::of(nest))?;
    }
    Ok(())
}

/// The same polynomial over the elements of the tower.
#[tactic(auto, using(risch_element_theory::proofs::PartsRules::items))]
pub(crate) fn wrapped(alloc: Global, from: risch_polynomial::Poly<Nest>) -> Result<Poly, AllocError>
    requires { IsPolynomial from }
    ensures { IfOk result (λ it. it ≡ from) }
{
    let weight = from.kept_weight();
    let mut coefficients = Vec::new(alloc);
    push_wrapped(&mut coefficients, from.into_coefficients())?;
    let inner = risch_polynomial::Poly::kept(coefficients, weight);
    Ok(Poly::kept(inner))
}

/// Appends p_0, p_1, .. as elements of the field of five levels.
fn push_unwrapped(alloc: Global, to: &mut Vec<Nest>, from: &[Elem]) -> Result<(), AllocError>
    ensures { OnOk result (to.new.items ≡ to.old.items ++ from.now) }
{
    for item in from {
        let copy = item.nest().copy(alloc)?;
        to.push(copy)?;
    }
    Ok(())
}

/// The same polynomial over the field of five levels.
pub(crate) fn unwrapped(
    alloc: Global,
    from: &Poly,
) -> Result<risch_polynomial::Poly<Nest>, AllocError>
    ensures value { IfOk result (λ it. it ≡ from.now) }
    ensures normal { IsPolynomial from.now }
{
    let weight = from.inner.kept_weight();
    let mut coefficients = Vec::new(alloc);
    push_unwrapped(alloc, &mut coefficients, from.inner.coefficients())?;
    Ok(risch_polynomial::Poly::kept(coefficients, weight))
}

impl Elem {
    /// The numerator at a level, over the elements below it; 0 for an element above the level.
    ///
    /// `Err` for want of memory alone.
    pub fn num_poly(&self, alloc: Global, level: u8) -> Result<Poly, AllocError>
        requires { level < 5 }
        ensures rule { IfOk result (λ it. it ≡ (levels 5).numerator (4 - level) self.now) }
        ensures meaning { Within (level + 1) self.now → IfOk result (λ it. meaning self.now ≡ value_of it (variable level) /ₑ value_of (denominator 5 (4 - level) self.now) (variable level)) }
        ensures within { Within (level + 1) self.now → IfOk result (λ it. AllWithin level it) }
    {
        let numerator = self.inner.numerator(alloc, level)?;
        wrapped(alloc, numerator)
    }

    /// The denominator at a level, over the elements below it, which is monic; 1 for an element above the level.
    ///
    /// `Err` for want of memory alone.
    pub fn den_poly(&self, alloc: Global, level: u8) -> Result<Poly, AllocError>
        requires { level < 5 }
        ensures rule { IfOk result (λ it. it ≡ denominator 5 (4 - level) self.now) }
        ensures some { IfOk result (λ it. 0 < length it) }
        ensures monic { IfOk result (λ it. meaning (poly.last element it) ≡ one) }
        ensures meaning { Within (level + 1) self.now → IfOk result (λ it. meaning self.now ≡ value_of ((levels 5).numerator (4 - level) self.now) (variable level) /ₑ value_of it (variable level)) }
        ensures within { Within (level + 1) self.now → IfOk result (λ it. AllWithin level it) }
    {
        let denominator = self.inner.denominator(alloc, level)?;
        wrapped(alloc, denominator)
    }

    /// n/m at a level in normal form, for n and m over the elements below it and m other than 0.
    ///
    /// Stops: those of the normal form.
    #[tactic(auto, using(risch_element_theory::proofs::PartsRules::quotients))]
    pub fn quotient(alloc: Global, level: u8, num: &Poly, den: &Poly) -> Result<Elem, Fail>
        requires level { level < 5 }
        requires some { 0 < length den.now }
        requires num_within { AllWithin level num.now }
        requires den_within { AllWithin level den.now }
        ensures rule { Agrees result ((levels 5).quotient (4 - level) num.now den.now) }
        ensures meaning { IfOk result (λ it. meaning it ≡ value_of num.now (variable level) /ₑ value_of den.now (variable level)) }
        ensures within { IfOk result (λ it. Within (level + 1) it) }
    {
        let num = unwrapped(alloc, num)?;
        let den = unwrapped(alloc, den)?;
        let inner = Nest::quotient(alloc, level, num, den)?;
        Ok(Elem::of(inner))
    }
}
