//! The algebra of polynomials in z over the elements, modulo a monic polynomial R with rational coefficients.
//!
//! A member is a list of at most deg R elements, its coefficients from exponent 0; a shorter list stands for the one with zeros at the end.

ghost use Rattle.std.specs.Prelude.{◌≡◌, ◌≤◌, ◌++◌, ℕ, length, map, IfOk, IfSome, OnOk};
ghost use Rattle.risch_mean.specs.ElementPolynomials.{times_modulo, trace_modulo};
ghost use Rattle.risch_field.specs.Checked.{Agrees};
ghost use Rattle.risch_polynomial.specs.Poly as poly;
ghost use Rattle.risch_level.specs.Levels.{element};
ghost use Rattle.risch_polynomial_theory.specs.Meaning.{AllValid};
ghost use Rattle.risch_element_theory.specs.WholeTower.{IsElement, meaning, Within, AllWithin};
ghost use Rattle.risch_rootsum.specs.Algebra as spec;
ghost use Rattle.risch_rootsum.specs.Algebra.{IsModulus, IsMember};
ghost use Rattle.risch_rootsum.specs.AlgebraMeaning.{below, member, InverseMeans};

use risch_division::inverse_mod;
use risch_elem::{Elem, ElemList, FracList};
use risch_field::Fail;
use risch_frac::Frac;
use risch_polynomial::Poly;
use risch_trace::elements::{all_normal, push_copies, push_zeros};
use risch_trace::{remainder, trace as polynomial_trace};
use std::alloc::{AllocError, Global};

/// Appends the fractions as elements.
fn push_numbers(to: &mut Vec<Elem>, from: &[Frac]) -> Result<(), AllocError>
    ensures { OnOk result (to.new.items ≡ to.old.items ++ spec.modulus from.now) }
{
    for fraction in from {
        to.push(Elem::num(*fraction))?;
    }
    Ok(())
}

/// The polynomial with these coefficients from exponent 0; those at the end that are 0 are dropped.
#[tactic(auto, using(crate::proofs::AlgebraRules::trimmed_length))]
pub(crate) fn polynomial(alloc: Global, from: &[Elem]) -> Result<Poly<Elem>, AllocError>
    requires degree { length from.now ≤ 256 }
    requires weight { poly.weight element from.now ≤ 65536 }
    ensures { IfOk result (λ it. it ≡ poly.trimmed element from.now) }
{
    let mut coefficients = Vec::new(alloc);
    push_copies(alloc, &mut coefficients, from)?;
    Ok(Poly::trimmed(coefficients))
}

/// R over the elements.
#[tactic(auto, using(crate::proofs::AlgebraRules::moduli))]
pub(crate) fn modulus(alloc: Global, poly: &FracList) -> Result<Poly<Elem>, AllocError>
    requires { IsModulus poly.now }
    ensures value { IfOk result (λ it. it ≡ spec.modulus poly.now) }
    ensures normal { IfOk result (λ _. AllValid IsElement (spec.modulus poly.now)) }
{
    let mut coefficients = Vec::new(alloc);
    push_numbers(&mut coefficients, poly.as_slice())?;
    all_normal(&coefficients);
    Ok(Poly::trimmed(coefficients))
}

/// The coefficients, with zeros at the end up to that many members.
fn filled(of: Poly<Elem>, members: usize) -> Result<ElemList, AllocError>
    ensures { IfOk result (λ it. it ≡ spec.filled members of) }
{
    let mut coefficients = of.into_coefficients();
    let missing = members.saturating_sub(coefficients.len());
    push_zeros(&mut coefficients, missing)?;
    Ok(ElemList::from_vec(coefficients))
}

/// v with u·v = 1 in the algebra modulo R, with deg R members; `None` exactly where there is none.
///
/// Stops: those of the inverse modulo R.
#[tactic(auto, using(risch_field::proofs::CheckedSteps::stop_passes, risch_field::proofs::CheckedSteps::value_passes), unfolding(crate::specs::Algebra::inverse))]
pub fn inverse(alloc: Global, poly: &FracList, u: &ElemList) -> Result<Option<ElemList>, Fail>
    requires modulus { IsModulus poly.now }
    requires member { IsMember poly.now u.now }
    ensures rule { Agrees result (spec.inverse poly.now u.now) }
    ensures meaning { IfOk result (λ it. InverseMeans poly.now u.now it) }
    ensures members { IfOk result (λ it. IfSome it (λ inverse. length inverse ≡ spec.degree poly.now)) }
    ensures within { (n : ℕ) → AllWithin n u.now → IfOk result (λ it. IfSome it (λ inverse. AllWithin n inverse)) }
{
    all_normal(u.as_slice());
    let modulus = modulus(alloc, poly)?;
    let argument = polynomial(alloc, u.as_slice())?;
    match inverse_mod(alloc, &argument, &modulus)? {
        Some(inverse) => Ok(Some(filled(inverse, poly.len() - 1)?)),
        None => Ok(None),
    }
}

/// u·v in the algebra modulo R, with deg R members.
///
/// Stops: those of the product of the polynomials, and of its remainder.
#[tactic(auto, using(risch_field::proofs::CheckedSteps::stop_passes, risch_field::proofs::CheckedSteps::value_passes), unfolding(crate::specs::Algebra::product))]
pub fn product(alloc: Global, poly: &FracList, u: &ElemList, v: &ElemList) -> Result<ElemList, Fail>
    requires modulus { IsModulus poly.now }
    requires left { IsMember poly.now u.now }
    requires right { IsMember poly.now v.now }
    ensures rule { Agrees result (spec.product poly.now u.now v.now) }
    ensures meaning { IfOk result (λ it. map meaning it ≡ times_modulo (below poly.now) (member poly.now u.now) (member poly.now v.now)) }
    ensures members { IfOk result (λ it. length it ≡ spec.degree poly.now) }
    ensures within { (n : ℕ) → AllWithin n u.now → AllWithin n v.now → IfOk result (λ it. AllWithin n it) }
{
    all_normal(u.as_slice());
    all_normal(v.as_slice());
    let modulus = modulus(alloc, poly)?;
    let left = polynomial(alloc, u.as_slice())?;
    let right = polynomial(alloc, v.as_slice())?;
    let product = left.mul(alloc, &right)?;
    let rest = remainder(alloc, &product, &modulus)?;
    Ok(filled(rest, poly.len() - 1)?)
}

/// The trace of u in the algebra modulo R.
///
/// Stops: that of the first value that cannot be formed.
pub fn trace(alloc: Global, poly: &FracList, u: &ElemList) -> Result<Elem, Fail>
    requires modulus { IsModulus poly.now }
    requires member { IsMember poly.now u.now }
    ensures rule { Agrees result (spec.trace poly.now u.now) }
    ensures meaning { IfOk result (λ it. meaning it ≡ trace_modulo (below poly.now) (member poly.now u.now)) }
    ensures within { (n : ℕ) → AllWithin n u.now → IfOk result (λ it. Within n it) }
{
    all_normal(u.as_slice());
    let modulus = modulus(alloc, poly)?;
    let argument = polynomial(alloc, u.as_slice())?;
    polynomial_trace(alloc, &modulus, &argument)
}
