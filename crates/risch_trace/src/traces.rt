//! Remainders and traces modulo a monic polynomial over the elements.

ghost use Rattle.std.specs.Prelude.{◌≤◌};
ghost use Rattle.risch_field.specs.Checked.{Agrees};
ghost use Rattle.risch_trace.specs.Traces as spec;

use crate::elements::{push_copies, push_zeros};
use risch_division::div_rem;
use risch_elem::Elem;
use risch_field::{Arith, Fail};
use risch_polynomial::{MOST_DEGREE, Poly};
use std::alloc::Global;

/// t^i·p, for which nothing is formed.
///
/// Stops: Size where the degree is beyond its limit.
#[tactic(auto, unfolding(crate::specs::Traces::raised))]
pub fn raised(alloc: Global, power: usize, of: &Poly<Elem>) -> Result<Poly<Elem>, Fail>
    requires { power ≤ 256 }
    ensures { Agrees result (spec.raised power of.now) }
{
    if of.is_zero() {
        return Ok(Poly::zero(alloc));
    }
    if power + of.coefficients().len() > usize::from(MOST_DEGREE) + 1 {
        return Err(Fail::Size);
    }
    let mut coefficients = Vec::new(alloc);
    push_zeros(&mut coefficients, power)?;
    push_copies(alloc, &mut coefficients, of.coefficients())?;
    Ok(Poly::kept(coefficients, of.kept_weight()))
}

/// p rem d.
///
/// Stops: those of the division.
#[tactic(auto, using(risch_field::proofs::CheckedSteps::stop_passes, risch_field::proofs::CheckedSteps::value_passes), unfolding(crate::specs::Traces::remainder))]
pub fn remainder(alloc: Global, of: &Poly<Elem>, modulus: &Poly<Elem>) -> Result<Poly<Elem>, Fail>
    ensures { Agrees result (spec.remainder of.now modulus.now) }
{
    let (_, rest) = div_rem(alloc, of, modulus)?;
    Ok(rest)
}

/// The coefficient at i of (t^i·u) rem d.
#[tactic(auto, using(risch_field::proofs::CheckedSteps::stop_passes, risch_field::proofs::CheckedSteps::value_passes), unfolding(crate::specs::Traces::diagonal))]
fn diagonal(
    alloc: Global,
    modulus: &Poly<Elem>,
    of: &Poly<Elem>,
    power: usize,
) -> Result<Elem, Fail>
    requires { power ≤ 256 }
    ensures { Agrees result (spec.diagonal modulus.now of.now power) }
{
    let raised = raised(alloc, power, of)?;
    let rest = remainder(alloc, &raised, modulus)?;
    match rest.coefficients().get(power) {
        Some(coefficient) => Ok(coefficient.copy(alloc)?),
        None => Ok(Elem::zero()),
    }
}

/// The trace of u in the algebra modulo a monic polynomial d: the sum over i < deg d of the coefficient at i of (t^i·u) rem d.
///
/// Stops: that of the first value that cannot be formed.
#[tactic(auto, unfolding(crate::specs::Traces::trace))]
pub fn trace(alloc: Global, modulus: &Poly<Elem>, of: &Poly<Elem>) -> Result<Elem, Fail>
    ensures { Agrees result (spec.trace modulus.now of.now) }
{
    let mut total = Elem::zero();
    for i in 0..modulus.coefficients().len().saturating_sub(1) {
        let coefficient = diagonal(alloc, modulus, of, i)?;
        total = total.add(alloc, &coefficient)?;
    }
    Ok(total)
}
