//! Quotient and remainder of polynomials.

ghost use Rattle.risch_field.specs.Checked.{Agrees};
ghost use Rattle.risch_polynomial.specs.Poly as poly;

use crate::steps::divide;
use risch_field::{Arith, Fail};
use risch_polynomial::Poly;
use risch_polynomial::coefficients::{push_copies, zeros};
use std::alloc::Global;

/// Quotient and remainder of p by q: p = quotient·q + remainder, where the remainder is 0 or of smaller degree than q.
///
/// For q = 0 they are 0 and p. Stops: that of 1/lc(q) or of the first coefficient that cannot be formed; Size where a weight is
/// beyond its limit at the end.
#[tactic(auto, using(risch_field::proofs::CheckedSteps::stop_passes, risch_field::proofs::CheckedSteps::value_passes), unfolding(risch_polynomial::specs::Poly::division))]
pub fn div_rem<E: Arith>(
    alloc: Global,
    of: &Poly<E>,
    by: &Poly<E>,
) -> Result<(Poly<E>, Poly<E>), Fail>
    ensures { Agrees result (poly.division E.ops of.now by.now) }
{
    if by.is_zero() {
        return Ok((Poly::zero(alloc), of.copy(alloc)?));
    }
    let left = of.coefficients();
    let right = by.coefficients();
    let inverse = by.inverse_of_last(alloc)?;
    let mut quotient = zeros(alloc, (left.len() + 1).saturating_sub(right.len()))?;
    let mut rest = Vec::new(alloc);
    push_copies(alloc, &mut rest, left)?;
    divide(alloc, &mut quotient, &mut rest, &inverse, right)?;
    let quotient = Poly::from_coefficients(quotient)?;
    let rest = Poly::from_coefficients(rest)?;
    Ok((quotient, rest))
}

/// The quotient of p by q.
#[tactic(auto, using(risch_field::proofs::CheckedSteps::stop_passes, risch_field::proofs::CheckedSteps::value_passes), unfolding(risch_polynomial::specs::Poly::quo))]
pub fn quo<E: Arith>(alloc: Global, of: &Poly<E>, by: &Poly<E>) -> Result<Poly<E>, Fail>
    ensures { Agrees result (poly.quo E.ops of.now by.now) }
{
    let (quotient, _) = div_rem(alloc, of, by)?;
    Ok(quotient)
}
