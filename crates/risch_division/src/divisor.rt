//! The monic common divisor of polynomials, by Euclid's remainders.

ghost use Rattle.std.specs.Prelude.{◌+◌, length};
ghost use Rattle.risch_field.specs.Checked.{Agrees};
ghost use Rattle.risch_polynomial.specs.Poly as poly;

use crate::division::div_rem;
use risch_field::{Arith, Fail};
use risch_polynomial::Poly;
use std::alloc::Global;

/// monic(a rem b).
#[tactic(auto, using(risch_field::proofs::CheckedSteps::stop_passes, risch_field::proofs::CheckedSteps::value_passes), unfolding(risch_polynomial::specs::Poly::monic_remainder))]
fn monic_remainder<E: Arith>(alloc: Global, left: &Poly<E>, by: &Poly<E>) -> Result<Poly<E>, Fail>
    ensures { Agrees result (poly.monic_remainder E.ops left.now by.now) }
{
    let (_, rest) = div_rem(alloc, left, by)?;
    rest.monic(alloc)
}

/// The last of a, b, monic(a rem b), .. that is not 0.
#[tactic(auto, using(crate::proofs::DivisionSteps::remainders_done, crate::proofs::DivisionSteps::remainders_more, crate::proofs::DivisionSteps::remainders_stop))]
fn last_remainder<E: Arith>(alloc: Global, left: Poly<E>, right: Poly<E>) -> Result<Poly<E>, Fail>
    ensures { Agrees result (poly.remainders E.ops (length right + 1) left right) }
{
    let mut left = left;
    let mut right = right;
    for _step in 0..right.coefficients().len() + 1 {
        if right.is_zero() {
            return Ok(left);
        }
        let next = monic_remainder(alloc, &left, &right)?;
        left = right;
        right = next;
    }
    Ok(left)
}

/// The monic common divisor of p and q, not both 0, by Euclid's remainders, each made monic.
///
/// Where p or q is a constant other than 0 it is 1 and no remainder is formed. Stops: those of the divisions.
#[tactic(auto, using(risch_field::proofs::CheckedSteps::stop_passes, risch_field::proofs::CheckedSteps::value_passes), unfolding(risch_polynomial::specs::Poly::gcd))]
pub fn gcd<E: Arith>(alloc: Global, left: &Poly<E>, right: &Poly<E>) -> Result<Poly<E>, Fail>
    ensures { Agrees result (poly.gcd E.ops left.now right.now) }
{
    if right.is_zero() {
        return left.monic(alloc);
    }
    if left.is_zero() {
        return right.monic(alloc);
    }
    let left = left.monic(alloc)?;
    let right = right.monic(alloc)?;
    if left.is_one() || right.is_one() {
        return Ok(Poly::one(alloc)?);
    }
    last_remainder(alloc, left, right)
}
