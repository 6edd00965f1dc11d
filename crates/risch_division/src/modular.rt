//! Inverses modulo a polynomial, and the solution of b·r + a·z = c, by Euclid's remainders with one coefficient
//! (Bronstein, Symbolic Integration I, section 1.3).

ghost use Rattle.std.specs.Prelude.{[], length};
ghost use Rattle.risch_field.specs.Checked.{Agrees};
ghost use Rattle.risch_polynomial.specs.Modular as modular;

use crate::division::{div_rem, quo};
use risch_field::{Arith, Fail};
use risch_polynomial::Poly;
use std::alloc::Global;

/// p - q·m.
#[tactic(auto, using(risch_field::proofs::CheckedSteps::stop_passes, risch_field::proofs::CheckedSteps::value_passes), unfolding(risch_polynomial::specs::Modular::less_product))]
fn less_product<E: Arith>(
    alloc: Global,
    from: &Poly<E>,
    left: &Poly<E>,
    right: &Poly<E>,
) -> Result<Poly<E>, Fail>
    ensures { Agrees result (modular.less_product E.ops from.now left.now right.now) }
{
    let product = left.mul(alloc, right)?;
    let negative = product.neg(alloc)?;
    from.add(alloc, &negative)
}

/// s/r for a constant r other than 0, the last remainder with its coefficient s.
#[tactic(auto, using(risch_field::proofs::CheckedSteps::stop_passes, risch_field::proofs::CheckedSteps::value_passes))]
fn last_inverse<E: Arith>(
    alloc: Global,
    rest: &Poly<E>,
    factor: &Poly<E>,
) -> Result<Option<Poly<E>>, Fail>
    ensures { Agrees result (modular.inverse_from E.ops 0 [] [] rest.now factor.now) }
{
    match rest.coefficients() {
        [constant] => {
            let one = E::one();
            let inverse = one.div(alloc, constant)?;
            let scaled = factor.scale(alloc, &inverse)?;
            Ok(Some(scaled))
        }
        _ => Ok(None),
    }
}

/// The last remainder of r', r, r' rem r, .. with its coefficient, where each division r' = q·r + r'' goes with the coefficient s' - q·s:
/// the inverse that it gives.
#[tactic(auto, using(crate::proofs::ModularSteps::inverse_done, crate::proofs::ModularSteps::inverse_stops, crate::proofs::ModularSteps::inverse_factor_stops))]
fn inverse_from<E: Arith>(
    alloc: Global,
    above: Poly<E>,
    above_factor: Poly<E>,
    rest: Poly<E>,
    factor: Poly<E>,
) -> Result<Option<Poly<E>>, Fail>
    ensures { Agrees result (modular.inverse_from E.ops (length above) above above_factor rest factor) }
{
    let mut above = above;
    let mut above_factor = above_factor;
    let mut rest = rest;
    let mut factor = factor;
    for _step in 0..above.coefficients().len() {
        if rest.is_constant() {
            return last_inverse(alloc, &rest, &factor);
        }
        let (quotient, next) = div_rem(alloc, &above, &rest)?;
        let next_factor = less_product(alloc, &above_factor, &quotient, &factor)?;
        above = rest;
        rest = next;
        above_factor = factor;
        factor = next_factor;
    }
    last_inverse(alloc, &rest, &factor)
}

/// r and z with b·r + a·z = c and deg r < deg a, where i·b = 1 modulo a: r = (i·(c rem a)) rem a and z = (c - b·r) quo a.
#[tactic(auto, using(risch_field::proofs::CheckedSteps::stop_passes, risch_field::proofs::CheckedSteps::value_passes), unfolding(risch_polynomial::specs::Modular::solution))]
fn solution<E: Arith>(
    alloc: Global,
    inverse: &Poly<E>,
    a: &Poly<E>,
    b: &Poly<E>,
    c: &Poly<E>,
) -> Result<(Poly<E>, Poly<E>), Fail>
    ensures { Agrees result (modular.solution E.ops inverse.now a.now b.now c.now) }
{
    let (_, small) = div_rem(alloc, c, a)?;
    let product = inverse.mul(alloc, &small)?;
    let (_, left) = div_rem(alloc, &product, a)?;
    let rest = less_product(alloc, c, b, &left)?;
    let right = quo(alloc, &rest, a)?;
    Ok((left, right))
}

/// i with i·b = 1 modulo a, for a of degree at least 1; None where a and b are not coprime.
///
/// The remainders of a and b rem a are formed with the coefficients 0, 1, .. of b, until one is constant: it is r = s·b modulo a, and
/// i = s/r. Stops: those of the divisions, and of s/r.
#[tactic(auto, using(risch_field::proofs::CheckedSteps::stop_passes, risch_field::proofs::CheckedSteps::value_passes), unfolding(risch_polynomial::specs::Modular::inverse))]
pub fn inverse_mod<E: Arith>(
    alloc: Global,
    of: &Poly<E>,
    modulus: &Poly<E>,
) -> Result<Option<Poly<E>>, Fail>
    ensures { Agrees result (modular.inverse E.ops of.now modulus.now) }
{
    let (_, rest) = div_rem(alloc, of, modulus)?;
    let above = modulus.copy(alloc)?;
    let one = Poly::one(alloc)?;
    inverse_from(alloc, above, Poly::zero(alloc), rest, one)
}

/// r and z with b·r + a·z = c and deg r < deg a, for a of degree at least 1; None where a and b are not coprime.
///
/// With i·b = 1 modulo a: r = (i·(c rem a)) rem a and z = (c - b·r) quo a. Stops: those of i, and then of these values.
#[tactic(auto, using(risch_field::proofs::CheckedSteps::stop_passes, risch_field::proofs::CheckedSteps::value_passes), unfolding(risch_polynomial::specs::Modular::solve))]
pub fn solve_mod<E: Arith>(
    alloc: Global,
    a: &Poly<E>,
    b: &Poly<E>,
    c: &Poly<E>,
) -> Result<Option<(Poly<E>, Poly<E>)>, Fail>
    ensures { Agrees result (modular.solve E.ops a.now b.now c.now) }
{
    match inverse_mod(alloc, b, a)? {
        None => Ok(None),
        Some(inverse) => {
            let solution = solution(alloc, &inverse, a, b, c)?;
            Ok(Some(solution))
        }
    }
}
