//! The derivative of a polynomial in the variable of a level.

ghost use Rattle.std.specs.Prelude.{◌≤◌, ◌<◌, ◌+◌, length};
ghost use Rattle.risch_field.specs.Checked.{Agrees, AgreesWith};
ghost use Rattle.risch_polynomial.specs.Poly as poly;
ghost use Rattle.risch_derivation.specs.Derivation as spec;

use crate::derive::Derive;
use crate::rate::{Kind, Rate};
use risch_field::{Arith, Fail};
use risch_polynomial::Poly;
use std::alloc::Global;

/// n·c; for c = 0 nothing is formed.
fn multiple<E: Arith>(alloc: Global, n: u16, of: &E) -> Result<E, Fail>
    ensures { Agrees result (poly.multiple E.ops n of.now) }
{
    if of.is_zero() {
        return Ok(E::zero());
    }
    E::whole(n).mul(alloc, of)
}

/// (n·η)·c; for c = 0 nothing is formed.
#[tactic(auto, using(risch_field::proofs::CheckedSteps::stop_passes, risch_field::proofs::CheckedSteps::value_passes))]
fn times_rate<E: Arith>(alloc: Global, rate: &Rate<E>, n: u16, of: &E) -> Result<E, Fail>
    ensures { Agrees result (spec.times_rate E.ops rate.now n of.now) }
{
    if of.is_zero() {
        return Ok(E::zero());
    }
    let factor = multiple(alloc, n, &rate.eta)?;
    factor.mul(alloc, of)
}

/// p_(j + 1), the first of the coefficients after p_j, or 0 where there is none, times (j + 1)·η.
fn raised_term<E: Arith>(alloc: Global, rate: &Rate<E>, j: u16, after: &[E]) -> Result<E, Fail>
    requires { j < 256 }
    ensures { Agrees result (spec.times_rate E.ops rate.now (j + 1) (poly.coefficient E.ops after.now 0)) }
{
    match after.first() {
        Some(next) => times_rate(alloc, rate, j + 1, next),
        None => times_rate(alloc, rate, j + 1, &E::zero()),
    }
}

/// The coefficient of Dt·dp/dt at exponent j: ((j + 1)·η)·p_(j + 1) where Dt = η, and (j·η)·p_j where Dt = η·t.
fn variable_term<E: Arith>(
    alloc: Global,
    rate: &Rate<E>,
    j: u16,
    of: &E,
    after: &[E],
) -> Result<E, Fail>
    requires { j < 256 }
    ensures { Agrees result (spec.variable_term E.ops rate.now rate.now.kind j of.now after.now) }
{
    match rate.kind {
        Kind::Primitive => raised_term(alloc, rate, j, after),
        Kind::Exponential => times_rate(alloc, rate, j, of),
    }
}

/// The coefficient of Dp at exponent j: D(p_j), and that of Dt·dp/dt.
#[tactic(auto, using(risch_field::proofs::CheckedSteps::stop_passes, risch_field::proofs::CheckedSteps::value_passes))]
fn coefficient_derivative<E: Derive>(
    alloc: Global,
    rates: &E::Rates,
    rate: &Rate<E>,
    j: u16,
    of: &E,
    after: &[E],
) -> Result<E, Fail>
    requires { j < 256 }
    ensures { Agrees result (spec.coefficient_derivative E.ops (E.derivation rates.now) rate.now j of.now after.now) }
{
    let derived = of.derive(alloc, rates)?;
    let term = variable_term(alloc, rate, j, of, after)?;
    derived.add(alloc, &term)
}

/// Appends the coefficients of Dp, exponents ascending.
fn push_derivatives<E: Derive>(
    alloc: Global,
    derivatives: &mut Vec<E>,
    rates: &E::Rates,
    rate: &Rate<E>,
    items: &[E],
) -> Result<(), Fail>
    requires { length items.now ≤ 256 }
    ensures { AgreesWith result derivatives.new.items (spec.derivatives_onto E.ops (E.derivation rates.now) rate.now derivatives.old.items 0 items.now) }
{
    for j in 0..items.len() {
        let after = &items[j + 1..];
        let derivative = coefficient_derivative(alloc, rates, rate, j as u16, &items[j], after)?;
        derivatives.push(derivative)?;
    }
    Ok(())
}

/// Dp, with D(p_j) + ((j + 1)·η)·p_(j + 1) at exponent j where Dt = η, and D(p_j) + (j·η)·p_j where Dt = η·t, formed for j = 0, 1, ..
///
/// `rates` are those of the levels of E, and `rate` that of t. A term with a coefficient that is 0 forms nothing.
///
/// Stops: that of the first value that cannot be formed; Size where the weight is beyond its limit.
#[tactic(auto, using(risch_field::proofs::CheckedSteps::stop_passes, risch_field::proofs::CheckedSteps::value_passes), unfolding(crate::specs::Derivation::derive_polynomial))]
pub fn derive_polynomial<E: Derive>(
    alloc: Global,
    rates: &E::Rates,
    rate: &Rate<E>,
    of: &Poly<E>,
) -> Result<Poly<E>, Fail>
    ensures { Agrees result (spec.derive_polynomial E.ops (E.derivation rates.now) rate.now of.now) }
{
    let mut derivatives = Vec::new(alloc);
    push_derivatives(alloc, &mut derivatives, rates, rate, of.coefficients())?;
    Poly::from_coefficients(derivatives)
}
