//! Traces of the powers of a polynomial modulo a monic one over the elements.

ghost use Rattle.std.specs.Prelude.{◌≡◌, ◌≤◌, ◌<◌, ℕ, [], ◌∷◌, length, IfOk};
ghost use Rattle.risch_univariate.specs.Degree.{IsMonic};
ghost use Rattle.risch_mean.specs.ElementField.{elements};
ghost use Rattle.risch_field.specs.Checked.{Agrees};
ghost use Rattle.risch_element_theory.specs.WholeTower.{polynomial, AllWithin};
ghost use Rattle.risch_sub.specs.PowerTraces as spec;
ghost use Rattle.risch_sub.specs.PowerTracesMeaning.{ArePowerTraces};

use crate::polynomials::Inner;
use risch_elem::{Elem, ElemList, Fail, Poly};
use risch_trace::{remainder, trace};
use std::alloc::Global;

/// u^(i+1) = (u^i·u) rem d, for u^i.
///
/// Stops: that of the first value that cannot be formed.
#[tactic(auto, using(risch_field::proofs::CheckedSteps::stop_passes, risch_field::proofs::CheckedSteps::value_passes), unfolding(crate::specs::PowerTraces::next_power))]
pub fn next_power(alloc: Global, modulus: &Inner, of: &Inner, power: &Inner) -> Result<Inner, Fail>
    ensures { Agrees result (spec.next_power modulus.now of.now power.now) }
{
    let product = power.mul(alloc, of)?;
    remainder(alloc, &product, modulus)
}

/// The traces so far, the last of them that of `power`, and those of the powers of u that follow, as many as `steps`.
fn further_traces(
    alloc: Global,
    modulus: &Inner,
    of: &Inner,
    steps: u16,
    traces: ElemList,
    power: Inner,
) -> Result<ElemList, Fail>
    ensures { Agrees result (spec.further_traces modulus.now of.now steps traces power) }
{
    let mut traces = traces;
    let mut power = power;
    for _step in 0..steps {
        power = next_power(alloc, modulus, of, &power)?;
        let value = trace(alloc, modulus, &power)?;
        traces.push(value)?;
    }
    Ok(traces)
}

/// The traces of u, .., u^n in the algebra modulo d.
#[tactic(auto, using(risch_field::proofs::CheckedSteps::stop_passes, risch_field::proofs::CheckedSteps::value_passes))]
fn power_traces(alloc: Global, modulus: &Inner, of: &Inner, power: u16) -> Result<ElemList, Fail>
    ensures { Agrees result (spec.power_traces modulus.now of.now power) }
{
    let mut traces = ElemList::new(alloc);
    if power == 0 {
        return Ok(traces);
    }
    traces.push(trace(alloc, modulus, of)?)?;
    further_traces(alloc, modulus, of, power - 1, traces, of.copy(alloc)?)
}

/// The traces of u, u², .., u^n in the algebra modulo d, for a monic polynomial d over the elements of degree at least 1, a polynomial u of smaller degree, and n = `power` from 0 to 65535.
///
/// They are the power sums of the roots of the characteristic polynomial of u. Stops: that of the first value that cannot be formed, of the products, the remainders and the sums of the traces.
pub fn characteristic(
    alloc: Global,
    modulus: &Poly,
    of: &Poly,
    power: u16,
) -> Result<ElemList, Fail>
    requires monic { IsMonic elements (polynomial modulus.now) }
    requires degree { 2 ≤ length modulus.now }
    requires below { length of.now < length modulus.now }
    ensures rule { Agrees result (spec.power_traces modulus.now of.now power) }
    ensures count { IfOk result (λ it. length it ≡ power) }
    ensures meaning { IfOk result (λ it. ArePowerTraces modulus.now of.now it) }
    ensures within { (n : ℕ) → AllWithin n modulus.now → AllWithin n of.now → IfOk result (λ it. AllWithin n it) }
{
    power_traces(alloc, modulus.inner(), of.inner(), power)
}
