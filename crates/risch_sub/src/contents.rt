//! Contents and primitive parts of polynomials in t over the polynomials in z (Bronstein, Symbolic Integration I, section 1.6).

ghost use Rattle.std.specs.Prelude.{◌<◌, length};
ghost use Rattle.risch_field.specs.Checked.{Agrees, AgreesWith};
ghost use Rattle.risch_sub.specs.RemainderSequence as spec;

use crate::members::{Member, sized};
use crate::polynomials::Inner;
use risch_division::{gcd, quo};
use risch_elem::Fail;
use std::alloc::Global;

/// The common divisor so far with one coefficient more, where that is not 0.
fn divisor_with(alloc: Global, divisor: Inner, of: &Inner) -> Result<Inner, Fail>
    ensures { Agrees result (spec.divisor_with divisor of.now) }
{
    if of.is_zero() {
        return Ok(divisor);
    }
    gcd(alloc, &divisor, of)
}

/// The common divisor so far with all coefficients, from the highest exponent down.
fn divisor_of_all(alloc: Global, of: &[Inner], divisor: Inner) -> Result<Inner, Fail>
    ensures { Agrees result (spec.divisor_of_all of.now divisor) }
{
    let mut divisor = divisor;
    for step in 0..of.len() {
        let next = divisor_with(alloc, divisor, &of[of.len() - 1 - step])?;
        divisor = next;
    }
    Ok(divisor)
}

/// The monic common divisor of the coefficients of m, which is not 0.
///
/// Stops: that of the monic leading coefficient, and those of the common divisors.
pub fn content(alloc: Global, of: &[Inner]) -> Result<Inner, Fail>
    requires { 0 < length of.now }
    ensures { Agrees result (spec.content of.now) }
{
    let last = of.len() - 1;
    let divisor = of[last].monic(alloc)?;
    divisor_of_all(alloc, &of[..last], divisor)
}

/// Appends m_0 quo c, m_1 quo c, ..
///
/// Stops: that of the first quotient that cannot be formed.
pub fn push_quotients(
    alloc: Global,
    to: &mut Vec<Inner>,
    items: &[Inner],
    by: &Inner,
) -> Result<(), Fail>
    ensures { AgreesWith result to.new.items (spec.quotients_onto to.old.items items.now by.now) }
{
    for item in items {
        let quotient = quo(alloc, item, by)?;
        to.push(quotient)?;
    }
    Ok(())
}

/// m divided by its content, for m other than 0.
///
/// Stops: those of the content; that of the first quotient that cannot be formed, exponents ascending; Size where the weight is beyond its limit.
#[tactic(auto, using(risch_field::proofs::CheckedSteps::stop_passes, risch_field::proofs::CheckedSteps::value_passes), unfolding(crate::specs::RemainderSequence::primitive_part))]
pub(crate) fn primitive_part(alloc: Global, of: &[Inner]) -> Result<Member, Fail>
    requires { 0 < length of.now }
    ensures { Agrees result (spec.primitive_part of.now) }
{
    let content = content(alloc, of)?;
    let mut quotients = Vec::new(alloc);
    push_quotients(alloc, &mut quotients, of, &content)?;
    sized(quotients)
}
