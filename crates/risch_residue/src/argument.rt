//! The argument of a logarithm: a member of the remainder sequence, divided by its content, and monic modulo a square-free part R of the characteristic polynomial (Bronstein, section 2.5).

ghost use Rattle.std.specs.Prelude.{Some};
ghost use Rattle.risch_field.specs.Checked.{Agrees, AgreesWith};
ghost use Rattle.risch_polynomial.specs.Modular as modular;
ghost use Rattle.risch_level.specs.Levels.{element};
ghost use Rattle.risch_sub.specs.RemainderSequence as sequence;
ghost use Rattle.risch_logarithm_rules.specs.Logarithms as spec;

use risch_division::inverse_mod;
use risch_elem::{Fail, Items};
use risch_sub::contents::{content, push_quotients};
use risch_sub::members::Member;
use risch_sub::polynomials::Inner;
use risch_trace::remainder;
use std::alloc::Global;

/// The monic common divisor of the coefficients of m, and 0 for m = 0.
#[tactic(auto, using(crate::proofs::ArgumentSteps::content_nil))]
fn divisor(alloc: Global, of: &[Inner]) -> Result<Inner, Fail>
    ensures { Agrees result (sequence.content of.now) }
{
    if of.len() == 0 {
        return Ok(Inner::zero(alloc));
    }
    content(alloc, of)
}

/// Appends p_0 rem R, p_1 rem R, ..
fn push_remainders(
    alloc: Global,
    to: &mut Vec<Inner>,
    items: &[Inner],
    modulus: &Inner,
) -> Result<(), Fail>
    ensures { AgreesWith result to.new.items (spec.remainders_onto to.old.items items.now modulus.now) }
{
    for item in items {
        let rest = remainder(alloc, item, modulus)?;
        to.push(rest)?;
    }
    Ok(())
}

/// Appends (p_0·i) rem R, (p_1·i) rem R, ..
fn push_multiples(
    alloc: Global,
    to: &mut Vec<Inner>,
    items: &[Inner],
    by: &Inner,
    modulus: &Inner,
) -> Result<(), Fail>
    ensures { AgreesWith result to.new.items (spec.multiples_onto to.old.items items.now by.now modulus.now) }
{
    for item in items {
        let product = item.mul(alloc, by)?;
        let rest = remainder(alloc, &product, modulus)?;
        to.push(rest)?;
    }
    Ok(())
}

/// The inverse of the leading coefficient of m modulo R, where there is one.
fn inverse_of_leading(alloc: Global, of: &[Inner], modulus: &Inner) -> Result<Option<Inner>, Fail>
    ensures { Agrees result (modular.inverse element (sequence.leading of.now) modulus.now) }
{
    if of.len() == 0 {
        return inverse_mod(alloc, &Inner::zero(alloc), modulus);
    }
    inverse_mod(alloc, &of[of.len() - 1], modulus)
}

/// m times the inverse i of its leading coefficient modulo R, which becomes 1 unformed.
fn monic_multiple(alloc: Global, of: &[Inner], by: &Inner, modulus: &Inner) -> Result<Member, Fail>
    ensures { Agrees result (spec.monic_by of.now modulus.now (Some by.now)) }
{
    let mut coefficients = Vec::new(alloc);
    push_multiples(
        alloc,
        &mut coefficients,
        &of[..of.len().saturating_sub(1)],
        by,
        modulus,
    )?;
    coefficients.push(Inner::one(alloc)?)?;
    Ok(Items::from_vec(coefficients))
}

/// m monic modulo R by the inverse of its leading coefficient; m itself where there is none.
fn monic_by(
    alloc: Global,
    of: Member,
    modulus: &Inner,
    inverse: Option<Inner>,
) -> Result<Member, Fail>
    ensures { Agrees result (spec.monic_by of modulus.now inverse) }
{
    match inverse {
        None => Ok(of),
        Some(by) => monic_multiple(alloc, of.as_slice(), &by, modulus),
    }
}

/// m divided by its content, each coefficient then modulo R, and monic there.
///
/// Stops: that of the first value that cannot be formed.
#[tactic(auto, using(risch_field::proofs::CheckedSteps::stop_passes, risch_field::proofs::CheckedSteps::value_passes), unfolding(risch_logarithm_rules::specs::Logarithms::argument_of))]
pub(crate) fn argument_of(alloc: Global, of: &[Inner], modulus: &Inner) -> Result<Member, Fail>
    ensures { Agrees result (spec.argument_of of.now modulus.now) }
{
    let content = divisor(alloc, of)?;
    let mut primitive = Vec::new(alloc);
    push_quotients(alloc, &mut primitive, of, &content)?;
    let mut rests = Vec::new(alloc);
    push_remainders(alloc, &mut rests, &primitive, modulus)?;
    let inverse = inverse_of_leading(alloc, &rests, modulus)?;
    monic_by(alloc, Items::from_vec(rests), modulus, inverse)
}
