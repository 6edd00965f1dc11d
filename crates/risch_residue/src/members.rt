//! The remainder sequence of d and a - z·Dd for an element a/d (Bronstein, sections 2.5 and 5.6).

ghost use Rattle.std.specs.Prelude.{◌≡◌, ◌≤◌, length, map, All, IfOk};
ghost use Rattle.risch_field.specs.Checked.{Agrees};
ghost use Rattle.risch_polynomial.specs.Poly as poly;
ghost use Rattle.risch_level.specs.Levels.{element};
ghost use Rattle.risch_element_theory.specs.WholeTower.{AllWithin};
ghost use Rattle.risch_sub.specs.RemainderSequence as sequence;
ghost use Rattle.risch_logarithm_rules.specs.Logarithms as spec;

use risch_elem::{Elem, Fail, Items, Poly};
use risch_field::Arith;
use risch_sub::members::{Member, sized};
use risch_sub::polynomials::Inner;
use risch_sub::remainder_sequence::sequence as remainders;
use risch_tower::Tower;
use std::alloc::{AllocError, Global};

/// The numerator a and the denominator d of an element at a level.
#[derive(Drop)]
pub(crate) struct Quotient {
    pub(crate) numerator: Poly,
    pub(crate) denominator: Poly,
}

/// The coefficient at an exponent.
pub(crate) fn coefficient(alloc: Global, of: &[Elem], exponent: usize) -> Result<Elem, AllocError>
    ensures { IfOk result (λ it. it ≡ poly.coefficient element of.now exponent) }
{
    match of.get(exponent) {
        Some(coefficient) => coefficient.copy(alloc),
        None => Ok(Elem::zero()),
    }
}

/// c as a polynomial in z.
fn constant_in_z(alloc: Global, of: &Elem) -> Result<Inner, AllocError>
    ensures { IfOk result (λ it. it ≡ spec.constant_in_z of.now) }
{
    if of.is_zero() {
        return Ok(Inner::zero(alloc));
    }
    Inner::constant(alloc, of.copy(alloc)?)
}

/// The coefficients as polynomials in z.
pub(crate) fn constants(alloc: Global, of: &[Elem]) -> Result<Member, AllocError>
    ensures { IfOk result (λ it. it ≡ map spec.constant_in_z of.now) }
{
    let mut member = Items::new(alloc);
    for coefficient in of {
        member.push(constant_in_z(alloc, coefficient)?)?;
    }
    Ok(member)
}

/// a - z·e.
///
/// Stops: Size where the weight is beyond its limit.
fn difference_in_z(alloc: Global, from: Elem, of: &Elem) -> Result<Inner, Fail>
    ensures { Agrees result (poly.sized element (spec.difference_in_z from of.now)) }
{
    let mut coefficients = Vec::new(alloc);
    coefficients.push(from)?;
    coefficients.push(of.neg(alloc)?)?;
    Inner::from_coefficients(coefficients)
}

/// a - z·e, coefficient by coefficient.
///
/// Stops: Size where the weight is beyond its limit.
fn differences(alloc: Global, left: &[Elem], right: &[Elem]) -> Result<Member, Fail>
    ensures { Agrees result (sequence.sized (spec.differences_in_z left.now right.now)) }
{
    let mut member = Vec::new(alloc);
    for j in 0..left.len().max(right.len()) {
        let minuend = coefficient(alloc, left, j)?;
        let factor = coefficient(alloc, right, j)?;
        let difference = difference_in_z(alloc, minuend, &factor)?;
        member.push(difference)?;
    }
    sized(member)
}

/// The primitive remainder sequence of d and a - z·Dd, down to the degree `least` in t.
///
/// Stops: those of Dd; Size where a - z·Dd is beyond the limit; those of the sequence.
#[tactic(auto, using(risch_field::proofs::CheckedSteps::stop_passes, risch_field::proofs::CheckedSteps::value_passes), unfolding(risch_logarithm_rules::specs::Logarithms::sequence))]
pub(crate) fn sequence(
    alloc: Global,
    tower: &Tower,
    level: u8,
    of: &Quotient,
    least: u16,
) -> Result<Items<Member>, Fail>
    requires level { level ≤ length tower.now }
    requires numerator { AllWithin level of.now.numerator }
    requires denominator { AllWithin level of.now.denominator }
    ensures rule { Agrees result (spec.sequence tower.now level of.now.numerator of.now.denominator least) }
    ensures within { IfOk result (λ it. All (All (AllWithin level)) it) }
{
    let derived = tower.derive_poly(alloc, level, &of.denominator)?;
    let second = differences(
        alloc,
        of.numerator.inner().coefficients(),
        derived.inner().coefficients(),
    )?;
    let first = constants(alloc, of.denominator.inner().coefficients())?;
    remainders(alloc, first, second, least)
}
