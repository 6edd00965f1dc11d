//! Polynomials in t over the polynomials in z, as the list of their coefficients from exponent 0.

ghost use Rattle.std.specs.Prelude.{◌≡◌, ◌++◌, [], nat_le, replicate, map, take, All, IfOk, OnOk, Ok};
ghost use Rattle.risch_polynomial.specs.Poly as poly;
ghost use Rattle.risch_level.specs.Levels.{element};
ghost use Rattle.risch_field.specs.Checked.{Agrees, AgreesWith, and_then};
ghost use Rattle.risch_element_theory.specs.WholeTower.{IsPolynomial};
ghost use Rattle.risch_sub.specs.RemainderSequence as spec;

use crate::polynomials::{Inner, wrapped};
use risch_elem::{Fail, Items, PolyList};
use std::alloc::{AllocError, Global};

/// A polynomial in t over the polynomials in z.
pub type Member = Items<Inner>;

/// How many coefficients there are up to the last that is not 0.
fn trimmed_length(member: &[Inner]) -> usize
    ensures { spec.trimmed member.now ≡ take result member.now }
{
    for step in 0..member.len() {
        let length = member.len() - step;
        if !member[length - 1].is_zero() {
            return length;
        }
    }
    0
}

/// Whether the sum of the weights of the coefficients is within its limit.
fn is_light(member: &[Inner]) -> bool
    ensures { result ≡ nat_le (spec.weight member.now) 65536 }
{
    let mut weight = 0;
    for coefficient in member {
        weight += coefficient.weight();
        if weight > 65536 {
            return false;
        }
    }
    true
}

/// The polynomial with these coefficients from exponent 0; those at the end that are 0 are dropped.
///
/// Stops: Size where the weight is beyond its limit.
#[tactic(auto, unfolding(crate::specs::RemainderSequence::sized))]
pub fn sized(member: Vec<Inner>) -> Result<Member, Fail>
    ensures { Agrees result (spec.sized member.items) }
{
    let mut member = member;
    let length = trimmed_length(&member);
    member.truncate(length);
    if !is_light(&member) {
        return Err(Fail::Size);
    }
    Ok(Items::from_vec(member))
}

/// Appends 0, 0, .., as many as `count`.
fn push_zeros(alloc: Global, to: &mut Vec<Inner>, count: usize) -> Result<(), AllocError>
    ensures { OnOk result (to.new.items ≡ to.old.items ++ replicate count []) }
{
    for _i in 0..count {
        to.push(Inner::zero(alloc))?;
    }
    Ok(())
}

/// Appends m_0, m_1, ..
fn push_copies(alloc: Global, to: &mut Vec<Inner>, from: &[Inner]) -> Result<(), AllocError>
    ensures { OnOk result (to.new.items ≡ to.old.items ++ from.now) }
{
    for item in from {
        to.push(item.copy(alloc)?)?;
    }
    Ok(())
}

/// Appends -m_0, -m_1, ..
fn push_negatives(alloc: Global, to: &mut Vec<Inner>, from: &[Inner]) -> Result<(), Fail>
    ensures { AgreesWith result to.new.items (Ok (to.old.items ++ map (poly.negatives element) from.now)) }
{
    for item in from {
        to.push(item.neg(alloc)?)?;
    }
    Ok(())
}

/// Appends c·m_0, c·m_1, ..
fn push_products(
    alloc: Global,
    to: &mut Vec<Inner>,
    by: &Inner,
    items: &[Inner],
) -> Result<(), Fail>
    ensures { AgreesWith result to.new.items (spec.products_onto to.old.items by.now items.now) }
{
    for item in items {
        let product = by.mul(alloc, item)?;
        to.push(product)?;
    }
    Ok(())
}

/// p - q.
fn less(alloc: Global, from: &Inner, other: &Inner) -> Result<Inner, Fail>
    ensures { Agrees result (poly.sum element from.now (poly.negatives element other.now)) }
{
    let negative = other.neg(alloc)?;
    from.add(alloc, &negative)
}

/// Appends m_0 - n_0, m_1 - n_1, ..
fn push_differences(
    alloc: Global,
    to: &mut Vec<Inner>,
    left: &[Inner],
    right: &[Inner],
) -> Result<(), Fail>
    ensures { AgreesWith result to.new.items (spec.differences_onto to.old.items left.now right.now) }
{
    let both = left.len().min(right.len());
    for i in 0..both {
        let difference = less(alloc, &left[i], &right[i])?;
        to.push(difference)?;
    }
    push_copies(alloc, to, &left[both..])?;
    push_negatives(alloc, to, &right[both..])
}

/// m once more.
pub(crate) fn copy(alloc: Global, of: &[Inner]) -> Result<Member, AllocError>
    ensures { IfOk result (λ it. it ≡ of.now) }
{
    let mut coefficients = Vec::new(alloc);
    push_copies(alloc, &mut coefficients, of)?;
    Ok(Items::from_vec(coefficients))
}

/// c·t^e·m.
///
/// Stops: that of the first product that cannot be formed, exponents ascending; Size where the weight is beyond its limit.
#[tactic(auto, using(risch_field::proofs::CheckedSteps::stop_passes, risch_field::proofs::CheckedSteps::value_passes))]
pub(crate) fn multiple(
    alloc: Global,
    exponent: usize,
    by: &Inner,
    of: &[Inner],
) -> Result<Member, Fail>
    ensures { Agrees result (and_then (spec.products_onto (replicate exponent []) by.now of.now) spec.sized) }
{
    let mut products = Vec::new(alloc);
    push_zeros(alloc, &mut products, exponent)?;
    push_products(alloc, &mut products, by, of)?;
    sized(products)
}

/// m - n.
///
/// Stops: that of the first difference that cannot be formed, exponents ascending; Size where the weight is beyond its limit.
#[tactic(auto, using(risch_field::proofs::CheckedSteps::stop_passes, risch_field::proofs::CheckedSteps::value_passes))]
pub(crate) fn difference(alloc: Global, left: &[Inner], right: &[Inner]) -> Result<Member, Fail>
    ensures { Agrees result (and_then (spec.differences_onto [] left.now right.now) spec.sized) }
{
    let mut differences = Vec::new(alloc);
    push_differences(alloc, &mut differences, left, right)?;
    sized(differences)
}

/// The same polynomials, the coefficients of whose coefficients are in normal form.
pub(crate) fn wrapped_members(alloc: Global, from: Items<Member>) -> Result<Items<PolyList>, Fail>
    requires { All (All IsPolynomial) from }
    ensures { Agrees result (Ok from) }
{
    let mut to = Items::new(alloc);
    for member in from.into_vec() {
        to.push(wrapped(alloc, member)?)?;
    }
    Ok(to)
}
