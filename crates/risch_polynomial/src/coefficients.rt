//! Lists of coefficients from exponent 0, before they are kept as a polynomial.
//!
//! What forms a coefficient writes it to a list, in the order in which the values are formed, and ends at the first that cannot be formed.

ghost use Rattle.std.specs.Prelude.{◌≡◌, ◌≤◌, ◌+◌, vec_len, ◌++◌, ◌∷◌, [], length, IfOk, OnOk, replicate};
ghost use Rattle.risch_field.specs.Checked.{Agrees, AgreesWith};
ghost use Rattle.risch_polynomial.specs.Poly as poly;

use risch_field::{Arith, Fail};
use std::alloc::{AllocError, Global};

/// Whether the last coefficient is 0.
fn ends_in_zero<E: Arith>(coefficients: &[E]) -> bool
    ensures { result ≡ poly.ends_in_zero E.ops coefficients.now }
{
    match coefficients.last() {
        Some(last) => last.is_zero(),
        None => false,
    }
}

/// Drops the coefficients at the end that are 0.
pub fn trim<E: Arith>(coefficients: &mut Vec<E>)
    ensures shorter { vec_len coefficients.new ≤ vec_len coefficients.old }
    ensures value { coefficients.new.items ≡ poly.trimmed E.ops coefficients.old.items }
{
    while ends_in_zero(coefficients) {
        coefficients.pop();
    }
}

/// The sum of the weights of the coefficients other than 0.
pub(crate) fn weigh<E: Arith>(coefficients: &[E]) -> u32
    requires { length coefficients.now ≤ 256 }
    ensures { result ≡ poly.weight E.ops coefficients.now }
{
    let mut weight = 0;
    for coefficient in coefficients {
        if !coefficient.is_zero() {
            weight += coefficient.weight();
        }
    }
    weight
}

/// Whether p_j and q_j are the same for each j, and there are as many.
pub(crate) fn same_items<E: Arith>(left: &[E], right: &[E]) -> bool
    ensures { result ≡ poly.same E.ops left.now right.now }
{
    if left.len() != right.len() {
        return false;
    }
    for i in 0..left.len() {
        if !left[i].same(&right[i]) {
            return false;
        }
    }
    true
}

/// Appends c.
fn push_item<E: Drop>(to: &mut Vec<E>, item: E) -> Result<(), AllocError>
    ensures { OnOk result (to.new.items ≡ to.old.items ++ item ∷ []) }
{
    Ok(to.push(item)?)
}

/// Appends c once more.
fn push_copy<E: Arith>(alloc: Global, to: &mut Vec<E>, item: &E) -> Result<(), AllocError>
    ensures { OnOk result (to.new.items ≡ to.old.items ++ item.now ∷ []) }
{
    let copy = item.copy(alloc)?;
    push_item(to, copy)
}

/// Appends -c.
fn push_negative<E: Arith>(alloc: Global, to: &mut Vec<E>, item: &E) -> Result<(), AllocError>
    ensures { OnOk result (to.new.items ≡ to.old.items ++ E.ops.negative item.now ∷ []) }
{
    let negative = item.neg(alloc)?;
    push_item(to, negative)
}

/// 0, 0, .., as many as `count`.
pub fn zeros<E: Arith>(alloc: Global, count: usize) -> Result<Vec<E>, AllocError>
    ensures { IfOk result (λ zeros. zeros.items ≡ replicate count E.ops.zero) }
{
    let mut zeros = Vec::new(alloc);
    for _i in 0..count {
        push_item(&mut zeros, E::zero())?;
    }
    Ok(zeros)
}

/// Appends p_0, p_1, ..
pub fn push_copies<E: Arith>(alloc: Global, to: &mut Vec<E>, from: &[E]) -> Result<(), AllocError>
    ensures { OnOk result (to.new.items ≡ to.old.items ++ from.now) }
{
    for item in from {
        push_copy(alloc, to, item)?;
    }
    Ok(())
}

/// Appends -p_0, -p_1, ..
pub(crate) fn push_negatives<E: Arith>(
    alloc: Global,
    to: &mut Vec<E>,
    from: &[E],
) -> Result<(), AllocError>
    ensures { OnOk result (to.new.items ≡ to.old.items ++ poly.negatives E.ops from.now) }
{
    for item in from {
        push_negative(alloc, to, item)?;
    }
    Ok(())
}

/// Appends p_0 + q_0, p_1 + q_1, .., and then the rest of the longer list.
pub(crate) fn push_sums<E: Arith>(
    alloc: Global,
    sums: &mut Vec<E>,
    left: &[E],
    right: &[E],
) -> Result<(), Fail>
    ensures { AgreesWith result sums.new.items (poly.sum_onto E.ops sums.old.items left.now right.now) }
{
    let both = left.len().min(right.len());
    for i in 0..both {
        let sum = left[i].add(alloc, &right[i])?;
        push_item(sums, sum)?;
    }
    push_copies(alloc, sums, &left[both..])?;
    push_copies(alloc, sums, &right[both..])?;
    Ok(())
}

/// Appends c·p_0, c·p_1, ..
pub(crate) fn push_scaled<E: Arith>(
    alloc: Global,
    scaled: &mut Vec<E>,
    by: &E,
    items: &[E],
) -> Result<(), Fail>
    ensures { AgreesWith result scaled.new.items (poly.scaled_onto E.ops scaled.old.items by.now items.now) }
{
    for i in 0..items.len() {
        let product = by.mul(alloc, &items[i])?;
        push_item(scaled, product)?;
    }
    Ok(())
}

/// n·c; for c = 0 nothing is formed.
fn multiple<E: Arith>(alloc: Global, n: u16, of: &E) -> Result<E, Fail>
    ensures { Agrees result (poly.multiple E.ops n of.now) }
{
    if of.is_zero() {
        return Ok(E::zero());
    }
    E::whole(n).mul(alloc, of)
}

/// Appends 1·p_0, 2·p_1, ..
pub(crate) fn push_multiples<E: Arith>(
    alloc: Global,
    multiples: &mut Vec<E>,
    items: &[E],
) -> Result<(), Fail>
    requires { length items.now ≤ 256 }
    ensures { AgreesWith result multiples.new.items (poly.multiples_onto E.ops multiples.old.items 1 items.now) }
{
    for i in 0..items.len() {
        let product = multiple(alloc, (i + 1) as u16, &items[i])?;
        push_item(multiples, product)?;
    }
    Ok(())
}

/// c, or -c.
fn signed<E: Arith>(alloc: Global, minus: bool, term: E) -> Result<E, AllocError>
    ensures { IfOk result (λ it. it ≡ poly.signed E.ops minus term) }
{
    if minus { term.neg(alloc) } else { Ok(term) }
}

/// Adds ±c·q_j to the coefficient at `from` + j, for j = 0, 1, ..
pub fn add_row<E: Arith>(
    alloc: Global,
    minus: bool,
    sums: &mut Vec<E>,
    from: usize,
    by: &E,
    items: &[E],
) -> Result<(), Fail>
    requires { from + length items.now ≤ vec_len sums.old }
    ensures value { AgreesWith result sums.new.items (poly.row E.ops minus sums.old.items from by.now items.now) }
    ensures len { vec_len sums.new ≡ vec_len sums.old }
{
    for j in 0..items.len() {
        let product = by.mul(alloc, &items[j])?;
        let term = signed(alloc, minus, product)?;
        let sum = sums[from + j].add(alloc, &term)?;
        sums[from + j] = sum;
    }
    Ok(())
}

/// Adds p_i·q_j to the coefficient at i + j, for i = 0, 1, .. and within it for j = 0, 1, .. Where p_i = 0 nothing is formed.
pub(crate) fn add_rows<E: Arith>(
    alloc: Global,
    sums: &mut Vec<E>,
    left: &[E],
    right: &[E],
) -> Result<(), Fail>
    requires { length left.now + length right.now ≤ vec_len sums.old + 1 }
    ensures { AgreesWith result sums.new.items (poly.rows E.ops sums.old.items 0 left.now right.now) }
{
    for i in 0..left.len() {
        let factor = &left[i];
        if factor.is_zero() {
            continue;
        }
        add_row(alloc, false, sums, i, factor, right)?;
    }
    Ok(())
}
