// The remainder sequences of polynomials in a variable over the polynomials in z.
ghost use Rattle.std.specs.Prelude.{◌≤◌, ◌<◌, length, IsTrue};
ghost use Rattle.risch_sub.specs.RemainderSequence.{leading};

use crate::operands::{NO_CALL, exponent_of, polynomials};
use crate::values::Values;
use risch_elem::{Fail, Items, Poly, PolyList};
use risch_sub::remainders;
use std::alloc::{AllocError, Global};

// Whether the leading coefficient is not 0.
fn has_leading(member: &PolyList) -> bool
    ensures { IsTrue result → 0 < length (leading member.now) }
{
    match member.as_slice().last() {
        Some(last) => !last.is_zero(),
        None => false,
    }
}

// Whether two polynomials begin a sequence.
fn begin(d: &PolyList, b: &PolyList) -> bool
    ensures some { IsTrue result → 0 < length b.now }
    ensures degrees { IsTrue result → length b.now ≤ length d.now }
    ensures small { IsTrue result → length d.now ≤ 256 }
    ensures dividend { IsTrue result → 0 < length (leading d.now) }
    ensures divisor { IsTrue result → 0 < length (leading b.now) }
{
    b.len() > 0 && b.len() <= d.len() && d.len() <= 256 && has_leading(d) && has_leading(b)
}

// The polynomials once more.
fn member(alloc: Global, of: &[Poly]) -> Result<PolyList, AllocError> {
    let mut member = PolyList::new(alloc);
    for coefficient in of {
        push_copy(alloc, &mut member, coefficient)?;
    }
    Ok(member)
}

fn push_copy(alloc: Global, to: &mut PolyList, polynomial: &Poly) -> Result<(), AllocError> {
    let copy = polynomial.copy(alloc)?;
    to.push(copy)
}

/// Plays the call: the least degree, the number of the coefficients of the first member, and the coefficients of the first two.
pub fn play(alloc: Global, operands: &str, values: &mut Values) {
    match polynomials(alloc, operands) {
        Ok(operands) => of(alloc, operands.as_slice(), values),
        Err(halt) => values.refuse(halt),
    }
}

fn of(alloc: Global, operands: &[Poly], values: &mut Values) {
    match operands {
        [least, count, coefficients @ ..] => of_least(alloc, least, count, coefficients, values),
        _ => values.cause(NO_CALL),
    }
}

fn of_least(alloc: Global, least: &Poly, count: &Poly, of: &[Poly], values: &mut Values) {
    match exponent_of(least) {
        Ok(least) => match exponent_of(count) {
            Ok(count) => of_coefficients(alloc, least, usize::from(count), of, values),
            Err(halt) => values.refuse(halt),
        },
        Err(halt) => values.refuse(halt),
    }
}

fn of_coefficients(alloc: Global, least: u16, count: usize, of: &[Poly], values: &mut Values) {
    if count > of.len() {
        return values.cause("too few coefficients");
    }
    let (d, b) = of.split_at(count);
    match member(alloc, d) {
        Ok(d) => of_first(alloc, least, &d, b, values),
        Err(_) => values.memory(),
    }
}

fn of_first(alloc: Global, least: u16, d: &PolyList, b: &[Poly], values: &mut Values) {
    match member(alloc, b) {
        Ok(b) => sequence(alloc, least, d, &b, values),
        Err(_) => values.memory(),
    }
}

fn sequence(alloc: Global, least: u16, d: &PolyList, b: &PolyList, values: &mut Values) {
    if begin(d, b) {
        members(alloc, remainders(alloc, d, b, least), values)
    } else {
        values.cause("polynomials that begin no sequence")
    }
}

// The coefficients of each member, and where they end.
fn members(alloc: Global, members: Result<Items<PolyList>, Fail>, values: &mut Values) {
    match members {
        Ok(members) => {
            for member in members.as_slice() {
                values.polynomials(alloc, member.as_slice());
            }
        }
        Err(fail) => values.fail(fail),
    }
}
