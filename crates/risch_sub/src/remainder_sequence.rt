//! The primitive remainder sequence of polynomials in t over the polynomials in z (Bronstein, Symbolic Integration I, section 1.5).

ghost use Rattle.std.specs.Prelude.{◌≤◌, ◌<◌, ◌+◌, ℕ, [], length, get_or, All, IfOk};
ghost use Rattle.risch_field.specs.Checked.{Agrees};
ghost use Rattle.risch_element_theory.specs.WholeTower.{AllWithin};
ghost use Rattle.risch_sub.specs.RemainderSequence as spec;

use crate::contents::primitive_part;
use crate::members::{Member, copy, difference, multiple, wrapped_members};
use crate::polynomials::{Inner, unwrapped};
use risch_elem::{Fail, Items, PolyList};
use std::alloc::Global;

/// A polynomial in t over the polynomials in z, as the list of its coefficients from exponent 0.
pub type ZPoly = PolyList;

/// A list of polynomials in t over the polynomials in z.
pub type ZPolyList = Items<ZPoly>;

/// lc(b)·r - c·t^e·b, where c is the coefficient of r at e + deg b; what stands there becomes 0 unformed.
fn pseudo_step(alloc: Global, by: &[Inner], rest: &[Inner], exponent: usize) -> Result<Member, Fail>
    requires some { 0 < length by.now }
    requires small { exponent + length by.now ≤ usize.MAX }
    ensures { Agrees result (spec.pseudo_step by.now rest.now exponent) }
{
    let degree = by.len() - 1;
    let top = exponent + degree;
    let zero = Inner::zero(alloc);
    let left = multiple(alloc, 0, &by[degree], &rest[..top.min(rest.len())])?;
    let factor = rest.get(top).unwrap_or(&zero);
    let right = multiple(alloc, exponent, factor, &by[..degree])?;
    difference(alloc, left.as_slice(), right.as_slice())
}

/// The pseudo-remainder of a by b.
fn pseudo_remainder(alloc: Global, of: &[Inner], by: &[Inner]) -> Result<Member, Fail>
    requires { 0 < length by.now }
    ensures { Agrees result (spec.pseudo_remainder of.now by.now) }
{
    let steps = of.len().saturating_sub(by.len() - 1);
    let mut rest = copy(alloc, of)?;
    for step in 0..steps {
        let next = pseudo_step(alloc, by, rest.as_slice(), steps - 1 - step)?;
        rest = next;
    }
    Ok(rest)
}

/// The member that follows those at a place and behind it, and `None` where there is no further one.
fn next_member(
    alloc: Global,
    members: &[Member],
    place: usize,
    least: u16,
) -> Result<Option<Member>, Fail>
    requires { place + 2 ≤ length members.now }
    ensures { Agrees result (spec.following least (get_or members.now place []) (get_or members.now (place + 1) [])) }
{
    let last = members[place + 1].as_slice();
    if last.len() <= usize::from(least) + 1 {
        return Ok(None);
    }
    let rest = pseudo_remainder(alloc, members[place].as_slice(), last)?;
    if rest.len() == 0 {
        return Ok(None);
    }
    Ok(Some(primitive_part(alloc, rest.as_slice())?))
}

/// R_0 = d, R_1 = b, .. to the last member that is formed.
///
/// Stops: that of the first value that cannot be formed, of the pseudo-remainders and of their primitive parts.
#[tactic(auto, unfolding(crate::specs::RemainderSequence::remainders))]
pub fn sequence(alloc: Global, d: Member, b: Member, least: u16) -> Result<Items<Member>, Fail>
    ensures { Agrees result (spec.remainders d b least) }
{
    let steps = b.len();
    let mut members = Items::from_vec(Vec::from_array(alloc, [d, b])?);
    for step in 0..steps {
        match next_member(alloc, members.as_slice(), step, least)? {
            Some(next) => members.push(next)?,
            None => return Ok(members),
        }
    }
    Ok(members)
}

/// The primitive remainder sequence R_0 = d, R_1 = b, R_2, .. of polynomials in t over the polynomials in z (Bronstein, section 1.5): R_(i+1) is the pseudo-remainder of R_(i-1) by R_i, divided by
/// its content, the monic greatest common divisor of its coefficients.
///
/// It ends with the first member from R_1 on of degree at most `least` in t, or with the last that is not 0. The last coefficients of d and b are not 0, and deg b ≤ deg d ≤ 255. Stops: that of the
/// first value that cannot be formed; Size where the weight of a member beyond R_1, or in a pseudo-division of lc(b)·r, of the multiple of b or of their difference, is beyond its limit.
pub fn remainders(alloc: Global, d: &ZPoly, b: &ZPoly, least: u16) -> Result<ZPolyList, Fail>
    requires some { 0 < length b.now }
    requires degrees { length b.now ≤ length d.now }
    requires small { length d.now ≤ 256 }
    requires dividend { 0 < length (spec.leading d.now) }
    requires divisor { 0 < length (spec.leading b.now) }
    ensures rule { Agrees result (spec.remainders d.now b.now least) }
    ensures within { (n : ℕ) → All (AllWithin n) d.now → All (AllWithin n) b.now → IfOk result (λ it. All (All (AllWithin n)) it) }
{
    let dividend = unwrapped(alloc, d.as_slice())?;
    let divisor = unwrapped(alloc, b.as_slice())?;
    let members = sequence(alloc, dividend, divisor, least)?;
    wrapped_members(alloc, members)
}
