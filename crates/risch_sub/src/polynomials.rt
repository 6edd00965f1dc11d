//! Lists of polynomials over the elements.

ghost use Rattle.std.specs.Prelude.{◌≡◌, All, IfOk, Ok};
ghost use Rattle.risch_field.specs.Checked.{Agrees};
ghost use Rattle.risch_element_theory.specs.WholeTower.{IsPolynomial};

use risch_elem::{Elem, Fail, Items, Poly, PolyList};
use std::alloc::{AllocError, Global};

/// A polynomial over the elements by the arithmetic that is whole over every field.
pub type Inner = risch_polynomial::Poly<Elem>;

/// The same polynomials, whose coefficients are in normal form.
pub(crate) fn wrapped(alloc: Global, from: Items<Inner>) -> Result<PolyList, Fail>
    requires { All IsPolynomial from }
    ensures { Agrees result (Ok from) }
{
    let mut to = Items::new(alloc);
    for inner in from.into_vec() {
        to.push(Poly::kept(inner))?;
    }
    Ok(to)
}

/// The same polynomials by the arithmetic that is whole over every field.
pub(crate) fn unwrapped(alloc: Global, from: &[Poly]) -> Result<Items<Inner>, AllocError>
    ensures value { IfOk result (λ it. it ≡ from.now) }
    ensures normal { IfOk result (λ it. All IsPolynomial it) }
{
    let mut to = Items::new(alloc);
    for poly in from {
        to.push(poly.inner().copy(alloc)?)?;
    }
    Ok(to)
}
