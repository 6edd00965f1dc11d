//! Polynomials over the elements of a tower as polynomials over the field of five levels.

ghost use Rattle.std.specs.Prelude.{◌≡◌, IfOk};
ghost use Rattle.risch_element_theory.specs.WholeTower.{IsPolynomial};

use crate::parts::{unwrapped, wrapped};
use crate::polynomial::Poly;
use risch_nest::Nest;
use std::alloc::{AllocError, Global};

impl Poly {
    /// The same polynomial over the field of five levels.
    ///
    /// `Err` for want of memory alone.
    pub fn nested(&self, alloc: Global) -> Result<risch_polynomial::Poly<Nest>, AllocError>
        ensures value { IfOk result (λ it. it ≡ self.now) }
        ensures normal { IsPolynomial self.now }
    {
        unwrapped(alloc, self)
    }

    /// The polynomial over the field of five levels whose coefficients are in normal form.
    ///
    /// `Err` for want of memory alone.
    pub fn of_nested(
        alloc: Global,
        nested: risch_polynomial::Poly<Nest>,
    ) -> Result<Poly, AllocError>
        requires { IsPolynomial nested }
        ensures { IfOk result (λ it. it ≡ nested) }
    {
        wrapped(alloc, nested)
    }
}
