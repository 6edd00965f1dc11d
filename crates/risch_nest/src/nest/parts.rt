//! Numerators, denominators and quotients at a level.

ghost use Rattle.std.specs.Prelude.{◌≡◌, ◌-◌, ◌<◌, IfOk};
ghost use Rattle.risch_field.specs.Checked.{Agrees};
ghost use Rattle.risch_level.specs.Parts.{levels, denominator};

use super::{Levels, Nest, formed};
use crate::forms::{self, unwrapped};
use risch_field::Fail;
use risch_level::{Denominator, Tower};
use risch_polynomial::Poly;
use std::alloc::{AllocError, Global};

/// The same polynomial.
fn wrapped(alloc: Global, from: Poly<Levels>) -> Result<Poly<Nest>, AllocError>
    ensures { IfOk result (λ it. it ≡ from) }
{
    forms::wrapped(alloc, from)
}

impl Nest {
    /// The numerator at a level, from 0 for x to 4; 0 for an element above the level.
    ///
    /// `Err` for want of memory alone.
    pub fn numerator(&self, alloc: Global, level: u8) -> Result<Poly<Nest>, AllocError>
        requires { level < 5 }
        ensures { IfOk result (λ it. it ≡ (levels 5).numerator (4 - level) self.now) }
    {
        let numerator = self.levels.numerator(alloc, 4 - level)?;
        wrapped(alloc, numerator)
    }

    /// The denominator at a level, from 0 for x to 4; 1 for an element above the level.
    ///
    /// `Err` for want of memory alone.
    pub fn denominator(&self, alloc: Global, level: u8) -> Result<Poly<Nest>, AllocError>
        requires { level < 5 }
        ensures { IfOk result (λ it. it ≡ denominator 5 (4 - level) self.now) }
    {
        let denominator = self.levels.denominator(alloc, 4 - level)?;
        wrapped(alloc, denominator)
    }

    /// n/m at a level, from 0 for x to 4, in normal form.
    ///
    /// Stops: those of the normal form.
    pub fn quotient(
        alloc: Global,
        level: u8,
        num: Poly<Nest>,
        den: Poly<Nest>,
    ) -> Result<Nest, Fail>
        requires { level < 5 }
        ensures { Agrees result ((levels 5).quotient (4 - level) num den) }
    {
        let num = unwrapped(alloc, num)?;
        let den = unwrapped(alloc, den)?;
        formed(Levels::quotient(alloc, 4 - level, &num, &den))
    }
}
