//! Numerators, denominators and quotients at the lowest level.

ghost use Rattle.std.specs.Prelude.{◌≡◌, IfOk};

use super::{Level, Lowest, formed};
use crate::forms::{self, copied};
use risch_field::Fail;
use risch_level::{Denominator, Tower};
use risch_polynomial::Poly;
use std::alloc::{AllocError, Global};

/// The same polynomial.
fn wrapped(alloc: Global, from: Poly<Level>) -> Result<Poly<Lowest>, AllocError>
    ensures { IfOk result (λ it. it ≡ from) }
{
    forms::wrapped(alloc, from)
}

impl Tower for Lowest {
    ghost use Rattle.risch_level.specs.Parts.{levels};

    ghost levels = { levels 1 };

    fn numerator(&self, alloc: Global, down: u8) -> Result<Poly<Lowest>, AllocError> {
        let numerator = self.level.numerator(alloc, down)?;
        wrapped(alloc, numerator)
    }

    fn quotient(
        alloc: Global,
        down: u8,
        num: &Poly<Lowest>,
        den: &Poly<Lowest>,
    ) -> Result<Lowest, Fail> {
        let num = copied(alloc, num)?;
        let den = copied(alloc, den)?;
        formed(Level::quotient(alloc, down, &num, &den))
    }
}

impl Denominator for Lowest {
    ghost use Rattle.risch_level.specs.Parts.{denominator};

    ghost denominators = { denominator 1 };

    fn denominator(&self, alloc: Global, down: u8) -> Result<Poly<Lowest>, AllocError> {
        let denominator = self.level.denominator(alloc, down)?;
        wrapped(alloc, denominator)
    }
}
