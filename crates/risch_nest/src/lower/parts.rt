//! Numerators, denominators and quotients at one of the lower three levels.

ghost use Rattle.std.specs.Prelude.{◌≡◌, IfOk};

use super::{Levels, Lower, formed};
use crate::forms::{self, copied};
use risch_field::Fail;
use risch_level::{Denominator, Tower};
use risch_polynomial::Poly;
use std::alloc::{AllocError, Global};

/// The same polynomial.
fn wrapped(alloc: Global, from: Poly<Levels>) -> Result<Poly<Lower>, AllocError>
    ensures { IfOk result (λ it. it ≡ from) }
{
    forms::wrapped(alloc, from)
}

impl Tower for Lower {
    ghost use Rattle.risch_level.specs.Parts.{levels};

    ghost levels = { levels 3 };

    fn numerator(&self, alloc: Global, down: u8) -> Result<Poly<Lower>, AllocError> {
        let numerator = self.levels.numerator(alloc, down)?;
        wrapped(alloc, numerator)
    }

    fn quotient(
        alloc: Global,
        down: u8,
        num: &Poly<Lower>,
        den: &Poly<Lower>,
    ) -> Result<Lower, Fail> {
        let num = copied(alloc, num)?;
        let den = copied(alloc, den)?;
        formed(Levels::quotient(alloc, down, &num, &den))
    }
}

impl Denominator for Lower {
    ghost use Rattle.risch_level.specs.Parts.{denominator};

    ghost denominators = { denominator 3 };

    fn denominator(&self, alloc: Global, down: u8) -> Result<Poly<Lower>, AllocError> {
        let denominator = self.levels.denominator(alloc, down)?;
        wrapped(alloc, denominator)
    }
}
