//! Fractions and variables as elements, and the level of an element.

ghost use Rattle.std.specs.Prelude.{◌≡◌, ◌<◌, IfOk};
ghost use Rattle.risch_level.specs.Accessors as spec;

use super::Nest;
use crate::lower::Lower;
use risch_frac::Frac;
use risch_level::{Over, variable};
use std::alloc::{AllocError, Global};

impl Nest {
    /// The fraction as an element.
    pub fn number(fraction: Frac) -> Nest
        ensures { result ≡ spec.number 5 fraction }
    {
        let levels = Over::Below(Over::Below(Lower::number(fraction)));
        Nest { levels }
    }

    /// The fraction that the element is; `None` for an element of some level.
    pub fn as_number(&self) -> Option<Frac>
        ensures { result ≡ spec.as_number 5 self.now }
    {
        match &self.levels {
            Over::Below(Over::Below(lower)) => lower.as_number(),
            _ => None,
        }
    }

    /// The level of the element, from 0 for x to 4; a fraction has none.
    pub fn level(&self) -> Option<u8>
        ensures { result ≡ spec.level 5 self.now }
    {
        match &self.levels {
            Over::Quotient(_) => Some(4),
            Over::Below(Over::Quotient(_)) => Some(3),
            Over::Below(Over::Below(lower)) => lower.level(),
        }
    }

    /// The variable of a level, from 0 for x to 4.
    ///
    /// `Err` for want of memory alone.
    pub fn variable(alloc: Global, level: u8) -> Result<Nest, AllocError>
        requires { level < 5 }
        ensures { IfOk result (λ it. it ≡ spec.variable 5 level) }
    {
        let levels = match level {
            4 => variable(alloc)?,
            3 => Over::Below(variable(alloc)?),
            _ => Over::Below(Over::Below(Lower::variable(alloc, level)?)),
        };
        Ok(Nest { levels })
    }
}
