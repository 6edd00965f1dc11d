//! Fractions and variables as elements of the lower three levels, and the level of an element.

ghost use Rattle.std.specs.Prelude.{◌≡◌, ◌<◌, IfOk};
ghost use Rattle.risch_level.specs.Accessors as spec;

use super::Lower;
use crate::lowest::Lowest;
use risch_frac::Frac;
use risch_level::{Over, variable};
use std::alloc::{AllocError, Global};

impl Lower {
    /// The fraction as an element.
    pub(crate) fn number(fraction: Frac) -> Lower
        ensures { result ≡ spec.number 3 fraction }
    {
        let levels = Over::Below(Over::Below(Lowest::number(fraction)));
        Lower { levels }
    }

    /// The fraction that the element is, where it is one.
    pub(crate) fn as_number(&self) -> Option<Frac>
        ensures { result ≡ spec.as_number 3 self.now }
    {
        match &self.levels {
            Over::Below(Over::Below(lowest)) => lowest.as_number(),
            _ => None,
        }
    }

    /// The level of the element; a fraction has none.
    pub(crate) fn level(&self) -> Option<u8>
        ensures { result ≡ spec.level 3 self.now }
    {
        match &self.levels {
            Over::Quotient(_) => Some(2),
            Over::Below(Over::Quotient(_)) => Some(1),
            Over::Below(Over::Below(lowest)) => lowest.level(),
        }
    }

    /// The variable of a level.
    pub(crate) fn variable(alloc: Global, level: u8) -> Result<Lower, AllocError>
        requires { level < 3 }
        ensures { IfOk result (λ it. it ≡ spec.variable 3 level) }
    {
        let levels = match level {
            2 => variable(alloc)?,
            1 => Over::Below(variable(alloc)?),
            _ => Over::Below(Over::Below(Lowest::variable(alloc)?)),
        };
        Ok(Lower { levels })
    }
}
