//! Fractions and the variable x as elements of the lowest level, and the level of an element.

ghost use Rattle.std.specs.Prelude.{◌≡◌, IfOk};
ghost use Rattle.risch_level.specs.Accessors as spec;

use super::Lowest;
use risch_frac::Frac;
use risch_level::{Over, variable};
use std::alloc::{AllocError, Global};

impl Lowest {
    /// The fraction as an element.
    pub(crate) fn number(fraction: Frac) -> Lowest
        ensures { result ≡ spec.number 1 fraction }
    {
        let level = Over::Below(fraction);
        Lowest { level }
    }

    /// The fraction that the element is, where it is one.
    pub(crate) fn as_number(&self) -> Option<Frac>
        ensures { result ≡ spec.as_number 1 self.now }
    {
        match &self.level {
            Over::Below(fraction) => Some(*fraction),
            Over::Quotient(_) => None,
        }
    }

    /// The level of the element; a fraction has none.
    pub(crate) fn level(&self) -> Option<u8>
        ensures { result ≡ spec.level 1 self.now }
    {
        match &self.level {
            Over::Below(_) => None,
            Over::Quotient(_) => Some(0),
        }
    }

    /// The variable x.
    pub(crate) fn variable(alloc: Global) -> Result<Lowest, AllocError>
        ensures { IfOk result (λ it. it ≡ spec.variable 1 0) }
    {
        let level = variable(alloc)?;
        Ok(Lowest { level })
    }
}
