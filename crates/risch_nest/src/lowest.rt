//! The field of the lowest level, and its operations.

ghost use Rattle.std.specs.Prelude.{◌≡◌};

mod derivation;
mod numbers;
mod parts;

use crate::forms::HasForm;
pub(crate) use derivation::LowestRates;
use risch_field::{Arith, Fail};
use risch_frac::Frac;
use risch_level::Over;
use std::alloc::{AllocError, Global};
use std::marker::Model;

/// The level of x over the fractions.
type Level = Over<Frac>;

/// An element of Q(x), by the rules `field 1`.
pub(crate) struct Lowest {
    level: Level,
}

// A call where a value ends, so that no proof over elements goes through the level.
impl Drop for Lowest {
    fn drop(self) {
        let Lowest { level: _ } = self;
    }
}

impl Model for Lowest {
    ghost use Rattle.risch_level.specs.Levels.{Field};

    ghost Value = { Field 1 };

    ghost view = { λ l. l.level };
}

impl HasForm for Lowest {
    ghost use Rattle.std.proofs.Common.{sym};
    ghost use Rattle.std.proofs.lemmas.List.{map-id};

    type Form = Level;

    ghost of = { λ l. l };

    ghost opened = { λ l. l };

    ghost all_of = { λ p. p };

    ghost all_opened = { λ p. p };

    fn of(level: Level) -> Lowest {
        Lowest { level }
    }

    fn opened(&self) -> &Level {
        &self.level
    }

    fn into_opened(self) -> Level {
        let Lowest { level } = self;
        level
    }

    ghost all_of_is = { λ p. sym (map-id p) };

    ghost all_opened_is = { λ p. sym (map-id p) };

    ghost all_of_kept = { λ p w is. is };

    ghost all_opened_kept = { λ p w is. is };
}

/// The answer of the level as one of the field.
fn formed(level: Result<Level, Fail>) -> Result<Lowest, Fail>
    ensures { result ≡ level }
{
    match level {
        Ok(level) => Ok(Lowest { level }),
        Err(fail) => Err(fail),
    }
}

impl Arith for Lowest {
    ghost use Rattle.risch_level.specs.Levels.{field};
    ghost use Rattle.risch_level.specs.Laws.{field_keeps_negatives, field_has_wholes};

    ghost ops = { field 1 };

    ghost keeps_negatives = { field_keeps_negatives 1 };

    ghost has_wholes = { field_has_wholes 1 };

    fn zero() -> Lowest {
        let level = Level::zero();
        Lowest { level }
    }

    fn one() -> Lowest {
        let level = Level::one();
        Lowest { level }
    }

    fn whole(n: u16) -> Lowest {
        let level = Level::whole(n);
        Lowest { level }
    }

    fn is_zero(&self) -> bool {
        self.level.is_zero()
    }

    fn is_one(&self) -> bool {
        self.level.is_one()
    }

    fn same(&self, other: &Lowest) -> bool {
        self.level.same(&other.level)
    }

    fn weight(&self) -> u32 {
        self.level.weight()
    }

    fn copy(&self, alloc: Global) -> Result<Lowest, AllocError> {
        let level = self.level.copy(alloc)?;
        Ok(Lowest { level })
    }

    fn neg(&self, alloc: Global) -> Result<Lowest, AllocError> {
        let level = self.level.neg(alloc)?;
        Ok(Lowest { level })
    }

    fn add(&self, alloc: Global, other: &Lowest) -> Result<Lowest, Fail> {
        formed(self.level.add(alloc, &other.level))
    }

    fn mul(&self, alloc: Global, other: &Lowest) -> Result<Lowest, Fail> {
        formed(self.level.mul(alloc, &other.level))
    }

    fn div(&self, alloc: Global, other: &Lowest) -> Result<Lowest, Fail> {
        formed(self.level.div(alloc, &other.level))
    }
}
