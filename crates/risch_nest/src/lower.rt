//! The field of the lower three levels, and its operations.

ghost use Rattle.std.specs.Prelude.{◌≡◌};

mod derivation;
mod numbers;
mod parts;

use crate::forms::HasForm;
use crate::lowest::Lowest;
pub(crate) use derivation::LowerRates;
use risch_field::{Arith, Fail};
use risch_level::Over;
use std::alloc::{AllocError, Global};
use std::marker::Model;

/// The two levels of t1 and t2 over that of x.
type Levels = Over<Over<Lowest>>;

/// An element of Q(x)(t1)(t2), by the rules `field 3`.
pub(crate) struct Lower {
    levels: Levels,
}

// A call where a value ends, so that no proof over elements goes through the levels.
impl Drop for Lower {
    fn drop(self) {
        let Lower { levels: _ } = self;
    }
}

impl Model for Lower {
    ghost use Rattle.risch_level.specs.Levels.{Field};

    ghost Value = { Field 3 };

    ghost view = { λ l. l.levels };
}

impl HasForm for Lower {
    ghost use Rattle.std.proofs.Common.{sym};
    ghost use Rattle.std.proofs.lemmas.List.{map-id};

    type Form = Levels;

    ghost of = { λ l. l };

    ghost opened = { λ l. l };

    ghost all_of = { λ p. p };

    ghost all_opened = { λ p. p };

    fn of(levels: Levels) -> Lower {
        Lower { levels }
    }

    fn opened(&self) -> &Levels {
        &self.levels
    }

    fn into_opened(self) -> Levels {
        let Lower { levels } = self;
        levels
    }

    ghost all_of_is = { λ p. sym (map-id p) };

    ghost all_opened_is = { λ p. sym (map-id p) };

    ghost all_of_kept = { λ p w is. is };

    ghost all_opened_kept = { λ p w is. is };
}

/// The answer of the lower three levels as one of the field.
fn formed(levels: Result<Levels, Fail>) -> Result<Lower, Fail>
    ensures { result ≡ levels }
{
    match levels {
        Ok(levels) => Ok(Lower { levels }),
        Err(fail) => Err(fail),
    }
}

impl Arith for Lower {
    ghost use Rattle.risch_level.specs.Levels.{field};
    ghost use Rattle.risch_level.specs.Laws.{field_keeps_negatives, field_has_wholes};

    ghost ops = { field 3 };

    ghost keeps_negatives = { field_keeps_negatives 3 };

    ghost has_wholes = { field_has_wholes 3 };

    fn zero() -> Lower {
        let levels = Levels::zero();
        Lower { levels }
    }

    fn one() -> Lower {
        let levels = Levels::one();
        Lower { levels }
    }

    fn whole(n: u16) -> Lower {
        let levels = Levels::whole(n);
        Lower { levels }
    }

    fn is_zero(&self) -> bool {
        self.levels.is_zero()
    }

    fn is_one(&self) -> bool {
        self.levels.is_one()
    }

    fn same(&self, other: &Lower) -> bool {
        self.levels.same(&other.levels)
    }

    fn weight(&self) -> u32 {
        self.levels.weight()
    }

    fn copy(&self, alloc: Global) -> Result<Lower, AllocError> {
        let levels = self.levels.copy(alloc)?;
        Ok(Lower { levels })
    }

    fn neg(&self, alloc: Global) -> Result<Lower, AllocError> {
        let levels = self.levels.neg(alloc)?;
        Ok(Lower { levels })
    }

    fn add(&self, alloc: Global, other: &Lower) -> Result<Lower, Fail> {
        formed(self.levels.add(alloc, &other.levels))
    }

    fn mul(&self, alloc: Global, other: &Lower) -> Result<Lower, Fail> {
        formed(self.levels.mul(alloc, &other.levels))
    }

    fn div(&self, alloc: Global, other: &Lower) -> Result<Lower, Fail> {
        formed(self.levels.div(alloc, &other.levels))
    }
}
