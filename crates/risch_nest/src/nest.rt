//! An element of the field of five levels, and the field's operations.

ghost use Rattle.std.specs.Prelude.{◌≡◌};

mod derivation;
mod numbers;
mod parts;

use crate::forms::HasForm;
use crate::lower::Lower;
pub use derivation::NestRates;
use risch_field::{Arith, Fail};
use risch_level::Over;
use std::alloc::{AllocError, Global};
use std::marker::Model;

/// The upper two levels over the lower three.
type Levels = Over<Over<Lower>>;

/// An element of Q(x)(t1)..(t4), by the rules `element`.
pub struct Nest {
    levels: Levels,
}

// A call where a value ends, so that no proof over elements goes through the levels.
impl Drop for Nest {
    fn drop(self) {
        let Nest { levels: _ } = self;
    }
}

impl Model for Nest {
    ghost use Rattle.risch_level.specs.Levels.{Element};

    ghost Value = { Element };

    ghost view = { λ n. n.levels };
}

impl HasForm for Nest {
    ghost use Rattle.std.proofs.Common.{sym};
    ghost use Rattle.std.proofs.lemmas.List.{map-id};
    ghost use Rattle.risch_nest.specs.Kept.{element_polynomial, levels_polynomial};

    type Form = Levels;

    ghost of = { λ l. l };

    ghost opened = { λ l. l };

    ghost all_of = { λ p. p };

    ghost all_opened = { λ p. p };

    fn of(levels: Levels) -> Nest {
        Nest { levels }
    }

    fn opened(&self) -> &Levels {
        &self.levels
    }

    fn into_opened(self) -> Levels {
        let Nest { levels } = self;
        levels
    }

    ghost all_of_is = { λ p. sym (map-id p) };

    ghost all_opened_is = { λ p. sym (map-id p) };

    ghost all_of_kept = { element_polynomial };

    ghost all_opened_kept = { levels_polynomial };
}

/// The answer of the five levels as one of the field.
fn formed(levels: Result<Levels, Fail>) -> Result<Nest, Fail>
    ensures { result ≡ levels }
{
    match levels {
        Ok(levels) => Ok(Nest { levels }),
        Err(fail) => Err(fail),
    }
}

impl Arith for Nest {
    ghost use Rattle.risch_level.specs.Levels.{element};
    ghost use Rattle.risch_level.specs.Laws.{element_keeps_negatives, element_has_wholes};

    ghost ops = { element };

    ghost keeps_negatives = { element_keeps_negatives };

    ghost has_wholes = { element_has_wholes };

    #[tactic(auto, unfolding(risch_level::specs::Levels::element))]
    fn zero() -> Nest {
        let levels = Levels::zero();
        Nest { levels }
    }

    #[tactic(auto, unfolding(risch_level::specs::Levels::element))]
    fn one() -> Nest {
        let levels = Levels::one();
        Nest { levels }
    }

    #[tactic(auto, unfolding(risch_level::specs::Levels::element))]
    fn whole(n: u16) -> Nest {
        let levels = Levels::whole(n);
        Nest { levels }
    }

    #[tactic(auto, unfolding(risch_level::specs::Levels::element))]
    fn is_zero(&self) -> bool {
        self.levels.is_zero()
    }

    #[tactic(auto, unfolding(risch_level::specs::Levels::element))]
    fn is_one(&self) -> bool {
        self.levels.is_one()
    }

    #[tactic(auto, unfolding(risch_level::specs::Levels::element))]
    fn same(&self, other: &Nest) -> bool {
        self.levels.same(&other.levels)
    }

    #[tactic(auto, unfolding(risch_level::specs::Levels::element))]
    fn weight(&self) -> u32 {
        self.levels.weight()
    }

    #[tactic(auto, unfolding(risch_level::specs::Levels::element))]
    fn copy(&self, alloc: Global) -> Result<Nest, AllocError> {
        let levels = self.levels.copy(alloc)?;
        Ok(Nest { levels })
    }

    #[tactic(auto, unfolding(risch_level::specs::Levels::element))]
    fn neg(&self, alloc: Global) -> Result<Nest, AllocError> {
        let levels = self.levels.neg(alloc)?;
        Ok(Nest { levels })
    }

    #[tactic(auto, unfolding(risch_level::specs::Levels::element))]
    fn add(&self, alloc: Global, other: &Nest) -> Result<Nest, Fail> {
        formed(self.levels.add(alloc, &other.levels))
    }

    #[tactic(auto, unfolding(risch_level::specs::Levels::element))]
    fn mul(&self, alloc: Global, other: &Nest) -> Result<Nest, Fail> {
        formed(self.levels.mul(alloc, &other.levels))
    }

    #[tactic(auto, unfolding(risch_level::specs::Levels::element))]
    fn div(&self, alloc: Global, other: &Nest) -> Result<Nest, Fail> {
        formed(self.levels.div(alloc, &other.levels))
    }
}
