//! The derivation of the lowest level.

ghost use Rattle.std.specs.Prelude.{◌≡◌};
ghost use Rattle.risch_derivation.specs.Rates.{adjoined};

use super::{Level, Lowest, formed};
use crate::forms::HasForm;
use risch_derivation::{Derive, Rate};
use risch_field::Fail;
use std::alloc::{AllocError, Global};
use std::marker::Model;

/// The rate of the lowest level.
pub(crate) struct LowestRates {
    rates: <Level as Derive>::Rates,
}

// A call where a value ends, so that no proof over towers goes through the level.
impl Drop for LowestRates {
    fn drop(self) {
        let LowestRates { rates: _ } = self;
    }
}

impl Model for LowestRates {
    ghost use Rattle.risch_derivation.specs.Derivation.{Rates};

    ghost Value = { Rates 1 };

    ghost view = { λ r. r.rates };
}

impl Derive for Lowest {
    ghost use Rattle.risch_derivation.specs.Derivation.{derive};
    ghost use Rattle.risch_derivation.specs.Rates.{constants, adjoined};

    type Rates = LowestRates;

    ghost derivation = { derive 1 };

    ghost constants = { constants 1 };

    ghost adjoined = { adjoined 1 };

    fn derive(&self, alloc: Global, rates: &LowestRates) -> Result<Lowest, Fail> {
        formed(self.level.derive(alloc, &rates.rates))
    }

    fn constants() -> LowestRates {
        LowestRates {
            rates: Level::constants(),
        }
    }

    fn adjoin(rates: &mut LowestRates, down: u8, rate: Rate<Lowest>)
        ensures { rates.new ≡ adjoined 1 rates.old down rate }
    {
        let rate = Rate {
            kind: rate.kind,
            eta: rate.eta.into_opened(),
        };
        Level::adjoin(&mut rates.rates, down, rate);
    }

    fn copy_rates(alloc: Global, rates: &LowestRates) -> Result<LowestRates, AllocError> {
        let rates = Level::copy_rates(alloc, &rates.rates)?;
        Ok(LowestRates { rates })
    }
}
