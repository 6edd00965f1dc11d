//! The derivation of the lower three levels.

ghost use Rattle.std.specs.Prelude.{◌≡◌};
ghost use Rattle.risch_derivation.specs.Rates.{adjoined};

use super::{Levels, Lower, formed};
use crate::forms::HasForm;
use risch_derivation::{Derive, Rate};
use risch_field::Fail;
use std::alloc::{AllocError, Global};
use std::marker::Model;

/// The rates of the lower three levels.
pub(crate) struct LowerRates {
    rates: <Levels as Derive>::Rates,
}

// A call where a value ends, so that no proof over towers goes through the levels.
impl Drop for LowerRates {
    fn drop(self) {
        let LowerRates { rates: _ } = self;
    }
}

impl Model for LowerRates {
    ghost use Rattle.risch_derivation.specs.Derivation.{Rates};

    ghost Value = { Rates 3 };

    ghost view = { λ r. r.rates };
}

impl Derive for Lower {
    ghost use Rattle.risch_derivation.specs.Derivation.{derive};
    ghost use Rattle.risch_derivation.specs.Rates.{constants, adjoined};

    type Rates = LowerRates;

    ghost derivation = { derive 3 };

    ghost constants = { constants 3 };

    ghost adjoined = { adjoined 3 };

    fn derive(&self, alloc: Global, rates: &LowerRates) -> Result<Lower, Fail> {
        formed(self.levels.derive(alloc, &rates.rates))
    }

    fn constants() -> LowerRates {
        LowerRates {
            rates: Levels::constants(),
        }
    }

    fn adjoin(rates: &mut LowerRates, down: u8, rate: Rate<Lower>)
        ensures { rates.new ≡ adjoined 3 rates.old down rate }
    {
        let rate = Rate {
            kind: rate.kind,
            eta: rate.eta.into_opened(),
        };
        Levels::adjoin(&mut rates.rates, down, rate);
    }

    fn copy_rates(alloc: Global, rates: &LowerRates) -> Result<LowerRates, AllocError> {
        let rates = Levels::copy_rates(alloc, &rates.rates)?;
        Ok(LowerRates { rates })
    }
}
