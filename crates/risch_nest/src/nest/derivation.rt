//! The derivation of the field.

ghost use Rattle.std.specs.Prelude.{◌≡◌};
ghost use Rattle.risch_element_theory.specs.ElementDerivation.{element_adjoined};

use super::{Levels, Nest, formed};
use crate::forms::HasForm;
use risch_derivation::{Derive, Rate};
use risch_field::Fail;
use std::alloc::{AllocError, Global};
use std::marker::Model;

/// The rates of the five levels.
pub struct NestRates {
    rates: <Levels as Derive>::Rates,
}

// A call where a value ends, so that no proof over towers goes through the levels.
impl Drop for NestRates {
    fn drop(self) {
        let NestRates { rates: _ } = self;
    }
}

impl Model for NestRates {
    ghost use Rattle.risch_derivation.specs.Derivation.{Rates};

    ghost Value = { Rates 5 };

    ghost view = { λ r. r.rates };
}

impl Derive for Nest {
    ghost use Rattle.risch_element_theory.specs.ElementDerivation.{derive_element, element_constants, element_adjoined};

    type Rates = NestRates;

    ghost derivation = { derive_element };

    ghost constants = { element_constants };

    ghost adjoined = { element_adjoined };

    #[tactic(auto, unfolding(risch_element_theory::specs::ElementDerivation::derive_element))]
    fn derive(&self, alloc: Global, rates: &NestRates) -> Result<Nest, Fail> {
        formed(self.levels.derive(alloc, &rates.rates))
    }

    #[tactic(auto, unfolding(risch_element_theory::specs::ElementDerivation::element_constants))]
    fn constants() -> NestRates {
        NestRates {
            rates: Levels::constants(),
        }
    }

    #[tactic(auto, unfolding(risch_element_theory::specs::ElementDerivation::element_adjoined))]
    fn adjoin(rates: &mut NestRates, down: u8, rate: Rate<Nest>)
        ensures { rates.new ≡ element_adjoined rates.old down rate }
    {
        let rate = Rate {
            kind: rate.kind,
            eta: rate.eta.into_opened(),
        };
        Levels::adjoin(&mut rates.rates, down, rate);
    }

    fn copy_rates(alloc: Global, rates: &NestRates) -> Result<NestRates, AllocError> {
        let rates = Levels::copy_rates(alloc, &rates.rates)?;
        Ok(NestRates { rates })
    }
}
