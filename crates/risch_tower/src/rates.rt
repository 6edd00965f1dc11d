//! The rates of the levels of a tower, over the field of five levels.

ghost use Rattle.std.specs.Prelude.{◌≡◌};
ghost use Rattle.risch_element_theory.specs.WholeTower.{IsElement};
ghost use Rattle.risch_element_theory.specs.ElementDerivation.{element_adjoined};

use risch_derivation::{Derive, Rate};
use risch_elem::Elem;
use risch_nest::{Nest, NestRates};

/// The rate over the field of five levels.
pub(crate) fn opened(rate: Rate<Elem>) -> Rate<Nest>
    ensures value { result ≡ rate }
    ensures normal { IsElement rate.eta }
{
    Rate {
        kind: rate.kind,
        eta: rate.eta.into_nest(),
    }
}

/// Sets the rate of the level that many levels below the highest.
pub(crate) fn adjoin(rates: &mut NestRates, down: u8, rate: Rate<Elem>)
    ensures { rates.new ≡ element_adjoined rates.old down rate }
{
    Nest::adjoin(rates, down, opened(rate));
}
