//! The derivation of each field of the tower.

ghost use Rattle.std.specs.Prelude.{◌≡◌, ℕ, IfOk};
ghost use Rattle.risch_field.specs.Checked.{Checked, Agrees, map_ok};
ghost use Rattle.risch_level.specs.declared.over.Over.TheVariants.{Below};
ghost use Rattle.risch_level.specs.Tower.{lowered_element};
ghost use Rattle.risch_derivation.specs.Derivation as spec;
ghost use Rattle.risch_derivation.specs.Rates as rates_spec;
ghost use Rattle.risch_derivation.specs.declared.rate.Rate.{Rate};

use crate::polynomial::derive_polynomial;
use crate::rate::{Kind, Rate};
use risch_field::{Arith, Fail};
use risch_frac::Frac;
use risch_level::{Over, element, normal_form};
use risch_polynomial::Poly;
use std::alloc::{AllocError, Global};

/// A field of the tower, with its derivation D.
///
/// D is given by the rates of the field's levels: how the variable of each is derived.
pub trait Derive: Arith {
    /// The rates of the levels of the field.
    type Rates: Drop;

    ghost derivation: { Self.Rates → Self → Checked Self };

    ghost constants: { Self.Rates };

    ghost adjoined: { Self.Rates → ℕ → Rate Self → Self.Rates };

    /// De.
    ///
    /// Stops: that of the first value that cannot be formed.
    fn derive(&self, alloc: Global, rates: &Self::Rates) -> Result<Self, Fail>
        ensures { Agrees result (derivation rates.now self.now) };

    /// The rates by which D is 0.
    fn constants() -> Self::Rates
        ensures { result ≡ constants };

    /// Sets the rate of the level that many levels below the highest. An η that does not lie below that level counts as 0.
    fn adjoin(rates: &mut Self::Rates, down: u8, rate: Rate<Self>)
        ensures { rates.new ≡ adjoined rates.old down rate };

    /// The rates once more.
    fn copy_rates(alloc: Global, rates: &Self::Rates) -> Result<Self::Rates, AllocError>
        ensures { IfOk result (λ copy. copy ≡ rates.now) };
}

impl Derive for Frac {
    type Rates = ();

    ghost derivation = { spec.derive_ground };

    ghost constants = { tt };

    ghost adjoined = { λ rates _ _. rates };

    fn derive(&self, _alloc: Global, _rates: &()) -> Result<Frac, Fail> {
        Ok(<Frac as Arith>::zero())
    }

    fn constants() {}

    fn adjoin(_rates: &mut (), _down: u8, _rate: Rate<Frac>)
        ensures { _rates.new ≡ _rates.old }
    {}

    fn copy_rates(_alloc: Global, _rates: &()) -> Result<(), AllocError> {
        Ok(())
    }
}

/// Dn·m - n·Dm.
#[tactic(auto, using(risch_field::proofs::CheckedSteps::stop_passes, risch_field::proofs::CheckedSteps::value_passes), unfolding(crate::specs::Derivation::quotient_numerator))]
fn quotient_numerator<E: Derive>(
    alloc: Global,
    rates: &E::Rates,
    rate: &Rate<E>,
    num: &Poly<E>,
    den: &Poly<E>,
) -> Result<Poly<E>, Fail>
    ensures { Agrees result (spec.quotient_numerator E.ops (E.derivation rates.now) rate.now num.now den.now) }
{
    let derived = derive_polynomial(alloc, rates, rate, num)?;
    let left = derived.mul(alloc, den)?;
    let derived = derive_polynomial(alloc, rates, rate, den)?;
    let right = num.mul(alloc, &derived)?;
    left.add(alloc, &right.neg(alloc)?)
}

/// D(n/m), which is the normal form of (Dn·m - n·Dm)/m^2, and Dn where m = 1.
#[tactic(auto, using(risch_field::proofs::CheckedSteps::stop_passes, risch_field::proofs::CheckedSteps::value_passes), unfolding(crate::specs::Derivation::derive_quotient))]
fn derive_quotient<E: Derive>(
    alloc: Global,
    rates: &E::Rates,
    rate: &Rate<E>,
    num: &Poly<E>,
    den: &Poly<E>,
) -> Result<Over<E>, Fail>
    ensures { Agrees result (spec.derive_quotient E.ops (E.derivation rates.now) rate.now num.now den.now) }
{
    if den.is_one() {
        let derived = derive_polynomial(alloc, rates, rate, num)?;
        return element(derived, den.copy(alloc)?);
    }
    let top = quotient_numerator(alloc, rates, rate, num, den)?;
    let bottom = den.mul(alloc, den)?;
    normal_form(alloc, top, bottom)
}

/// The derivative of an element of the field below as an element of the level.
fn below<E: Arith>(derivative: Result<E, Fail>) -> Result<Over<E>, Fail>
    ensures { result ≡ map_ok Below derivative }
{
    match derivative {
        Ok(value) => Ok(Over::Below(value)),
        Err(fail) => Err(fail),
    }
}

/// e, as an element of the field below; one that does not lie there counts as 0.
fn lowered<E: Arith>(element: Over<E>) -> E
    ensures { result ≡ lowered_element E.ops element }
{
    match element {
        Over::Below(value) => value,
        Over::Quotient(_) => E::zero(),
    }
}

/// The rate whose η is that element of the field below.
fn lowered_rate<E: Arith>(rate: Rate<Over<E>>) -> Rate<E>
    ensures { result ≡ rates_spec.lowered_rate E.ops rate }
{
    Rate {
        kind: rate.kind,
        eta: lowered(rate.eta),
    }
}

impl<E: Derive> Derive for Over<E> {
    type Rates = (E::Rates, Rate<E>);

    ghost derivation = { λ rates. spec.derive_over E.ops (E.derivation rates.0) rates.1 };

    ghost constants = { (E.constants, rates_spec.constant_rate E.ops) };

    ghost adjoined = { rates_spec.adjoined_over E.ops E.adjoined };

    fn derive(&self, alloc: Global, rates: &(E::Rates, Rate<E>)) -> Result<Over<E>, Fail> {
        match self {
            Over::Below(e) => below(e.derive(alloc, &rates.0)),
            Over::Quotient(ratio) => {
                derive_quotient(alloc, &rates.0, &rates.1, ratio.num(), ratio.den())
            }
        }
    }

    fn constants() -> (E::Rates, Rate<E>) {
        let rate = Rate {
            kind: Kind::Primitive,
            eta: E::zero(),
        };
        (E::constants(), rate)
    }

    fn adjoin(rates: &mut (E::Rates, Rate<E>), down: u8, rate: Rate<Over<E>>)
        ensures { rates.new ≡ rates_spec.adjoined_over E.ops E.adjoined rates.old down rate }
    {
        let rate = lowered_rate(rate);
        if down == 0 {
            rates.1 = rate;
        } else {
            E::adjoin(&mut rates.0, down - 1, rate);
        }
    }

    fn copy_rates(
        alloc: Global,
        rates: &(E::Rates, Rate<E>),
    ) -> Result<(E::Rates, Rate<E>), AllocError> {
        let below = E::copy_rates(alloc, &rates.0)?;
        let rate = rates.1.copy(alloc)?;
        Ok((below, rate))
    }
}
