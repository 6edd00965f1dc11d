//! Elements of a tower as seen at one of its levels: as numerators and denominators over the whole tower.

ghost use Rattle.std.specs.Prelude.{◌≡◌, ◌++◌, ◌+◌, ◌<◌, ◌≤◌, List, map, IfOk, OnOk};
ghost use Rattle.risch_field.specs.Checked.{Agrees};
ghost use Rattle.risch_level.specs.Tower as spec;
ghost use Rattle.risch_level.specs.Tower.{Levels};
ghost use Rattle.risch_level.specs.declared.over.Over.TheVariants.{Below};

use crate::over::{Over, below, normal_form};
use risch_field::{Arith, Fail};
use risch_frac::Frac;
use risch_polynomial::Poly;
use std::alloc::{AllocError, Global};

/// Appends p_0, p_1, .. as elements of the level above.
fn push_lifted<E: Arith>(alloc: Global, to: &mut Vec<Over<E>>, from: &[E]) -> Result<(), AllocError>
    ensures { OnOk result (to.new.items ≡ to.old.items ++ map Below from.now) }
{
    for item in from {
        let copy = item.copy(alloc)?;
        to.push(Over::Below(copy))?;
    }
    Ok(())
}

/// The same polynomial over the level above.
pub fn lifted<E: Arith>(alloc: Global, from: &Poly<E>) -> Result<Poly<Over<E>>, AllocError>
    ensures { IfOk result (λ it. it ≡ map Below from.now) }
{
    let mut coefficients = Vec::new(alloc);
    push_lifted(alloc, &mut coefficients, from.coefficients())?;
    let weight = from.kept_weight();
    Ok(Poly::kept(coefficients, weight))
}

/// Appends p_0, p_1, .. as elements of the field below.
fn push_lowered<E: Arith>(
    alloc: Global,
    to: &mut Vec<E>,
    from: &[Over<E>],
) -> Result<(), AllocError>
    ensures { OnOk result (to.new.items ≡ to.old.items ++ spec.lowered E.ops from.now) }
{
    for item in from {
        let copy = lowered_element(alloc, item)?;
        to.push(copy)?;
    }
    Ok(())
}

/// e, as an element of the field below; one that does not lie there gives 0.
pub fn lowered_element<E: Arith>(alloc: Global, element: &Over<E>) -> Result<E, AllocError>
    ensures { IfOk result (λ it. it ≡ spec.lowered_element E.ops element.now) }
{
    match element {
        Over::Below(value) => Ok(value.copy(alloc)?),
        Over::Quotient(_) => Ok(E::zero()),
    }
}

/// The polynomial over the field below.
fn formed_below<E: Arith>(alloc: Global, from: &Poly<Over<E>>) -> Result<Poly<E>, Fail>
    ensures { Agrees result (spec.formed_below E.ops from.now) }
{
    let mut coefficients = Vec::new(alloc);
    push_lowered(alloc, &mut coefficients, from.coefficients())?;
    Poly::from_coefficients(coefficients)
}

/// The numerator of e at its own level.
fn own_numerator<E: Arith>(alloc: Global, element: &Over<E>) -> Result<Poly<Over<E>>, AllocError>
    ensures { IfOk result (λ it. it ≡ spec.own_numerator E.ops element.now) }
{
    match element {
        Over::Below(value) => {
            if value.is_zero() {
                return Ok(Poly::zero(alloc));
            }
            let value = value.copy(alloc)?;
            Poly::constant(alloc, Over::Below(value))
        }
        Over::Quotient(ratio) => lifted(alloc, ratio.num()),
    }
}

/// A field of the tower, whose elements are seen at the level that many levels down.
pub trait Tower: Arith {
    ghost levels: { Levels Self };

    /// The numerator at the level `down` levels below the highest.
    fn numerator(&self, alloc: Global, down: u8) -> Result<Poly<Self>, AllocError>
        ensures { IfOk result (λ it. it ≡ levels.numerator down self.now) };

    /// n/m at that level, in normal form.
    fn quotient(alloc: Global, down: u8, num: &Poly<Self>, den: &Poly<Self>) -> Result<Self, Fail>
        ensures { Agrees result (levels.quotient down num.now den.now) };
}

impl Tower for Frac {
    ghost use Rattle.risch_level.specs.Tower.{ground_levels};

    ghost levels = { ground_levels };

    fn numerator(&self, alloc: Global, _down: u8) -> Result<Poly<Frac>, AllocError> {
        if (*self).is_zero() {
            return Ok(Poly::zero(alloc));
        }
        Poly::constant(alloc, *self)
    }

    fn quotient(
        _alloc: Global,
        _down: u8,
        _num: &Poly<Frac>,
        _den: &Poly<Frac>,
    ) -> Result<Frac, Fail> {
        Ok(<Frac as Arith>::zero())
    }
}

impl<E: Tower> Tower for Over<E> {
    ghost use Rattle.risch_level.specs.Tower.{levels_over};

    ghost levels = { levels_over E.ops E.levels };

    fn numerator(&self, alloc: Global, down: u8) -> Result<Poly<Over<E>>, AllocError> {
        if down == 0 {
            return own_numerator(alloc, self);
        }
        let element = lowered_element(alloc, self)?;
        let below = element.numerator(alloc, down - 1)?;
        lifted(alloc, &below)
    }

    #[tactic(auto, using(risch_field::proofs::CheckedSteps::stop_passes, risch_field::proofs::CheckedSteps::value_passes), unfolding(crate::specs::Tower::quotient_at))]
    fn quotient(
        alloc: Global,
        down: u8,
        num: &Poly<Over<E>>,
        den: &Poly<Over<E>>,
    ) -> Result<Over<E>, Fail> {
        let num = formed_below(alloc, num)?;
        let den = formed_below(alloc, den)?;
        if down == 0 {
            return normal_form(alloc, num, den);
        }
        below(E::quotient(alloc, down - 1, &num, &den))
    }
}
