//! Denominators of elements of a tower as seen at one of its levels.

ghost use Rattle.std.specs.Prelude.{◌≡◌, ℕ, List, IfOk};
ghost use Rattle.risch_level.specs.Parts as spec;

use crate::over::Over;
use crate::tower::{lifted, lowered_element};
use risch_field::Arith;
use risch_frac::Frac;
use risch_polynomial::Poly;
use std::alloc::{AllocError, Global};

/// The denominator of e at its own level.
fn own_denominator<E: Arith>(alloc: Global, element: &Over<E>) -> Result<Poly<Over<E>>, AllocError>
    ensures { IfOk result (λ it. it ≡ spec.own_denominator E.ops element.now) }
{
    match element {
        Over::Below(_) => Poly::one(alloc),
        Over::Quotient(ratio) => lifted(alloc, &ratio.den),
    }
}

/// A field of the tower, whose elements have denominators at the level that many levels down.
pub trait Denominator: Arith {
    ghost denominators: { ℕ → Self → List Self };

    /// The denominator at the level `down` levels below the highest.
    fn denominator(&self, alloc: Global, down: u8) -> Result<Poly<Self>, AllocError>
        ensures { IfOk result (λ it. it ≡ denominators down self.now) };
}

impl Denominator for Frac {
    ghost use Rattle.risch_level.specs.Parts.{ground_denominator};

    ghost denominators = { ground_denominator };

    fn denominator(&self, alloc: Global, _down: u8) -> Result<Poly<Frac>, AllocError> {
        Poly::one(alloc)
    }
}

impl<E: Denominator> Denominator for Over<E> {
    ghost use Rattle.risch_level.specs.Parts.{denominator_at};

    ghost denominators = { denominator_at E.ops E.denominators };

    fn denominator(&self, alloc: Global, down: u8) -> Result<Poly<Over<E>>, AllocError> {
        if down == 0 {
            return own_denominator(alloc, self);
        }
        let element = lowered_element(alloc, self)?;
        let below = element.denominator(alloc, down - 1)?;
        lifted(alloc, &below)
    }
}
