//! How the variable of a level is derived.

ghost use Rattle.std.specs.Prelude.{◌≡◌, IfOk};

use risch_field::Arith;
use std::alloc::{AllocError, Global};

/// The two ways in which the variable t of a level is derived.
#[derive(Clone, Copy, Debug, PartialEq, Eq)]
pub enum Kind {
    /// Dt = η.
    Primitive,
    /// Dt = η·t.
    Exponential,
}

/// The kind of the level over the field E, and η, an element of E.
#[derive(Drop)]
pub struct Rate<E> {
    pub kind: Kind,
    pub eta: E,
}

impl<E: Arith> Rate<E> {
    /// The rate once more.
    pub fn copy(&self, alloc: Global) -> Result<Rate<E>, AllocError>
        ensures { IfOk result (λ copy. copy ≡ self.now) }
    {
        Ok(Rate {
            kind: self.kind,
            eta: self.eta.copy(alloc)?,
        })
    }
}
