//! What a reduction has formed so far.

use risch_elem::{Elem, Poly};

/// The sum g and the numerator a of an element f = Dg + a/w, for a denominator w that is kept beside it.
#[derive(Drop)]
pub(crate) struct Partial {
    pub(crate) sum: Elem,
    pub(crate) numerator: Poly,
}
