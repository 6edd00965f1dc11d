//! Elements of a tower of at most five levels: x and four monomials.

ghost use Rattle.std.specs.Prelude.{◌≡◌};
ghost use Rattle.risch_element_theory.specs.WholeTower.{IsElement};

use risch_nest::Nest;
use std::marker::Model;

/// An element of the tower, in normal form at every level: a fraction in lowest terms, or n/m for coprime polynomials n and m in the variable of its level, m monic and with
/// coefficients below that level, where the variable occurs in n or in m.
#[derive(Drop)]
pub struct Elem {
    pub(crate) inner: Nest,
}

impl Model for Elem {
    ghost use Rattle.risch_level.specs.Levels.{Element};
    ghost use Rattle.risch_element_theory.specs.WholeTower.{IsElement};

    ghost Value = { Element };

    ghost view = { λ e. e.inner };

    ghost invariant = { λ e. IsElement e.inner };
}

impl Elem {
    /// The element as one of the field of five levels, where it is in normal form at every level.
    pub fn nest(&self) -> &Nest
        ensures value { result.now ≡ self.now }
        ensures normal { IsElement self.now }
    {
        &self.inner
    }

    /// The same, of an element that is given away.
    pub fn into_nest(self) -> Nest
        ensures value { result ≡ self }
        ensures normal { IsElement self }
    {
        self.inner
    }

    /// The element of the field of five levels that is in normal form at every level.
    pub fn of(inner: Nest) -> Elem
        requires { IsElement inner }
        ensures { result ≡ inner }
    {
        Elem { inner }
    }
}
