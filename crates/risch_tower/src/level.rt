//! The monomials of a tower.

ghost use Rattle.std.specs.Prelude.{◌≡◌, ◌++◌, IfOk, OnOk};
ghost use Rattle.risch_element_theory.specs.WholeTower.{IsElement};
ghost use Rattle.risch_tower.specs.Tower as spec;

use risch_derivation::Rate;
use risch_elem::Elem;
use std::alloc::{AllocError, Global};

/// A monomial over the elements of a tower.
#[derive(Drop)]
pub enum Monomial {
    /// log a.
    Log(Elem),
    /// exp a.
    Exp(Elem),
}

/// A monomial, and how it is derived.
#[derive(Drop)]
pub struct Level {
    pub monomial: Monomial,
    pub rate: Rate<Elem>,
}

impl Monomial {
    /// a.
    pub fn argument(&self) -> &Elem
        ensures value { result.now ≡ spec.argument self.now }
        ensures normal { IsElement (spec.argument self.now) }
    {
        let argument = match self {
            Monomial::Log(argument) => argument,
            Monomial::Exp(argument) => argument,
        };
        let _ = argument.nest();
        argument
    }

    /// The monomial once more.
    pub fn copy(&self, alloc: Global) -> Result<Monomial, AllocError>
        ensures { IfOk result (λ copy. copy ≡ self.now) }
    {
        match self {
            Monomial::Log(argument) => Ok(Monomial::Log(argument.copy(alloc)?)),
            Monomial::Exp(argument) => Ok(Monomial::Exp(argument.copy(alloc)?)),
        }
    }

    /// Whether both are logarithms, or both exponentials, of the same.
    pub fn same(&self, other: &Monomial) -> bool
        ensures { result ≡ spec.same_monomial self.now other.now }
    {
        match self {
            Monomial::Log(a) => match other {
                Monomial::Log(b) => a.same(b),
                Monomial::Exp(_) => false,
            },
            Monomial::Exp(a) => match other {
                Monomial::Log(_) => false,
                Monomial::Exp(b) => a.same(b),
            },
        }
    }
}

impl Level {
    /// The level once more.
    pub fn copy(&self, alloc: Global) -> Result<Level, AllocError>
        ensures { IfOk result (λ copy. copy ≡ self.now) }
    {
        Ok(Level {
            monomial: self.monomial.copy(alloc)?,
            rate: self.rate.copy(alloc)?,
        })
    }
}

/// Appends the levels.
pub(crate) fn push_copies(
    alloc: Global,
    to: &mut Vec<Level>,
    from: &[Level],
) -> Result<(), AllocError>
    ensures { OnOk result (to.new.items ≡ to.old.items ++ from.now) }
{
    for level in from {
        to.push(level.copy(alloc)?)?;
    }
    Ok(())
}

/// Whether there are as many levels, with the same monomials.
pub(crate) fn same_levels(left: &[Level], right: &[Level]) -> bool
    ensures { result ≡ spec.same_levels left.now right.now }
{
    if left.len() != right.len() {
        return false;
    }
    for i in 0..left.len() {
        if !left[i].monomial.same(&right[i].monomial) {
            return false;
        }
    }
    true
}
