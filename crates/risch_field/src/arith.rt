//! The arithmetic of one field of the tower.

ghost use Rattle.std.specs.Prelude.{◌≡◌, ◌≤◌, IfOk, IsFalse};
ghost use Rattle.risch_field.specs.Checked.{Agrees};
ghost use Rattle.risch_field.specs.Ops.{Ops, KeepsNegatives, HasWholes};

use crate::Fail;
use risch_frac::Frac;
use std::alloc::{AllocError, Global};

/// The elements of a field that contains Q, with operations that follow the rules `ops`.
///
/// An operation that can stop ends with the stop of its rule. A negative, a copy and the constants form nothing.
pub trait Arith: Drop {
    ghost ops: { Ops Self };

    /// 0.
    fn zero() -> Self
        ensures { result ≡ ops.zero };

    /// 1.
    fn one() -> Self
        ensures value { result ≡ ops.one }
        ensures not_zero { IsFalse (ops.is_zero ops.one) };

    /// The whole number n = 1 + .. + 1.
    fn whole(n: u16) -> Self
        ensures { result ≡ ops.whole n };

    /// Whether a = 0.
    fn is_zero(&self) -> bool
        ensures { result ≡ ops.is_zero self.now };

    /// Whether a = 1.
    fn is_one(&self) -> bool
        ensures { result ≡ ops.is_one self.now };

    /// Whether a and b are the same.
    fn same(&self, other: &Self) -> bool
        ensures { result ≡ ops.same self.now other.now };

    /// The weight: 1 of a fraction, the sum of the weights of num and den of a quotient of polynomials.
    fn weight(&self) -> u32
        ensures value { result ≡ ops.weight self.now }
        ensures small { result ≤ 65536 };

    /// a once more.
    fn copy(&self, alloc: Global) -> Result<Self, AllocError>
        ensures { IfOk result (λ copy. copy ≡ self.now) };

    /// -a.
    fn neg(&self, alloc: Global) -> Result<Self, AllocError>
        ensures { IfOk result (λ negative. negative ≡ ops.negative self.now) };

    /// a + b.
    fn add(&self, alloc: Global, other: &Self) -> Result<Self, Fail>
        ensures { Agrees result (ops.sum self.now other.now) };

    /// a·b.
    fn mul(&self, alloc: Global, other: &Self) -> Result<Self, Fail>
        ensures { Agrees result (ops.product self.now other.now) };

    /// a/b; for b = 0 a value that no rule asks for.
    fn div(&self, alloc: Global, other: &Self) -> Result<Self, Fail>
        ensures { Agrees result (ops.quotient self.now other.now) };

    // -a is 0 where a is, and has the weight of a.
    ghost keeps_negatives: { KeepsNegatives ops };

    // The whole numbers 0 and 1 are the elements 0 and 1.
    ghost has_wholes: { HasWholes ops };
}

impl Arith for Frac {
    ghost use Rattle.risch_field.specs.Ground.{ground};
    ghost use Rattle.risch_field.specs.GroundLaws.{ground_keeps_negatives, ground_has_wholes};

    ghost ops = { ground };

    ghost keeps_negatives = { ground_keeps_negatives };

    ghost has_wholes = { ground_has_wholes };

    fn zero() -> Frac {
        Frac::new(0, 1)
    }

    fn one() -> Frac {
        Frac::new(1, 1)
    }

    fn whole(n: u16) -> Frac {
        Frac::new(i128::from(n), 1)
    }

    fn is_zero(&self) -> bool {
        (*self).is_zero()
    }

    fn is_one(&self) -> bool {
        (*self).is_one()
    }

    fn same(&self, other: &Frac) -> bool {
        (*self).same(*other)
    }

    fn weight(&self) -> u32 {
        1
    }

    fn copy(&self, _alloc: Global) -> Result<Frac, AllocError> {
        Ok(*self)
    }

    fn neg(&self, _alloc: Global) -> Result<Frac, AllocError> {
        Ok((*self).neg())
    }

    fn add(&self, _alloc: Global, other: &Frac) -> Result<Frac, Fail> {
        (*self).add(*other).map_err(Fail::Overflow)
    }

    fn mul(&self, _alloc: Global, other: &Frac) -> Result<Frac, Fail> {
        (*self).mul(*other).map_err(Fail::Overflow)
    }

    fn div(&self, _alloc: Global, other: &Frac) -> Result<Frac, Fail> {
        if (*other).is_zero() {
            return Ok(*other);
        }
        (*self).div(*other).map_err(Fail::Overflow)
    }
}
