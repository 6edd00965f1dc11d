//! The arithmetic of elements: that of the field Q(x)(t1)..(t4).
//!
//! Each call that forms numbers follows the rule of its operation. It ends with the rule's stop: `Err(Fail::Overflow(op))` where a number of absolute value above 2^127 - 1
//! is formed in the operation op, `Err(Fail::Size)` where a degree above 255 or a weight above 65536 is. `Err(Fail::Memory)` is want of memory, about which no rule says anything.

ghost use Rattle.std.specs.Prelude.{◌≡◌, ◌≤◌, ◌↔◌, ℕ, IfOk, IsTrue, IsFalse};
ghost use Rattle.risch_mean.specs.Element.{zero, neg, ◌+ₑ◌, ◌*ₑ◌, ◌/ₑ◌};
ghost use Rattle.risch_field.specs.Checked.{Agrees};
ghost use Rattle.risch_level.specs.Levels.{element};
ghost use Rattle.risch_element_theory.specs.WholeTower.{meaning, Within};

use crate::elem::Elem;
use risch_field::{Arith, Fail};
use risch_nest::Nest;
use std::alloc::{AllocError, Global};

impl Elem {
    /// Whether a = 0 in the field.
    #[tactic(auto, using(risch_element_theory::proofs::ElementRules::tests))]
    pub fn is_zero(&self) -> bool
        ensures value { result ≡ element.is_zero self.now }
        ensures meaning { IsTrue result ↔ (meaning self.now ≡ zero) }
    {
        self.inner.is_zero()
    }

    /// Whether a = b in the field.
    #[tactic(auto, using(risch_element_theory::proofs::ElementRules::tests))]
    pub fn same(&self, other: &Elem) -> bool
        ensures value { result ≡ element.same self.now other.now }
        ensures meaning { IsTrue result ↔ (meaning self.now ≡ meaning other.now) }
    {
        self.inner.same(&other.inner)
    }

    /// The weight, at most 65536: 1 of a fraction, the sum of the weights of n and m of a quotient n/m of polynomials, where the weight of a polynomial is the sum of those of its coefficients other than 0.
    pub fn weight(&self) -> u32
        ensures value { result ≡ element.weight self.now }
        ensures small { result ≤ 65536 }
    {
        self.inner.weight()
    }

    /// a once more.
    ///
    /// `Err(AllocError)` for want of memory alone.
    pub fn copy(&self, alloc: Global) -> Result<Elem, AllocError>
        ensures { IfOk result (λ copy. copy ≡ self.now) }
    {
        let inner = self.inner.copy(alloc)?;
        Ok(Elem::of(inner))
    }

    /// -a. It lies in the field of the first n variables where a does.
    ///
    /// `Err(AllocError)` for want of memory alone.
    #[tactic(auto, using(risch_element_theory::proofs::ElementRules::negatives))]
    pub fn neg(&self, alloc: Global) -> Result<Elem, AllocError>
        ensures rule { IfOk result (λ it. it ≡ element.negative self.now) }
        ensures meaning { IfOk result (λ it. meaning it ≡ neg (meaning self.now)) }
        ensures within { (n : ℕ) → Within n self.now → IfOk result (λ it. Within n it) }
    {
        let inner = self.inner.neg(alloc)?;
        Ok(Elem::of(inner))
    }

    /// a + b. It lies in the field of the first n variables where a and b do.
    ///
    /// `Err(Fail::Overflow(op))` and `Err(Fail::Size)` exactly where the rule of sums gives them, unless memory is wanting: `Err(Fail::Memory)`.
    #[tactic(auto, using(risch_element_theory::proofs::ElementRules::sums))]
    pub fn add(&self, alloc: Global, other: &Elem) -> Result<Elem, Fail>
        ensures rule { Agrees result (element.sum self.now other.now) }
        ensures meaning { IfOk result (λ it. meaning it ≡ meaning self.now +ₑ meaning other.now) }
        ensures within { (n : ℕ) → Within n self.now → Within n other.now → IfOk result (λ it. Within n it) }
    {
        let inner = self.inner.add(alloc, &other.inner)?;
        Ok(Elem::of(inner))
    }

    /// a·b. It lies in the field of the first n variables where a and b do.
    ///
    /// `Err(Fail::Overflow(op))` and `Err(Fail::Size)` exactly where the rule of products gives them, unless memory is wanting: `Err(Fail::Memory)`.
    #[tactic(auto, using(risch_element_theory::proofs::ElementRules::products))]
    pub fn mul(&self, alloc: Global, other: &Elem) -> Result<Elem, Fail>
        ensures rule { Agrees result (element.product self.now other.now) }
        ensures meaning { IfOk result (λ it. meaning it ≡ meaning self.now *ₑ meaning other.now) }
        ensures within { (n : ℕ) → Within n self.now → Within n other.now → IfOk result (λ it. Within n it) }
    {
        let inner = self.inner.mul(alloc, &other.inner)?;
        Ok(Elem::of(inner))
    }

    /// a/b, for b other than 0: c with c·b = a. It lies in the field of the first n variables where a and b do.
    ///
    /// `Err(Fail::Overflow(op))` and `Err(Fail::Size)` exactly where the rule of quotients gives them, unless memory is wanting: `Err(Fail::Memory)`.
    #[tactic(auto, using(risch_element_theory::proofs::ElementRules::quotients))]
    pub fn div(&self, alloc: Global, other: &Elem) -> Result<Elem, Fail>
        requires { IsFalse (element.is_zero other.now) }
        ensures rule { Agrees result (element.quotient self.now other.now) }
        ensures meaning { IfOk result (λ it. meaning it *ₑ meaning other.now ≡ meaning self.now) }
        ensures ratio { IfOk result (λ it. meaning it ≡ meaning self.now /ₑ meaning other.now) }
        ensures within { (n : ℕ) → Within n self.now → Within n other.now → IfOk result (λ it. Within n it) }
    {
        let inner = self.inner.div(alloc, &other.inner)?;
        Ok(Elem::of(inner))
    }
}

impl Arith for Elem {
    ghost use Rattle.risch_level.specs.Levels.{element};
    ghost use Rattle.risch_level.specs.Laws.{element_keeps_negatives, element_has_wholes};

    ghost ops = { element };

    ghost keeps_negatives = { element_keeps_negatives };

    ghost has_wholes = { element_has_wholes };

    #[tactic(auto, using(risch_element_theory::proofs::ElementRules::constants))]
    fn zero() -> Elem {
        Elem::of(Nest::zero())
    }

    #[tactic(auto, using(risch_element_theory::proofs::ElementRules::constants))]
    fn one() -> Elem {
        Elem::of(Nest::one())
    }

    #[tactic(auto, using(risch_element_theory::proofs::ElementRules::constants))]
    fn whole(n: u16) -> Elem {
        Elem::of(Nest::whole(n))
    }

    fn is_zero(&self) -> bool {
        self.is_zero()
    }

    fn is_one(&self) -> bool {
        self.inner.is_one()
    }

    fn same(&self, other: &Elem) -> bool {
        self.same(other)
    }

    fn weight(&self) -> u32 {
        self.weight()
    }

    fn copy(&self, alloc: Global) -> Result<Elem, AllocError> {
        self.copy(alloc)
    }

    fn neg(&self, alloc: Global) -> Result<Elem, AllocError> {
        self.neg(alloc)
    }

    fn add(&self, alloc: Global, other: &Elem) -> Result<Elem, Fail> {
        self.add(alloc, other)
    }

    fn mul(&self, alloc: Global, other: &Elem) -> Result<Elem, Fail> {
        self.mul(alloc, other)
    }

    fn div(&self, alloc: Global, other: &Elem) -> Result<Elem, Fail> {
        let inner = self.inner.div(alloc, &other.inner)?;
        Ok(Elem::of(inner))
    }
}
