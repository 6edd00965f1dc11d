//! Polynomials over the elements of a tower.

ghost use Rattle.std.specs.Prelude.{◌≡◌, ◌≤◌, ◌<◌, ◌+◌, ◌↔◌, ℕ, Some, length, slice_get, IfOk, IfSome, IsTrue, IsFalse};
ghost use Rattle.std.specs.Option.{is_some, option_copied};
ghost use Rattle.risch_univariate.specs.Polynomial.{coefficient};
ghost use Rattle.risch_univariate.specs.Division.{IsCoprime};
ghost use Rattle.risch_mean.specs.ElementField.{elements};
ghost use Rattle.risch_field.specs.Checked.{Agrees, map_ok};
ghost use Rattle.risch_polynomial.specs.Poly as poly;
ghost use Rattle.risch_polynomial.specs.Modular as modular;
ghost use Rattle.risch_polynomial_theory.specs.Meaning.{AllValid};
ghost use Rattle.risch_level.specs.Levels.{element};
ghost use Rattle.risch_element_theory.specs.WholeTower.{IsElement, IsPolynomial, meaning, polynomial, Within, AllWithin};
ghost use Rattle.risch_element_theory.specs.ElementPolynomials.{zero, ◌+ₚ◌, ◌*ₚ◌, negative, multiple, monic_multiple, IsDerivative, IsDegree, meaning_or_zero, IsDivisionOf, IsMonicGcd, IsInverseModulo, IsSolution};

use crate::elem::Elem;
use crate::lists::ElemList;
use risch_division::{div_rem, gcd, inverse_mod, solve_mod};
use risch_field::Fail;
use std::alloc::{AllocError, Global};
use std::marker::Model;

/// A polynomial p_0 + p_1·t + .. over the elements of the tower, with elements in normal form, of degree at most 255 and weight at most 65536.
///
/// Contracts see it as the list of its coefficients from exponent 0, the last of which is not 0. The weight is the sum of the weights of the coefficients other
/// than 0.
#[derive(Drop)]
pub struct Poly {
    pub(crate) inner: risch_polynomial::Poly<Elem>,
}

impl Model for Poly {
    ghost use Rattle.std.specs.Prelude.{List};
    ghost use Rattle.risch_level.specs.Levels.{Element};
    ghost use Rattle.risch_element_theory.specs.WholeTower.{IsPolynomial};

    ghost Value = { List Element };

    ghost view = { λ p. p.inner };

    ghost invariant = { λ p. IsPolynomial p.inner };
}

/// Each element of a list is in normal form.
fn all_normal(elements: &[Elem])
    ensures { AllValid IsElement elements.now }
{
    for element in elements {
        let _nest = element.nest();
    }
}

/// Whether only the first n variables occur in each element of a list.
fn all_within(elements: &[Elem], n: u8) -> bool
    ensures { IsTrue result ↔ AllWithin n elements.now }
{
    for element in elements {
        if !element.is_within(n) {
            return false;
        }
    }
    true
}

impl Poly {
    /// The polynomial whose coefficients are known to be in normal form.
    pub fn kept(inner: risch_polynomial::Poly<Elem>) -> Poly
        requires { IsPolynomial inner }
        ensures { result ≡ inner }
    {
        Poly { inner }
    }

    /// The same polynomial by the arithmetic that is whole over every field.
    pub fn inner(&self) -> &risch_polynomial::Poly<Elem>
        ensures value { result.now ≡ self.now }
        ensures normal { IsPolynomial self.now }
    {
        &self.inner
    }

    /// The polynomial with these coefficients from exponent 0, which is within the limits; those at the end that are 0 are dropped.
    #[tactic(auto, using(risch_element_theory::proofs::ElementPolynomialRules::lists))]
    pub fn of(coefficients: ElemList) -> Result<Poly, AllocError>
        requires degree { length (poly.trimmed element coefficients) ≤ 256 }
        requires weight { poly.weight element coefficients ≤ 65536 }
        ensures rule { IfOk result (λ it. it ≡ poly.trimmed element coefficients) }
        ensures meaning { IfOk result (λ it. polynomial it ≡ polynomial coefficients) }
        ensures within { (n : ℕ) → AllWithin n coefficients → IfOk result (λ it. AllWithin n it) }
    {
        all_normal(coefficients.as_slice());
        let inner = risch_polynomial::Poly::trimmed(coefficients.into_vec());
        Ok(Poly::kept(inner))
    }

    /// deg p; 0 has no degree.
    #[tactic(auto, using(risch_element_theory::proofs::ElementPolynomialRules::parts))]
    pub fn degree(&self) -> Option<u16>
        ensures value { result ≡ poly.degree element self.now }
        ensures meaning { IsDegree (polynomial self.now) result }
    {
        self.inner.degree()
    }

    /// p_e, where it is not 0.
    #[tactic(auto, using(risch_element_theory::proofs::ElementPolynomialRules::parts))]
    pub fn coefficient(&self, exponent: u16) -> Option<&Elem>
        ensures value { option_copied result ≡ poly.nonzero element (slice_get self.now exponent) }
        ensures meaning { coefficient elements (polynomial self.now) exponent ≡ meaning_or_zero (option_copied result) }
        ensures within { (n : ℕ) → AllWithin n self.now → IfSome (option_copied result) (λ it. Within n it) }
    {
        self.inner.coefficient(exponent)
    }

    /// Whether p = 0.
    #[tactic(auto, using(risch_element_theory::proofs::ElementPolynomialRules::tests))]
    pub fn is_zero(&self) -> bool
        ensures value { result ≡ poly.is_zero element self.now }
        ensures some { IsFalse result → 0 < length self.now }
        ensures meaning { IsTrue result ↔ (polynomial self.now ≡ zero) }
    {
        self.inner.is_zero()
    }

    /// Whether p = 1.
    pub fn is_one(&self) -> bool
        ensures { result ≡ poly.is_one element self.now }
    {
        self.inner.is_one()
    }

    /// Whether p = q.
    #[tactic(auto, using(risch_element_theory::proofs::ElementPolynomialRules::tests))]
    pub fn same(&self, other: &Poly) -> bool
        ensures value { result ≡ poly.same element self.now other.now }
        ensures meaning { IsTrue result ↔ (polynomial self.now ≡ polynomial other.now) }
    {
        self.inner.same(&other.inner)
    }

    /// Whether only the first n variables occur in the coefficients: whether they lie below level n.
    pub fn is_within(&self, n: u8) -> bool
        ensures { IsTrue result ↔ AllWithin n self.now }
    {
        all_within(self.inner.coefficients(), n)
    }

    /// The sum of the weights of the coefficients other than 0.
    pub fn weight(&self) -> u32
        ensures value { result ≡ poly.weight element self.now }
        ensures small { result ≤ 65536 }
    {
        self.inner.weight()
    }

    /// p once more.
    ///
    /// `Err` for want of memory alone.
    pub fn copy(&self, alloc: Global) -> Result<Poly, AllocError>
        ensures { IfOk result (λ copy. copy ≡ self.now) }
    {
        let inner = self.inner.copy(alloc)?;
        Ok(Poly::kept(inner))
    }

    /// -p, which forms nothing.
    ///
    /// `Err` for want of memory alone.
    #[tactic(auto, using(risch_element_theory::proofs::ElementPolynomialRules::negatives))]
    pub fn neg(&self, alloc: Global) -> Result<Poly, AllocError>
        ensures rule { IfOk result (λ it. it ≡ poly.negatives element self.now) }
        ensures meaning { IfOk result (λ it. polynomial it ≡ negative (polynomial self.now)) }
        ensures within { (n : ℕ) → AllWithin n self.now → IfOk result (λ it. AllWithin n it) }
    {
        let inner = self.inner.neg(alloc)?;
        Ok(Poly::kept(inner))
    }

    /// p + q.
    ///
    /// Stops: that of the first coefficient that cannot be formed, exponents ascending; Size where the weight is beyond its limit.
    #[tactic(auto, using(risch_element_theory::proofs::ElementPolynomialRules::sums))]
    pub fn add(&self, alloc: Global, other: &Poly) -> Result<Poly, Fail>
        ensures rule { Agrees result (poly.sum element self.now other.now) }
        ensures meaning { IfOk result (λ it. polynomial it ≡ polynomial self.now +ₚ polynomial other.now) }
        ensures within { (n : ℕ) → AllWithin n self.now → AllWithin n other.now → IfOk result (λ it. AllWithin n it) }
    {
        let inner = self.inner.add(alloc, &other.inner)?;
        Ok(Poly::kept(inner))
    }

    /// p·q.
    ///
    /// Stops: Size where deg p + deg q > 255, before anything is formed; that of the first coefficient that cannot be formed; Size where the weight is beyond its limit.
    #[tactic(auto, using(risch_element_theory::proofs::ElementPolynomialRules::products))]
    pub fn mul(&self, alloc: Global, other: &Poly) -> Result<Poly, Fail>
        ensures rule { Agrees result (poly.product element self.now other.now) }
        ensures meaning { IfOk result (λ it. polynomial it ≡ polynomial self.now *ₚ polynomial other.now) }
        ensures within { (n : ℕ) → AllWithin n self.now → AllWithin n other.now → IfOk result (λ it. AllWithin n it) }
    {
        let inner = self.inner.mul(alloc, &other.inner)?;
        Ok(Poly::kept(inner))
    }

    /// c·p.
    ///
    /// Stops: that of the first coefficient that cannot be formed, exponents ascending; Size where the weight is beyond its limit.
    #[tactic(auto, using(risch_element_theory::proofs::ElementPolynomialRules::multiples))]
    pub fn scale(&self, alloc: Global, by: &Elem) -> Result<Poly, Fail>
        ensures rule { Agrees result (poly.scaled element by.now self.now) }
        ensures meaning { IfOk result (λ it. polynomial it ≡ multiple (meaning by.now) (polynomial self.now)) }
        ensures within { (n : ℕ) → Within n by.now → AllWithin n self.now → IfOk result (λ it. AllWithin n it) }
    {
        let _nest = by.nest();
        let inner = self.inner.scale(alloc, by)?;
        Ok(Poly::kept(inner))
    }

    /// p/lc(p), and 0 for p = 0.
    ///
    /// Stops: that of 1/lc(p) or of the first coefficient that cannot be formed; Size where the weight is beyond its limit.
    #[tactic(auto, using(risch_element_theory::proofs::ElementPolynomialRules::monics))]
    pub fn monic(&self, alloc: Global) -> Result<Poly, Fail>
        ensures rule { Agrees result (poly.monic element self.now) }
        ensures meaning { IfOk result (λ it. polynomial it ≡ monic_multiple (polynomial self.now)) }
        ensures within { (n : ℕ) → AllWithin n self.now → IfOk result (λ it. AllWithin n it) }
    {
        let inner = self.inner.monic(alloc)?;
        Ok(Poly::kept(inner))
    }

    /// ∂p, the formal derivative by t: (i + 1)·p_(i + 1) at exponent i.
    ///
    /// Stops: that of the first coefficient that cannot be formed, exponents ascending; Size where the weight is beyond its limit.
    #[tactic(auto, using(risch_element_theory::proofs::ElementPolynomialRules::derivatives))]
    pub fn partial(&self, alloc: Global) -> Result<Poly, Fail>
        ensures rule { Agrees result (poly.partial element self.now) }
        ensures meaning { IfOk result (λ it. IsDerivative (polynomial self.now) (polynomial it)) }
        ensures within { (n : ℕ) → AllWithin n self.now → IfOk result (λ it. AllWithin n it) }
    {
        let inner = self.inner.partial(alloc)?;
        Ok(Poly::kept(inner))
    }

    /// Quotient a and remainder r of p by q ≠ 0: p = a·q + r with deg r < deg q.
    ///
    /// Stops: that of 1/lc(q) or of the first coefficient that cannot be formed; Size where a weight is beyond its limit at the end.
    #[tactic(auto, using(risch_element_theory::proofs::ElementPolynomialRules::divisions))]
    pub fn div_rem(&self, alloc: Global, by: &Poly) -> Result<(Poly, Poly), Fail>
        requires { 0 < length by.now }
        ensures rule { Agrees result (poly.division element self.now by.now) }
        ensures meaning { IfOk result (λ it. IsDivisionOf self.now by.now it) }
        ensures within { (n : ℕ) → AllWithin n self.now → AllWithin n by.now → IfOk result (λ it. AllWithin n it.0 × AllWithin n it.1) }
    {
        let (quotient, rest) = div_rem(alloc, &self.inner, &by.inner)?;
        let quotient = Poly::kept(quotient);
        let rest = Poly::kept(rest);
        Ok((quotient, rest))
    }

    /// The monic greatest common divisor of p and q, not both 0.
    ///
    /// Where p or q is a constant other than 0 it is 1 and no remainder is formed. Stops: those of the divisions.
    #[tactic(auto, using(risch_element_theory::proofs::ElementPolynomialRules::divisors))]
    pub fn gcd(&self, alloc: Global, other: &Poly) -> Result<Poly, Fail>
        requires { 0 < length self.now + length other.now }
        ensures rule { Agrees result (poly.gcd element self.now other.now) }
        ensures meaning { IfOk result (λ it. IsMonicGcd self.now other.now it) }
        ensures within { (n : ℕ) → AllWithin n self.now → AllWithin n other.now → IfOk result (λ it. AllWithin n it) }
    {
        let inner = gcd(alloc, &self.inner, &other.inner)?;
        Ok(Poly::kept(inner))
    }

    /// Whether a and b are coprime, for a of degree at least 1.
    ///
    /// Stops: those of the inverse of b modulo a.
    pub fn is_coprime(&self, alloc: Global, other: &Poly) -> Result<bool, Fail>
        requires { 2 ≤ length self.now }
        ensures rule { Agrees result (map_ok is_some (modular.inverse element other.now self.now)) }
        ensures meaning { IfOk result (λ it. IsTrue it ↔ IsCoprime elements (polynomial self.now) (polynomial other.now)) }
    {
        let inverse = other.inverse_mod(alloc, self)?;
        Ok(inverse.is_some())
    }

    /// i with i·b = 1 modulo a and deg i < deg a, for a of degree at least 1; None exactly where a and b are not coprime.
    ///
    /// Stops: those of the divisions of a and b in turn, and of the multiple by the inverse of the last remainder.
    #[tactic(auto, using(risch_element_theory::proofs::ElementPolynomialRules::inverses))]
    pub fn inverse_mod(&self, alloc: Global, modulus: &Poly) -> Result<Option<Poly>, Fail>
        requires { 2 ≤ length modulus.now }
        ensures rule { Agrees result (modular.inverse element self.now modulus.now) }
        ensures meaning { IfOk result (λ it. IsInverseModulo self.now modulus.now it) }
        ensures within { (n : ℕ) → AllWithin n self.now → AllWithin n modulus.now → IfOk result (λ it. IfSome it (λ inverse. AllWithin n inverse)) }
    {
        match inverse_mod(alloc, &self.inner, &modulus.inner)? {
            None => Ok(None),
            Some(inner) => Ok(Some(Poly::kept(inner))),
        }
    }

    /// r and z with b·r + a·z = c and deg r < deg a, for coprime a and b and a of degree at least 1.
    ///
    /// Stops: those of the inverse i of b modulo a, and then of r = (i·(c rem a)) rem a and z = (c - b·r) quo a.
    #[tactic(auto, using(risch_element_theory::proofs::ElementPolynomialRules::solutions))]
    pub fn solve_mod(alloc: Global, a: &Poly, b: &Poly, c: &Poly) -> Result<(Poly, Poly), Fail>
        requires degree { 2 ≤ length a.now }
        requires coprime { IsCoprime elements (polynomial a.now) (polynomial b.now) }
        ensures rule { Agrees (map_ok Some result) (modular.solve element a.now b.now c.now) }
        ensures meaning { IfOk result (λ it. IsSolution a.now b.now c.now it) }
        ensures within { (n : ℕ) → AllWithin n a.now → AllWithin n b.now → AllWithin n c.now → IfOk result (λ it. AllWithin n it.0 × AllWithin n it.1) }
    {
        match solve_mod(alloc, &a.inner, &b.inner, &c.inner)? {
            Some((left, right)) => {
                let left = Poly::kept(left);
                let right = Poly::kept(right);
                Ok((left, right))
            }
            None => unreachable!(),
        }
    }
}
