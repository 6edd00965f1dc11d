//! Polynomials in one variable t over a field: sum, product, multiple and derivative
//! (Bronstein, Symbolic Integration I, section 1.1).

ghost use Rattle.std.specs.Prelude.{◌≡◌, ◌≤◌, ◌<◌, ◌+◌, ◌∷◌, [], length, IfOk, IsTrue, IsFalse, ◌↔◌, slice_get};
ghost use Rattle.std.specs.Option.{option_copied};
ghost use Rattle.risch_field.specs.Checked.{Agrees};
ghost use Rattle.risch_polynomial.specs.Poly as poly;
ghost use Rattle.risch_polynomial.specs.Polynomial.{IsPolynomial};

use crate::coefficients::{
    add_rows, push_copies, push_multiples, push_negatives, push_scaled, push_sums, same_items,
    trim, weigh, zeros,
};
use risch_field::{Arith, Fail};
use std::alloc::{AllocError, Global};
use std::marker::Model;

/// The largest degree of a polynomial.
pub const MOST_DEGREE: u16 = 255;

/// The polynomial p_0 + p_1·t + .. + p_n·t^n with p_n other than 0, of degree at most 255 and weight at most 65536. The list is
/// empty for 0.
///
/// Contracts see it as the list of its coefficients from exponent 0. The weight is the sum of the weights of the coefficients
/// other than 0; it is kept.
#[derive(Drop)]
pub struct Poly<E: Arith> {
    coefficients: Vec<E>,
    weight: u32,
}

impl<E: Arith> Model for Poly<E> {
    ghost use Rattle.std.specs.Prelude.{List, ◌≡◌};
    ghost use Rattle.std.specs.Coded.{coded_list};
    ghost use Rattle.risch_polynomial.specs.Polynomial.{IsPolynomial};

    ghost Value = { List E };

    ghost coded = { coded_list E.code };

    ghost view = { λ p. p.coefficients.items };

    ghost invariant = { λ p. IsPolynomial E.ops p.coefficients.items p.weight };
}

impl<E: Arith> Poly<E> {
    /// 0.
    pub fn zero(alloc: Global) -> Poly<E>
        ensures { result ≡ [] }
    {
        Poly {
            coefficients: Vec::new(alloc),
            weight: 0,
        }
    }

    /// 1.
    pub fn one(alloc: Global) -> Result<Poly<E>, AllocError>
        ensures { IfOk result (λ it. it ≡ E.ops.one ∷ []) }
    {
        Poly::constant(alloc, E::one())
    }

    /// The constant polynomial c, for c other than 0.
    pub fn constant(alloc: Global, value: E) -> Result<Poly<E>, AllocError>
        requires { IsFalse (E.ops.is_zero value) }
        ensures { IfOk result (λ it. it ≡ value ∷ []) }
    {
        let weight = value.weight();
        let mut coefficients = Vec::new(alloc);
        coefficients.push(value)?;
        Ok(Poly {
            coefficients,
            weight,
        })
    }

    /// c·t^e, which is 0 for c = 0.
    ///
    /// Stops: Size for e > 255.
    #[tactic(auto, using(risch_field::proofs::CheckedSteps::stop_passes, risch_field::proofs::CheckedSteps::value_passes), unfolding(crate::specs::Poly::monomial))]
    pub fn monomial(alloc: Global, value: E, exponent: u16) -> Result<Poly<E>, Fail>
        ensures { Agrees result (poly.monomial E.ops value exponent) }
    {
        if value.is_zero() {
            return Ok(Poly::zero(alloc));
        }
        if exponent > MOST_DEGREE {
            return Err(Fail::Size);
        }
        let mut coefficients = zeros(alloc, usize::from(exponent))?;
        coefficients.push(value)?;
        Poly::from_coefficients(coefficients)
    }

    /// The polynomial with these coefficients from exponent 0; those at the end that are 0 are dropped.
    ///
    /// Stops: Size where it is beyond the limits.
    pub fn from_coefficients(coefficients: Vec<E>) -> Result<Poly<E>, Fail>
        ensures { Agrees result (poly.sized E.ops (poly.trimmed E.ops coefficients.items)) }
    {
        let mut coefficients = coefficients;
        trim(&mut coefficients);
        if coefficients.len() > usize::from(MOST_DEGREE) + 1 {
            return Err(Fail::Size);
        }
        let weight = weigh(&coefficients);
        if weight > 65536 {
            return Err(Fail::Size);
        }
        Ok(Poly {
            coefficients,
            weight,
        })
    }

    /// The polynomial with these coefficients from exponent 0, which is within the limits; those at the end that are 0 are dropped.
    pub fn trimmed(coefficients: Vec<E>) -> Poly<E>
        requires degree { length (poly.trimmed E.ops coefficients.items) ≤ 256 }
        requires weight { poly.weight E.ops coefficients.items ≤ 65536 }
        ensures { result ≡ poly.trimmed E.ops coefficients.items }
    {
        let mut coefficients = coefficients;
        trim(&mut coefficients);
        let weight = weigh(&coefficients);
        Poly {
            coefficients,
            weight,
        }
    }

    /// p_0, p_1, .., p_n.
    pub fn coefficients(&self) -> &[E]
        ensures value { result.now ≡ self.now }
        ensures small { length self.now ≤ 256 }
    {
        self.coefficients.as_slice()
    }

    /// p_0, p_1, .., p_n, of a polynomial that is given away.
    pub fn into_coefficients(self) -> Vec<E>
        ensures { result.items ≡ self }
    {
        self.coefficients
    }

    /// p_e, where it is not 0.
    pub fn coefficient(&self, exponent: u16) -> Option<&E>
        ensures { option_copied result ≡ poly.nonzero E.ops (slice_get self.now exponent) }
    {
        match self.coefficients().get(usize::from(exponent)) {
            Some(coefficient) if !coefficient.is_zero() => Some(coefficient),
            _ => None,
        }
    }

    /// deg p; 0 has no degree.
    pub fn degree(&self) -> Option<u16>
        ensures { result ≡ poly.degree E.ops self.now }
    {
        match self.coefficients() {
            [] => None,
            [_, above @ ..] => Some(above.len() as u16),
        }
    }

    /// The sum of the weights of the coefficients other than 0.
    pub fn weight(&self) -> u32
        ensures value { result ≡ poly.weight E.ops self.now }
        ensures small { result ≤ 65536 }
    {
        self.weight
    }

    /// Whether p = 0.
    pub fn is_zero(&self) -> bool
        ensures value { result ≡ poly.is_zero E.ops self.now }
        ensures some { IsFalse result → 0 < length self.now }
    {
        self.coefficients().is_empty()
    }

    /// Whether p = 1.
    pub fn is_one(&self) -> bool
        ensures { result ≡ poly.is_one E.ops self.now }
    {
        match self.coefficients() {
            [only] => only.is_one(),
            _ => false,
        }
    }

    /// Whether p is 0 or deg p = 0.
    pub fn is_constant(&self) -> bool
        ensures { IsTrue result ↔ (length self.now ≤ 1) }
    {
        self.coefficients().len() <= 1
    }

    /// Whether p and q have the same coefficients.
    pub fn same(&self, other: &Poly<E>) -> bool
        ensures { result ≡ poly.same E.ops self.now other.now }
    {
        same_items(self.coefficients(), other.coefficients())
    }

    /// p once more.
    pub fn copy(&self, alloc: Global) -> Result<Poly<E>, AllocError>
        ensures { IfOk result (λ copy. copy ≡ self.now) }
    {
        let mut coefficients = Vec::new(alloc);
        push_copies(alloc, &mut coefficients, &self.coefficients)?;
        Ok(Poly {
            coefficients,
            weight: self.weight,
        })
    }

    /// -p, for which nothing is formed.
    pub fn neg(&self, alloc: Global) -> Result<Poly<E>, AllocError>
        ensures value { IfOk result (λ negative. negative ≡ poly.negatives E.ops self.now) }
        ensures weight { poly.weight E.ops (poly.negatives E.ops self.now) ≡ poly.weight E.ops self.now }
    {
        let mut coefficients = Vec::new(alloc);
        push_negatives(alloc, &mut coefficients, self.coefficients())?;
        Ok(Poly {
            coefficients,
            weight: self.weight,
        })
    }

    /// p + q, with p_j + q_j at exponent j, formed for j = 0, 1, ..
    ///
    /// Stops: that of the first coefficient that cannot be formed; Size where the weight is beyond its limit.
    #[tactic(auto, using(risch_field::proofs::CheckedSteps::stop_passes, risch_field::proofs::CheckedSteps::value_passes), unfolding(crate::specs::Poly::sum))]
    pub fn add(&self, alloc: Global, other: &Poly<E>) -> Result<Poly<E>, Fail>
        ensures { Agrees result (poly.sum E.ops self.now other.now) }
    {
        let mut sums = Vec::new(alloc);
        push_sums(alloc, &mut sums, self.coefficients(), other.coefficients())?;
        Poly::from_coefficients(sums)
    }

    /// c·p, with c·p_j at exponent j, formed for j = 0, 1, ..
    ///
    /// Stops: that of the first coefficient that cannot be formed; Size where the weight is beyond its limit.
    #[tactic(auto, using(risch_field::proofs::CheckedSteps::stop_passes, risch_field::proofs::CheckedSteps::value_passes), unfolding(crate::specs::Poly::scaled))]
    pub fn scale(&self, alloc: Global, by: &E) -> Result<Poly<E>, Fail>
        ensures { Agrees result (poly.scaled E.ops by.now self.now) }
    {
        let mut scaled = Vec::new(alloc);
        push_scaled(alloc, &mut scaled, by, self.coefficients())?;
        Poly::from_coefficients(scaled)
    }

    /// p·q: for i = 0, 1, .. and within it for j = 0, 1, .. the product p_i·q_j is formed and added to the coefficient at i + j.
    ///
    /// Stops: Size where deg p + deg q > 255, before anything is formed; that of the first coefficient that cannot be formed;
    /// Size where the weight is beyond its limit.
    #[tactic(auto, using(risch_field::proofs::CheckedSteps::stop_passes, risch_field::proofs::CheckedSteps::value_passes), unfolding(crate::specs::Poly::product))]
    pub fn mul(&self, alloc: Global, other: &Poly<E>) -> Result<Poly<E>, Fail>
        ensures { Agrees result (poly.product E.ops self.now other.now) }
    {
        let left = self.coefficients();
        let right = other.coefficients();
        if left.is_empty() || right.is_empty() {
            return Ok(Poly::zero(alloc));
        }
        if left.len() + right.len() > usize::from(MOST_DEGREE) + 2 {
            return Err(Fail::Size);
        }
        let mut sums = zeros(alloc, left.len() + right.len() - 1)?;
        add_rows(alloc, &mut sums, left, right)?;
        Poly::from_coefficients(sums)
    }

    /// dp/dt, with (j + 1)·p_(j+1) at exponent j, formed for j = 0, 1, ..; where p_(j+1) = 0 nothing is formed.
    ///
    /// Stops: that of the first coefficient that cannot be formed; Size where the weight is beyond its limit.
    #[tactic(auto, using(risch_field::proofs::CheckedSteps::stop_passes, risch_field::proofs::CheckedSteps::value_passes), unfolding(crate::specs::Poly::partial))]
    pub fn partial(&self, alloc: Global) -> Result<Poly<E>, Fail>
        ensures { Agrees result (poly.partial E.ops self.now) }
    {
        if self.is_zero() {
            return Ok(Poly::zero(alloc));
        }
        let mut multiples = Vec::new(alloc);
        push_multiples(alloc, &mut multiples, &self.coefficients()[1..])?;
        Poly::from_coefficients(multiples)
    }

    /// p/lc(p), and 0 for p = 0: u = 1/lc(p), then u·p_j for j = 0, 1, .. below deg p; the leading coefficient becomes 1 unformed.
    ///
    /// Stops: that of u or of the first coefficient that cannot be formed; Size where the weight is beyond its limit.
    #[tactic(auto, using(risch_field::proofs::CheckedSteps::stop_passes, risch_field::proofs::CheckedSteps::value_passes), unfolding(crate::specs::Poly::monic))]
    pub fn monic(&self, alloc: Global) -> Result<Poly<E>, Fail>
        ensures { Agrees result (poly.monic E.ops self.now) }
    {
        if self.is_zero() {
            return Ok(Poly::zero(alloc));
        }
        let coefficients = self.coefficients();
        let inverse = self.inverse_of_last(alloc)?;
        let mut scaled = Vec::new(alloc);
        push_scaled(
            alloc,
            &mut scaled,
            &inverse,
            &coefficients[..coefficients.len() - 1],
        )?;
        scaled.push(E::one())?;
        Poly::from_coefficients(scaled)
    }

    /// The value of a constant polynomial.
    pub fn into_constant(self) -> E
        requires { length self ≤ 1 }
        ensures { result ≡ poly.coefficient E.ops self 0 }
    {
        let Poly {
            mut coefficients,
            weight: _,
        } = self;
        match coefficients.pop() {
            Some(value) => value,
            None => E::zero(),
        }
    }

    /// Whether lc(p) = 1; of 0 it asks whether 0 is 1.
    pub fn is_monic(&self) -> bool
        ensures { result ≡ E.ops.is_one (poly.last E.ops self.now) }
    {
        match self.coefficients().last() {
            Some(last) => last.is_one(),
            None => E::zero().is_one(),
        }
    }

    /// 1/lc(p); of 0 it is 1/0.
    pub fn inverse_of_last(&self, alloc: Global) -> Result<E, Fail>
        ensures { Agrees result (E.ops.quotient E.ops.one (poly.last E.ops self.now)) }
    {
        let one = E::one();
        match self.coefficients().last() {
            Some(last) => one.div(alloc, last),
            None => one.div(alloc, &E::zero()),
        }
    }

    /// The polynomial of coefficients that are known to be one, with their weight.
    pub fn kept(coefficients: Vec<E>, weight: u32) -> Poly<E>
        requires { IsPolynomial E.ops coefficients.items weight }
        ensures { result ≡ coefficients.items }
    {
        Poly {
            coefficients,
            weight,
        }
    }

    /// The weight, with what is known of the polynomial.
    pub fn kept_weight(&self) -> u32
        ensures { IsPolynomial E.ops self.now result }
    {
        self.weight
    }
}
