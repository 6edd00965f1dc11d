//! The arithmetic of Q on fractions of whole numbers whose absolute value is at most 2^127 - 1.
//!
//! A [`Frac`] is num/den in lowest terms with den > 0. An operation on a/b and c/d forms the numbers of the school
//! formula, as a*d, c*b, a*d + c*b and b*d for the sum, and divides once by their common divisor. Where one of these
//! numbers does not fit, the answer is `Err` with the operation.
//!
//! The contract of each call gives the result or the error exactly (`rule`), says that a result is in lowest terms
//! (`lowest`), and says which rational number it is, as an equation between whole numbers (`value`). A fraction in lowest
//! terms is determined by its value, so `==` is equality in Q.
//!
//! No contract promises a result wherever it would fit: with m = 2^127 - 1 the product of 2/m and 1/2 is `Err(Op::Mul)`, since
//! 2*m does not fit. No call takes memory.
#![tactic(auto)]

ghost use Rattle.std.specs.Prelude.{◌≡◌, ◌≢◌, ℕ, ◌<◌, ◌≤◌, ◌^◌, ℤ, pos, ◌+ℤ◌, ◌*ℤ◌, ◌<ℤ◌, unsigned_abs, int_div, IfOk, IsTrue, ◌↔◌};
ghost use Rattle.risch_frac.specs.Gcd.{gcd};
ghost use Rattle.risch_frac.specs.Fraction.{number, IsLowest};
ghost use Rattle.risch_frac.specs.Meaning.{Represents, IsSum, IsDifference, IsProduct, IsRatio};
ghost use Rattle.risch_frac.specs.Fraction as spec;

use std::marker::Model;

/// The operation whose numbers do not fit.
#[derive(Clone, Copy, Debug, PartialEq, Eq)]
pub enum Op {
    /// A sum or a difference.
    Add,
    /// A product.
    Mul,
    /// A quotient.
    Div,
}

/// The rational number num/den in lowest terms: gcd(num, den) = 1, den > 0, and |num|, den ≤ 2^127 - 1.
#[derive(Clone, Copy, Debug, PartialEq, Eq)]
pub struct Frac {
    num: i128,
    den: i128,
}

impl Model for Frac {
    ghost use Rattle.std.specs.Prelude.{pos, unsigned_abs};
    ghost use Rattle.risch_frac.specs.Fraction.{Fraction, IsInLowest};

    ghost Value = { Fraction };

    ghost view = { λ a. record { num = a.num; den = unsigned_abs a.den } };

    ghost invariant = { λ a. IsInLowest a.num a.den };

    ghost inverse = { λ p. record { num = p.num; den = pos p.den } };
}

impl Frac {
    /// The rational number num/den, for den other than 0. Neither number is -2^127.
    #[tactic(auto, unfolding(crate::specs::Fraction::quotient))]
    pub fn new(num: i128, den: i128) -> Frac
        requires not_zero { den ≢ pos 0 }
        requires num_fits { unsigned_abs num < 2 ^ 127 }
        requires den_fits { unsigned_abs den < 2 ^ 127 }
        ensures rule { result ≡ spec.quotient num den }
        ensures lowest { IsLowest result }
        ensures value { Represents num den result }
    {
        if den < 0 {
            Frac::lowest(-num, -den)
        } else {
            Frac::lowest(num, den)
        }
    }

    /// The rational number num/den, for den > 0.
    fn lowest(num: i128, den: i128) -> Frac
        requires num_fits { unsigned_abs num < 2 ^ 127 }
        requires den_fits { unsigned_abs den < 2 ^ 127 }
        requires positive { pos 0 <ℤ den }
        ensures rule { result ≡ spec.lowest num den }
        ensures lowest { IsLowest result }
        ensures value { Represents num den result }
    {
        let divisor = common_divisor(num.unsigned_abs(), den.unsigned_abs());
        Frac {
            num: quotient(num, divisor),
            den: quotient(den, divisor),
        }
    }

    /// The numerator in lowest terms, of absolute value at most 2^127 - 1.
    pub fn num(self) -> i128
        ensures value { result ≡ self.num }
        ensures lowest { IsLowest self }
    {
        self.num
    }

    /// The denominator in lowest terms, from 1 to 2^127 - 1.
    pub fn den(self) -> i128
        ensures value { result ≡ pos self.den }
        ensures lowest { IsLowest self }
        ensures positive { pos 0 <ℤ result }
    {
        self.den
    }

    /// -(a/b) = (-a)/b. It always fits.
    pub fn neg(self) -> Frac
        ensures rule { result ≡ spec.negative self }
        ensures lowest { IsLowest result }
    {
        Frac {
            num: -self.num,
            den: self.den,
        }
    }

    /// a/b + c/d = (a*d + c*b) / (b*d).
    ///
    /// `Err(Op::Add)` exactly where a*d, c*b, their sum or b*d does not fit.
    #[tactic(auto, using(crate::proofs::Signs::positive_product), unfolding(crate::specs::Fraction::sum))]
    pub fn add(self, other: Frac) -> Result<Frac, Op>
        ensures rule { result ≡ spec.sum self other }
        ensures lowest { IfOk result IsLowest }
        ensures value { IfOk result (IsSum self other) }
    {
        let left = product(Op::Add, self.num(), other.den())?;
        let right = product(Op::Add, other.num(), self.den())?;
        let num = total(Op::Add, left, right)?;
        let den = product(Op::Add, self.den(), other.den())?;
        Ok(Frac::lowest(num, den))
    }

    /// a/b - c/d = (a*d - c*b) / (b*d).
    ///
    /// `Err(Op::Add)` exactly where the sum of a/b and (-c)/d gives it.
    #[tactic(auto, using(crate::proofs::Rules::difference_from_sum))]
    pub fn sub(self, other: Frac) -> Result<Frac, Op>
        ensures rule { result ≡ spec.sum self (spec.negative other) }
        ensures lowest { IfOk result IsLowest }
        ensures value { IfOk result (IsDifference self other) }
    {
        self.add(other.neg())
    }

    /// (a/b) * (c/d) = (a*c) / (b*d).
    ///
    /// `Err(Op::Mul)` exactly where a*c or b*d does not fit.
    #[tactic(auto, using(crate::proofs::Signs::positive_product), unfolding(crate::specs::Fraction::product))]
    pub fn mul(self, other: Frac) -> Result<Frac, Op>
        ensures rule { result ≡ spec.product self other }
        ensures lowest { IfOk result IsLowest }
        ensures value { IfOk result (IsProduct self other) }
    {
        let num = product(Op::Mul, self.num(), other.num())?;
        let den = product(Op::Mul, self.den(), other.den())?;
        Ok(Frac::lowest(num, den))
    }

    /// (a/b) / (c/d) = (a*d) / (b*c), for c other than 0.
    ///
    /// `Err(Op::Div)` exactly where a*d or b*c does not fit.
    #[tactic(auto, using(crate::proofs::Signs::nonzero_product), unfolding(crate::specs::Fraction::ratio))]
    pub fn div(self, other: Frac) -> Result<Frac, Op>
        requires not_zero { other.num ≢ pos 0 }
        ensures rule { result ≡ spec.ratio self other }
        ensures lowest { IfOk result IsLowest }
        ensures value { IfOk result (IsRatio self other) }
    {
        let num = product(Op::Div, self.num(), other.den())?;
        let den = product(Op::Div, self.den(), other.num())?;
        Ok(Frac::new(num, den))
    }

    /// Whether a/b = 0.
    pub fn is_zero(self) -> bool
        ensures rule { result ≡ spec.is_zero self }
        ensures zero { IsTrue result ↔ (self.num ≡ pos 0) }
    {
        self.num() == 0
    }

    /// Whether a/b = 1.
    pub fn is_one(self) -> bool
        ensures rule { result ≡ spec.is_one self }
        ensures one { IsTrue result ↔ (self ≡ spec.whole 1) }
    {
        self.num() == 1 && self.den() == 1
    }

    /// Whether a/b = c/d.
    pub fn same(self, other: Frac) -> bool
        ensures rule { result ≡ spec.same self other }
        ensures equal { IsTrue result ↔ (self ≡ other) }
    {
        self.num() == other.num() && self.den() == other.den()
    }
}

/// gcd(a, b), where gcd(a, 0) = a.
fn common_divisor(a: u128, b: u128) -> u128
    ensures value { result ≡ gcd a b }
    ensures positive { 0 < b → 0 < result }
    ensures small { 0 < b → result ≤ b }
{
    let mut left = a;
    let mut right = b;
    while right != 0 {
        let rest = left % right;
        left = right;
        right = rest;
    }
    left
}

/// left * right, or `Err(op)` where it does not fit.
fn product(op: Op, left: i128, right: i128) -> Result<i128, Op>
    ensures value { result ≡ number op (left *ℤ right) }
    ensures fits { IfOk result (λ value. unsigned_abs value < 2 ^ 127) }
    ensures formed { IfOk result (λ value. value ≡ left *ℤ right) }
{
    match left.checked_mul(right) {
        Some(value) if value != i128::MIN => Ok(value),
        _ => Err(op),
    }
}

/// left + right, or `Err(op)` where it does not fit.
fn total(op: Op, left: i128, right: i128) -> Result<i128, Op>
    ensures value { result ≡ number op (left +ℤ right) }
    ensures fits { IfOk result (λ value. unsigned_abs value < 2 ^ 127) }
    ensures formed { IfOk result (λ value. value ≡ left +ℤ right) }
{
    match left.checked_add(right) {
        Some(value) if value != i128::MIN => Ok(value),
        _ => Err(op),
    }
}

/// value / divisor, rounded toward zero.
fn quotient(value: i128, divisor: u128) -> i128
    requires positive { 0 < divisor }
    requires divisor_fits { divisor < 2 ^ 127 }
    ensures value { result ≡ int_div value (pos divisor) }
{
    value / (divisor as i128)
}
