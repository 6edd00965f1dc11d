//! The logarithm of one square-free part R of the characteristic polynomial with its argument S: the sum over the roots z of R of z·log S(z), and c·log S(c) for R = z - c.

ghost use Rattle.std.specs.Prelude.{◌≡◌, ◌<◌, [], All, IfOk};
ghost use Rattle.risch_field.specs.Checked.{Agrees};
ghost use Rattle.risch_level.specs.Accessors.{as_number};
ghost use Rattle.risch_element_theory.specs.WholeTower.{AllWithin};
ghost use Rattle.risch_logarithm_rules.specs.Logarithms as spec;

use crate::members::coefficient;
use risch_elem::{Elem, ElemList, Fail, FracList, Poly};
use risch_field::Arith;
use risch_frac::Frac;
use risch_monomial::of_polynomial;
use risch_rootsum::LogPart;
use risch_sub::polynomials::Inner;
use risch_trace::elements::all_normal;
use std::alloc::{AllocError, Global};

/// The coefficients at z^k of the coefficients of t^0, t^1, ..
fn coefficients_at(alloc: Global, exponent: usize, of: &[Inner]) -> Result<Vec<Elem>, AllocError>
    ensures { IfOk result (λ it. it.items ≡ spec.coefficients_at exponent of.now) }
{
    let mut coefficients = Vec::new(alloc);
    for polynomial in of {
        coefficients.push(coefficient(alloc, polynomial.coefficients(), exponent)?)?;
    }
    Ok(coefficients)
}

/// The coefficient at z^k as a polynomial in t.
///
/// Stops: Size where it is beyond the limits.
#[tactic(auto, unfolding(risch_logarithm_rules::specs::Logarithms::polynomial_at))]
fn polynomial_at(alloc: Global, exponent: usize, of: &[Inner]) -> Result<Poly, Fail>
    ensures { Agrees result (spec.polynomial_at exponent of.now) }
{
    let coefficients = coefficients_at(alloc, exponent, of)?;
    all_normal(&coefficients);
    let polynomial = Inner::from_coefficients(coefficients)?;
    let _coefficients = polynomial.coefficients();
    Ok(Poly::kept(polynomial))
}

/// The coefficient at z^k as an element of the level.
#[tactic(auto, using(risch_field::proofs::CheckedSteps::stop_passes, risch_field::proofs::CheckedSteps::value_passes), unfolding(risch_logarithm_rules::specs::Logarithms::element_at))]
fn element_at(alloc: Global, level: u8, exponent: usize, of: &[Inner]) -> Result<Elem, Fail>
    requires level { level < 5 }
    requires within { All (AllWithin level) of.now }
    ensures { Agrees result (spec.element_at level exponent of.now) }
{
    let polynomial = polynomial_at(alloc, exponent, of)?;
    of_polynomial(alloc, level, &polynomial)
}

/// S ordered by the powers of z, the first `count` of them.
fn by_powers(alloc: Global, level: u8, count: usize, of: &[Inner]) -> Result<ElemList, Fail>
    requires level { level < 5 }
    requires within { All (AllWithin level) of.now }
    ensures { Agrees result (spec.by_powers_from level 0 count [] of.now) }
{
    let mut elements = ElemList::new(alloc);
    for exponent in 0..count {
        let next = element_at(alloc, level, exponent, of)?;
        elements.push(next)?;
    }
    Ok(elements)
}

/// One more than the highest exponent of z.
fn width(of: &[Inner]) -> usize
    ensures { result ≡ spec.width of.now }
{
    let mut most = 0;
    for polynomial in of {
        most = most.max(polynomial.coefficients().len());
    }
    most
}

/// How many powers of z count modulo R.
fn power_count(poly: &Inner, of: &[Inner]) -> usize
    ensures { result ≡ spec.power_count poly.now of.now }
{
    if poly.coefficients().len() == 2 {
        return 1;
    }
    width(of)
}

/// The fraction that an element is, and 0 for another.
pub(crate) fn fraction(of: &Elem) -> Frac
    ensures { result ≡ spec.fraction_of (as_number 5 of.now) }
{
    match of.as_num() {
        Some(fraction) => fraction,
        None => Frac::zero(),
    }
}

/// The fractions that the coefficients are.
fn fractions(alloc: Global, of: &[Elem]) -> Result<FracList, AllocError>
    ensures { IfOk result (λ it. it ≡ spec.fractions_of of.now) }
{
    let mut fractions = FracList::new(alloc);
    for coefficient in of {
        fractions.push(fraction(coefficient))?;
    }
    Ok(fractions)
}

/// The sum over the roots z of R of z·log S(z), for S with coefficients below the level.
///
/// Stops: that of the first power of z whose coefficient cannot be formed; Size where S is beyond the limits.
#[tactic(auto, using(risch_field::proofs::CheckedSteps::stop_passes, risch_field::proofs::CheckedSteps::value_passes), unfolding(risch_logarithm_rules::specs::Logarithms::logarithm))]
pub(crate) fn logarithm(
    alloc: Global,
    level: u8,
    poly: &Inner,
    argument: &[Inner],
) -> Result<LogPart, Fail>
    requires level { level < 5 }
    requires within { All (AllWithin level) argument.now }
    ensures { Agrees result (spec.logarithm level poly.now argument.now) }
{
    let elements = by_powers(alloc, level, power_count(poly, argument), argument)?;
    let arg = Inner::from_coefficients(elements.into_vec())?;
    Ok(LogPart {
        poly: fractions(alloc, poly.coefficients())?,
        arg: ElemList::from_vec(arg.into_coefficients()),
    })
}
