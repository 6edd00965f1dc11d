//! Polynomials in x over the fractions, as elements of the tower and back.
ghost use Rattle.std.specs.Prelude.{◌≡◌, ◌≤◌, length, map, IfOk, IfSome, Ok};
ghost use Rattle.risch_field.specs.Checked.{Agrees};
ghost use Rattle.risch_field.specs.Ground.{ground};
ghost use Rattle.risch_polynomial.specs.Poly as poly;
ghost use Rattle.risch_level.specs.Accessors.{number};
ghost use Rattle.risch_level.specs.Levels.{Element};
ghost use Rattle.risch_element_theory.specs.WholeTower.{Within};
ghost use Rattle.risch_round.specs.Elements as spec;
ghost use Rattle.risch_round.specs.Meaning.{IsPolynomialInX};

use risch_elem::{Elem, ElemList};
use risch_field::{Arith, Fail};
use risch_frac::Frac;
use risch_nest::Nest;
use risch_polynomial::Poly;
use std::alloc::{AllocError, Global};

/// The fraction that an element is, and 0 where it is none.
fn fraction_of(element: &Nest) -> Frac
    ensures { result ≡ spec.fraction_of element.now }
{
    match element.as_number() {
        Some(fraction) => fraction,
        None => Frac::zero(),
    }
}

/// The same of each element of a list.
fn fractions(alloc: Global, elements: &[Nest]) -> Result<Vec<Frac>, AllocError>
    ensures { IfOk result (λ it. it.items ≡ map spec.fraction_of elements.now) }
{
    let mut fractions = Vec::new(alloc);
    for element in elements {
        fractions.push(fraction_of(element))?;
    }
    Ok(fractions)
}

/// p_0, p_1, .. for an element p_0 + p_1·x + .. of Q(x) with fractions p_j.
///
/// `Err` for want of memory alone.
pub fn coefficients(alloc: Global, element: &Elem) -> Result<Option<Poly<Frac>>, AllocError>
    requires { Within 1 element.now }
    ensures value { IfOk result (λ it. it ≡ spec.coefficients element.now) }
    ensures stands { IfOk result (λ it. IfSome it (λ p. IsPolynomialInX element.now p)) }
{
    let nest = element.nest();
    if !nest.denominator(alloc, 0)?.is_one() {
        return Ok(None);
    }
    let numerator = nest.numerator(alloc, 0)?;
    let fractions = fractions(alloc, numerator.coefficients())?;
    Ok(Some(Poly::trimmed(fractions)))
}

/// The fractions as elements.
fn numbers(alloc: Global, fractions: &[Frac]) -> Result<ElemList, AllocError>
    ensures { IfOk result (λ it. it ≡ map (number 5) fractions.now) }
{
    let mut numbers = ElemList::new(alloc);
    for fraction in fractions {
        numbers.push(Elem::num(*fraction))?;
    }
    Ok(numbers)
}

/// The polynomial p_0 + p_1·t + .. over the elements, for fractions p_j of which the last is not 0.
///
/// `Err` for want of memory alone.
fn over_elements(alloc: Global, fractions: &[Frac]) -> Result<risch_elem::Poly, AllocError>
    requires ends_not_zero { poly.trimmed ground fractions.now ≡ fractions.now }
    requires degree_small { length fractions.now ≤ 256 }
    ensures { IfOk result (λ it. it ≡ map (number 5) fractions.now) }
{
    let numbers = numbers(alloc, fractions)?;
    risch_elem::Poly::of(numbers)
}

/// The element that a rule forms, for which memory alone may be wanting.
fn formed(of: Result<Elem, Fail>) -> Result<Elem, AllocError>
    requires { (element : Element) × Agrees of (Ok element) }
    ensures { IfOk result (λ it. of ≡ Ok it) }
{
    match of {
        Ok(element) => Ok(element),
        Err(Fail::Memory) => Err(AllocError),
        Err(Fail::Overflow(_)) => unreachable!(),
        Err(Fail::Size) => unreachable!(),
    }
}

/// The element p_0 + p_1·x + ..
///
/// `Err` for want of memory alone.
pub fn element_of(alloc: Global, polynomial: &Poly<Frac>) -> Result<Elem, AllocError>
    ensures value { IfOk result (λ it. it ≡ spec.element_of polynomial.now) }
    ensures within { IfOk result (λ it. Within 1 it) }
{
    let _weight = polynomial.kept_weight();
    let numerator = over_elements(alloc, polynomial.coefficients())?;
    let denominator = over_elements(alloc, &[Frac::one()])?;
    formed(Elem::quotient(alloc, 0, &numerator, &denominator))
}
