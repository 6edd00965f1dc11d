//! The texts of elements, and of polynomials over them.

ghost use Rattle.std.specs.Prelude.{◌≡◌, ◌+◌, ◌≤◌, ◌<◌, ◌^◌, false, length, map, string_bytes, IfOk};
ghost use Rattle.risch_level.specs.Accessors as accessors;
ghost use Rattle.risch_cert.specs.Printing as spec;

use crate::terms::{PrintedElem, add_term, or_zero, print_fraction, print_quotient, variable_name};
use crate::texts::bytes_of;
use risch_elem::{Elem, Poly};
use risch_field::Arith;
use risch_frac::Frac;
use risch_io::Text;
use std::alloc::{AllocError, Global};

/// The text of an element.
///
/// `Err` for want of memory alone.
pub fn print_elem(alloc: Global, element: &Elem) -> Result<Text, AllocError>
    ensures { IfOk result (λ text. text ≡ spec.print_element element.now) }
{
    let text = element_text(alloc, element)?;
    Ok(bytes_of(text))
}

/// The text of the polynomial in z with these coefficients from exponent 0.
///
/// `Err` for want of memory alone.
pub fn print_poly_in_z(alloc: Global, coefficients: &[Elem]) -> Result<Text, AllocError>
    ensures { IfOk result (λ text. text ≡ spec.print_in_z coefficients.now) }
{
    let text = text_in_z(alloc, coefficients)?;
    Ok(bytes_of(text))
}

/// The name of the variable of a level: x for the level 0; t1, t2, .. for those above.
///
/// `Err` for want of memory alone.
pub fn print_variable(alloc: Global, level: u8) -> Result<Text, AllocError>
    ensures { IfOk result (λ text. text ≡ spec.variable_name level) }
{
    let name = variable_name(alloc, level)?;
    Ok(bytes_of(name))
}

/// The text of a polynomial over the elements in the variable of a level.
///
/// `Err` for want of memory alone.
#[tactic(auto, unfolding(crate::specs::Printing::print_in_variable))]
pub fn print_poly(alloc: Global, level: u8, polynomial: &Poly) -> Result<Text, AllocError>
    ensures { IfOk result (λ text. text ≡ spec.print_in_variable level polynomial.now) }
{
    let name = variable_name(alloc, level)?;
    let text = print_polynomial(alloc, 5, name.as_str(), coefficients_of(polynomial))?;
    Ok(bytes_of(text))
}

/// The text of an element.
#[tactic(auto, unfolding(crate::specs::Printing::print_element))]
pub(crate) fn element_text(alloc: Global, element: &Elem) -> Result<String, AllocError>
    ensures { IfOk result (λ text. string_bytes text ≡ spec.print_element element.now) }
{
    let printed = print_below(alloc, 5, element)?;
    Ok(printed.text)
}

/// The polynomial in z with these coefficients from exponent 0.
#[tactic(auto, unfolding(crate::specs::Printing::print_in_z))]
pub(crate) fn text_in_z(alloc: Global, coefficients: &[Elem]) -> Result<String, AllocError>
    ensures { IfOk result (λ text. string_bytes text ≡ spec.print_in_z coefficients.now) }
{
    print_polynomial(alloc, 5, "z", coefficients)
}

/// The fractions as elements.
fn numbers(alloc: Global, fractions: &[Frac]) -> Result<Vec<Elem>, AllocError>
    ensures { IfOk result (λ elements. elements.items ≡ map (accessors.number 5) fractions.now) }
{
    fractions
        .iter()
        .map(|fraction| Elem::num(*fraction))
        .collect(alloc)
}

/// The polynomial in z with these fractions as coefficients from exponent 0.
#[tactic(auto, unfolding(crate::specs::Printing::print_fractions_in_z))]
pub(crate) fn fractions_in_z(alloc: Global, fractions: &[Frac]) -> Result<String, AllocError>
    ensures { IfOk result (λ text. string_bytes text ≡ spec.print_fractions_in_z fractions.now) }
{
    let elements = numbers(alloc, fractions)?;
    text_in_z(alloc, elements.as_slice())
}

/// The coefficients from exponent 0.
fn coefficients_of(polynomial: &Poly) -> &[Elem]
    ensures { result.now ≡ polynomial.now }
{
    polynomial.inner().coefficients()
}

/// The length of the list of the coefficients from exponent 0: deg p + 1, and 0 for p = 0.
fn coefficient_count(polynomial: &Poly) -> usize
    ensures value { result ≡ length polynomial.now }
    ensures small { result ≤ 2 ^ 16 }
{
    match polynomial.degree() {
        Some(degree) => usize::from(degree) + 1,
        None => 0,
    }
}

/// Whether two or more coefficients are not 0.
#[tactic(auto, using(crate::proofs::TermSteps::terms_among_few))]
fn is_sum(polynomial: &Poly) -> bool
    ensures { result ≡ spec.is_sum polynomial.now }
{
    let mut count: usize = 0;
    for exponent in 0..coefficient_count(polynomial) {
        if let Some(_coefficient) = polynomial.coefficient(exponent as u16) {
            count += 1;
        }
    }
    count >= 2
}

/// An element in which no variable occurs.
#[tactic(auto, unfolding(crate::specs::Printing::print_below))]
fn print_number(alloc: Global, element: &Elem) -> Result<PrintedElem, AllocError>
    ensures { IfOk result (λ printed. printed ≡ spec.print_below 0 element.now) }
{
    let number = element.as_num().unwrap_or(Frac::zero());
    let text = print_fraction(alloc, number)?;
    Ok(PrintedElem { text, long: false })
}

/// Whether an element is of this level.
fn is_at(element: &Elem, level: u8) -> bool
    ensures { result ≡ spec.is_level level (accessors.level 5 element.now) }
{
    match element.level() {
        Some(own) => own == level,
        None => false,
    }
}

/// The name of the variable of a level of the tower.
#[tactic(auto, using(crate::proofs::LevelSteps::name_x, crate::proofs::LevelSteps::name_t1, crate::proofs::LevelSteps::name_t2, crate::proofs::LevelSteps::name_t3, crate::proofs::LevelSteps::name_t4))]
fn name_of(level: u8) -> &'static str
    requires { level < 5 }
    ensures { result.now ≡ spec.variable_name level }
{
    match level {
        0 => "x",
        1 => "t1",
        2 => "t2",
        3 => "t3",
        _ => "t4",
    }
}

/// The quotient of two polynomials with these texts, which is not long.
fn printed_quotient(alloc: Global, top: &str, bottom: &str) -> Result<PrintedElem, AllocError>
    ensures { IfOk result (λ printed. printed ≡ record { text = spec.print_quotient top.now bottom.now; long = false }) }
{
    let text = print_quotient(alloc, top, bottom)?;
    Ok(PrintedElem { text, long: false })
}

/// An element in which only the first n variables occur.
#[cycle(element)]
#[tactic(auto, using(crate::proofs::LevelSteps::print_below_level, crate::proofs::LevelSteps::print_below_other))]
fn print_below(alloc: Global, n: u8, element: &Elem) -> Result<PrintedElem, AllocError>
    requires { n ≤ 5 }
    ensures { IfOk result (λ printed. printed ≡ spec.print_below n element.now) }
{
    if n == 0 {
        return print_number(alloc, element);
    }
    let below = n - 1;
    if !is_at(element, below) {
        return print_below(alloc, below, element);
    }
    let numerator = element.num_poly(alloc, below)?;
    let denominator = element.den_poly(alloc, below)?;
    print_ratio(alloc, below, &numerator, &denominator)
}

/// The quotient of two polynomials in the variable of a level, whose coefficients lie below it.
#[cycle(element)]
#[tactic(auto, unfolding(crate::specs::Printing::print_ratio))]
fn print_ratio(
    alloc: Global,
    level: u8,
    numerator: &Poly,
    denominator: &Poly,
) -> Result<PrintedElem, AllocError>
    requires { level < 5 }
    ensures { IfOk result (λ printed. printed ≡ spec.print_ratio (spec.print_below level) (spec.variable_name level) numerator.now denominator.now) }
{
    let name = name_of(level);
    let top = print_polynomial(alloc, level, name, coefficients_of(numerator))?;
    if denominator.is_one() {
        return Ok(PrintedElem {
            text: top,
            long: is_sum(numerator),
        });
    }
    let bottom = print_polynomial(alloc, level, name, coefficients_of(denominator))?;
    printed_quotient(alloc, top.as_str(), bottom.as_str())
}

/// The polynomial in a variable with these coefficients from exponent 0, in which only the first n variables occur.
#[cycle(element)]
#[tactic(auto, unfolding(crate::specs::Printing::print_polynomial))]
fn print_polynomial(
    alloc: Global,
    n: u8,
    name: &str,
    coefficients: &[Elem],
) -> Result<String, AllocError>
    requires { n ≤ 5 }
    ensures { IfOk result (λ text. string_bytes text ≡ spec.print_polynomial (spec.print_below n) name.now coefficients.now) }
{
    let mut terms = String::new(alloc);
    for exponent in (0..coefficients.len()).rev() {
        let coefficient = &coefficients[exponent];
        if !coefficient.is_zero() {
            let printed = print_below(alloc, n, coefficient)?;
            add_term(alloc, &mut terms, name, coefficient, printed, exponent)?;
        }
    }
    or_zero(alloc, terms)
}
