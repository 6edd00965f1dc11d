//! The texts of fractions, powers, terms and quotients.

ghost use Rattle.std.specs.Prelude.{◌≡◌, ◌++◌, ◌||◌, not, codes, string_bytes, IfOk, OnOk};
ghost use Rattle.risch_level.specs.Accessors.{as_number};
ghost use Rattle.risch_cert.specs.Texts as texts;
ghost use Rattle.risch_cert.specs.Printing as spec;

use crate::texts::{is_digits, is_power};
use risch_elem::Elem;
use risch_frac::Frac;
use std::alloc::{AllocError, Global};
use std::marker::Model;

/// The text of an element, and whether it is long: whether the element has the denominator 1 and two or more terms other than 0 at its own level.
#[derive(Drop)]
pub(crate) struct PrintedElem {
    pub(crate) text: String,
    pub(crate) long: bool,
}

impl Model for PrintedElem {
    ghost use Rattle.std.specs.Prelude.{string_bytes};
    ghost use Rattle.risch_cert.specs.Printing.{Printed};

    ghost Value = { Printed };

    ghost view = { λ p. record { text = string_bytes p.text; long = p.long } };
}

/// p, or p/q.
#[tactic(auto, unfolding(crate::specs::Printing::print_fraction))]
pub(crate) fn print_fraction(alloc: Global, fraction: Frac) -> Result<String, AllocError>
    ensures { IfOk result (λ text. string_bytes text ≡ spec.print_fraction fraction) }
{
    let num = fraction.num();
    let den = fraction.den();
    if den == 1 {
        format!(in alloc; "{num}")
    } else {
        format!(in alloc; "{num}/{den}")
    }
}

/// x for the level 0; t1, t2, .. for those above.
#[tactic(auto, unfolding(crate::specs::Printing::variable_name))]
pub(crate) fn variable_name(alloc: Global, level: u8) -> Result<String, AllocError>
    ensures { IfOk result (λ name. string_bytes name ≡ spec.variable_name level) }
{
    if level == 0 {
        String::from_str(alloc, "x")
    } else {
        format!(in alloc; "t{level}")
    }
}

/// Appends a text, in parentheses where that is needed.
fn push_enclosed(text: &mut String, needed: bool, part: &str) -> Result<(), AllocError>
    ensures { OnOk result (string_bytes text.new ≡ string_bytes text.old ++ spec.enclosed needed part.now) }
{
    if needed {
        write!(text, "({part})")
    } else {
        text.push_str(part)
    }
}

/// Whether the text is digits alone, or a variable with or without an exponent.
fn is_bare(text: &[u8]) -> bool
    ensures { result ≡ (texts.is_digits text.now || texts.is_power text.now) }
{
    is_digits(text) || is_power(text)
}

/// Appends `/` and the denominator with this text.
fn push_divisor(text: &mut String, bottom: &str) -> Result<(), AllocError>
    ensures { OnOk result (string_bytes text.new ≡ string_bytes text.old ++ (codes "/" ++ spec.enclosed (not (texts.is_power bottom.now)) bottom.now)) }
{
    text.push('/')?;
    push_enclosed(text, !is_power(bottom.as_bytes()), bottom)
}

/// The quotient of two polynomials with these texts.
#[tactic(auto, unfolding(crate::specs::Printing::print_quotient))]
pub(crate) fn print_quotient(alloc: Global, top: &str, bottom: &str) -> Result<String, AllocError>
    ensures { IfOk result (λ text. string_bytes text ≡ spec.print_quotient top.now bottom.now) }
{
    let bare = is_bare(top.as_bytes());
    let mut text = String::new(alloc);
    push_enclosed(&mut text, !bare, top)?;
    push_divisor(&mut text, bottom)?;
    Ok(text)
}

/// Appends t^e for e above 0: t for e = 1.
fn push_power(text: &mut String, name: &str, exponent: usize) -> Result<(), AllocError>
    ensures { OnOk result (string_bytes text.new ≡ string_bytes text.old ++ spec.print_power name.now exponent) }
{
    if exponent == 1 {
        text.push_str(name)
    } else {
        write!(text, "{name}^{exponent}")
    }
}

/// Whether the element is the whole number z.
fn is_whole(element: &Elem, whole: i128) -> bool
    ensures { result ≡ spec.is_whole whole (as_number 5 element.now) }
{
    match element.as_num() {
        Some(number) => number.num() == whole && number.den() == 1,
        None => false,
    }
}

/// A coefficient, in parentheses where it is long, and `*`.
fn print_multiplied(alloc: Global, printed: &PrintedElem) -> Result<String, AllocError>
    ensures { IfOk result (λ text. string_bytes text ≡ spec.enclosed printed.now.long printed.now.text ++ codes "*") }
{
    let mut text = String::new(alloc);
    push_enclosed(&mut text, printed.long, printed.text.as_str())?;
    text.push('*')?;
    Ok(text)
}

/// What stands before a power of the variable: nothing for 1, `-` for -1, else the coefficient, in parentheses where it is long, and `*`.
#[tactic(auto, unfolding(crate::specs::Printing::print_factor))]
fn print_factor(
    alloc: Global,
    coefficient: &Elem,
    printed: &PrintedElem,
) -> Result<String, AllocError>
    ensures { IfOk result (λ text. string_bytes text ≡ spec.print_factor coefficient.now printed.now) }
{
    if is_whole(coefficient, 1) {
        return Ok(String::new(alloc));
    }
    if is_whole(coefficient, -1) {
        return String::from_str(alloc, "-");
    }
    print_multiplied(alloc, printed)
}

/// The term c·t^e for e above 0.
fn print_product(
    alloc: Global,
    name: &str,
    coefficient: &Elem,
    printed: &PrintedElem,
    exponent: usize,
) -> Result<String, AllocError>
    ensures { IfOk result (λ text. string_bytes text ≡ spec.print_factor coefficient.now printed.now ++ spec.print_power name.now exponent) }
{
    let mut text = print_factor(alloc, coefficient, printed)?;
    push_power(&mut text, name, exponent)?;
    Ok(text)
}

/// The term c·t^e.
fn print_term(
    alloc: Global,
    name: &str,
    coefficient: &Elem,
    printed: PrintedElem,
    exponent: usize,
) -> Result<String, AllocError>
    ensures { IfOk result (λ text. string_bytes text ≡ spec.print_term name.now coefficient.now printed exponent) }
{
    if exponent == 0 {
        return Ok(printed.text);
    }
    print_product(alloc, name, coefficient, &printed, exponent)
}

/// Whether a text begins with `-`.
fn is_signed(text: &str) -> bool
    ensures { result ≡ spec.is_signed text.now }
{
    match text.as_bytes().split_first() {
        Some((first, _)) => *first == b'-',
        None => false,
    }
}

/// Appends a term to those of higher exponents.
fn add_text(terms: &mut String, term: &str) -> Result<(), AllocError>
    ensures { OnOk result (string_bytes terms.new ≡ spec.add_text (string_bytes terms.old) term.now) }
{
    if terms.is_empty() || is_signed(term) {
        return terms.push_str(term);
    }
    terms.push('+')?;
    terms.push_str(term)
}

/// Appends the term c·t^e, for c other than 0, to those of higher exponents.
pub(crate) fn add_term(
    alloc: Global,
    terms: &mut String,
    name: &str,
    coefficient: &Elem,
    printed: PrintedElem,
    exponent: usize,
) -> Result<(), AllocError>
    ensures { OnOk result (string_bytes terms.new ≡ spec.add_text (string_bytes terms.old) (spec.print_term name.now coefficient.now printed exponent)) }
{
    let term = print_term(alloc, name, coefficient, printed, exponent)?;
    add_text(terms, term.as_str())
}

/// `0` where there is no term.
pub(crate) fn or_zero(alloc: Global, terms: String) -> Result<String, AllocError>
    ensures { IfOk result (λ text. string_bytes text ≡ spec.or_zero (string_bytes terms)) }
{
    if terms.is_empty() {
        return String::from_str(alloc, "0");
    }
    Ok(terms)
}
