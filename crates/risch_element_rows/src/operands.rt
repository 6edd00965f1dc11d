// The operands of a call, written as expressions with blanks between them.
ghost use Rattle.std.specs.Prelude.{◌<◌, IfOk};

use crate::halt::Halt;
use risch_elem::{Elem, ElemList, Poly, PolyList};
use risch_expression::{Names, Program, Words, evaluate, evaluate_element, read_sum};
use risch_frac::Frac;
use std::alloc::{AllocError, Global};

/// The cause of a call that there is not, or not of so many operands.
pub const NO_CALL: &str = "no such call";

const NO_EXPRESSION: &str = "a word that is no expression";

const NO_VALUE: &str = "an expression that has no value";

const NO_LEVEL: &str = "no such level";

const NO_EXPONENT: &str = "no such exponent";

// Whether a word is an expression in x and t1 to t4, and in z where it may stand; its steps are appended.
fn is_read(word: &str, with_z: bool, program: &mut Program) -> bool {
    let bytes = word.as_bytes();
    if bytes.len() >= 1 << 32 {
        return false;
    }
    let names = Names {
        monomials: 4,
        with_z,
    };
    let mut words = Words::start(bytes);
    match read_sum(&mut words, program, names) {
        Ok(()) => words.left() == 0,
        Err(_) => false,
    }
}

/// The element that a word stands for.
pub fn element(alloc: Global, word: &str) -> Result<Elem, Halt> {
    let mut program = Program::new(alloc);
    if !is_read(word, false, &mut program) {
        return Err(Halt::Cause(NO_EXPRESSION));
    }
    match evaluate_element(alloc, program.as_slice()) {
        Ok(element) => Ok(element),
        Err(_) => Err(Halt::Cause(NO_VALUE)),
    }
}

/// The polynomial in z that a word stands for.
pub fn polynomial(alloc: Global, word: &str) -> Result<Poly, Halt> {
    let mut program = Program::new(alloc);
    if !is_read(word, true, &mut program) {
        return Err(Halt::Cause(NO_EXPRESSION));
    }
    match evaluate(alloc, program.as_slice()) {
        Ok(polynomial) => Ok(polynomial),
        Err(_) => Err(Halt::Cause(NO_VALUE)),
    }
}

// The end of a step that wants memory.
fn held(step: Result<(), AllocError>) -> Result<(), Halt> {
    match step {
        Ok(()) => Ok(()),
        Err(_) => Err(Halt::Memory),
    }
}

// Appends the element that a word stands for.
fn push_element(alloc: Global, elements: &mut ElemList, word: &str) -> Result<(), Halt> {
    let element = element(alloc, word)?;
    held(elements.push(element))
}

/// The elements that words stand for.
pub fn elements(alloc: Global, words: &str) -> Result<ElemList, Halt> {
    let mut elements = ElemList::new(alloc);
    for word in words.split_whitespace() {
        push_element(alloc, &mut elements, word)?;
    }
    Ok(elements)
}

// Appends the polynomial that a word stands for.
fn push_polynomial(alloc: Global, polynomials: &mut PolyList, word: &str) -> Result<(), Halt> {
    let polynomial = polynomial(alloc, word)?;
    held(polynomials.push(polynomial))
}

/// The polynomials that words stand for.
pub fn polynomials(alloc: Global, words: &str) -> Result<PolyList, Halt> {
    let mut polynomials = PolyList::new(alloc);
    for word in words.split_whitespace() {
        push_polynomial(alloc, &mut polynomials, word)?;
    }
    Ok(polynomials)
}

// The whole number that a number is.
fn whole(number: Option<Frac>) -> Option<i128> {
    match number {
        Some(number) if number.den() == 1 => Some(number.num()),
        _ => None,
    }
}

/// The level that a number stands for, from 0 to 4.
pub fn level(number: Option<Frac>) -> Result<u8, Halt>
    ensures { IfOk result (λ level. level < 5) }
{
    match whole(number) {
        Some(0) => Ok(0),
        Some(1) => Ok(1),
        Some(2) => Ok(2),
        Some(3) => Ok(3),
        Some(4) => Ok(4),
        _ => Err(Halt::Cause(NO_LEVEL)),
    }
}

/// The exponent that a number stands for.
pub fn exponent(number: Option<Frac>) -> Result<u16, Halt> {
    match whole(number) {
        Some(number) => match u16::try_from(number) {
            Ok(exponent) => Ok(exponent),
            Err(_) => Err(Halt::Cause(NO_EXPONENT)),
        },
        None => Err(Halt::Cause(NO_EXPONENT)),
    }
}

// Whether the degree is at most 0.
fn is_constant(polynomial: &Poly) -> bool {
    match polynomial.degree() {
        Some(degree) => degree == 0,
        None => true,
    }
}

// The number that a polynomial of degree at most 0 is.
fn number_of(polynomial: &Poly) -> Option<Frac> {
    match polynomial.coefficient(0) {
        Some(constant) => constant.as_num(),
        None => Some(Frac::new(0, 1)),
    }
}

const NO_ELEMENT: &str = "an element was expected";

/// The level that a polynomial stands for, from 0 to 4.
pub fn polynomial_level(polynomial: &Poly) -> Result<u8, Halt>
    ensures { IfOk result (λ level. level < 5) }
{
    if is_constant(polynomial) {
        level(number_of(polynomial))
    } else {
        Err(Halt::Cause(NO_ELEMENT))
    }
}

/// The exponent that a polynomial stands for.
pub fn exponent_of(polynomial: &Poly) -> Result<u16, Halt> {
    if is_constant(polynomial) {
        exponent(number_of(polynomial))
    } else {
        Err(Halt::Cause(NO_ELEMENT))
    }
}

/// The element that a polynomial of degree at most 0 is.
pub fn constant(alloc: Global, polynomial: &Poly) -> Result<Elem, Halt> {
    if !is_constant(polynomial) {
        return Err(Halt::Cause(NO_ELEMENT));
    }
    match polynomial.coefficient(0) {
        Some(constant) => match constant.copy(alloc) {
            Ok(constant) => Ok(constant),
            Err(_) => Err(Halt::Memory),
        },
        None => Ok(Elem::num(Frac::new(0, 1))),
    }
}
