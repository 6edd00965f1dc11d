// The conditions of calls that the library has no test for.
ghost use Rattle.std.specs.Prelude.{◌≡◌, ◌≤◌, ◌<◌, ◌+◌, length, IsTrue, IfOk};
ghost use Rattle.risch_polynomial.specs.Poly as poly;
ghost use Rattle.risch_element_theory.specs.WholeTower.{Within, AllWithin};
ghost use Rattle.risch_level.specs.Levels.{element};

use crate::halt::Halt;
use crate::operands::{level, polynomial_level};
use risch_elem::{Elem, ElemList, Poly};
use risch_tower::Tower;

const NOT_IN_LEVEL: &str = "an element that does not lie in the level";

/// Whether a polynomial has a degree of at least 1.
pub fn is_modulus(polynomial: &Poly) -> bool
    ensures { IsTrue result → 2 ≤ length polynomial.now }
{
    match polynomial.degree() {
        None => false,
        Some(degree) => degree > 0,
    }
}

/// Whether the degree of a is below that of b.
pub fn is_below(a: &Poly, b: &Poly) -> bool
    ensures { IsTrue result → length a.now < length b.now }
{
    match b.degree() {
        None => false,
        Some(most) => match a.degree() {
            None => true,
            Some(degree) => degree < most,
        },
    }
}

/// The sum of the weights of coefficients that are not 0, of at most 256.
fn weigh(coefficients: &[Elem]) -> u32
    requires { length coefficients.now ≤ 256 }
    ensures { result ≡ poly.weight element coefficients.now }
{
    let mut weight = 0;
    for coefficient in coefficients {
        if !coefficient.is_zero() {
            weight += coefficient.weight();
        }
    }
    weight
}

/// Whether the polynomial with these coefficients is within the limits.
#[tactic(auto, using(crate::proofs::Coefficients::trimmed_is_shorter))]
pub fn are_coefficients(coefficients: &ElemList) -> bool
    ensures degree { IsTrue result → length (poly.trimmed element coefficients.now) ≤ 256 }
    ensures weight { IsTrue result → poly.weight element coefficients.now ≤ 65536 }
{
    let coefficients = coefficients.as_slice();
    coefficients.len() <= 256 && weigh(coefficients) <= 65536
}

/// The level that a number stands for, where an element lies in it.
pub fn level_of(element: &Elem, at: &Elem) -> Result<u8, Halt>
    ensures small { IfOk result (λ it. it < 5) }
    ensures within { IfOk result (λ it. Within (it + 1) element.now) }
{
    match level(at.as_num()) {
        Ok(level) if element.is_within(level + 1) => Ok(level),
        Ok(_) => Err(Halt::Cause(NOT_IN_LEVEL)),
        Err(halt) => Err(halt),
    }
}

/// The level of the tower that a number stands for.
fn tower_level(tower: &Tower, at: &Elem) -> Result<u8, Halt>
    ensures small { IfOk result (λ it. it < 5) }
    ensures there { IfOk result (λ it. it ≤ length tower.now) }
{
    match level(at.as_num()) {
        Ok(level) if level <= tower.height() => Ok(level),
        Ok(_) => Err(Halt::Cause("no such level")),
        Err(halt) => Err(halt),
    }
}

/// The level of the tower that a number stands for, where an element lies in it.
pub fn tower_level_of(tower: &Tower, element: &Elem, at: &Elem) -> Result<u8, Halt>
    ensures there { IfOk result (λ it. it ≤ length tower.now) }
    ensures within { IfOk result (λ it. Within (it + 1) element.now) }
{
    match tower_level(tower, at) {
        Ok(level) if element.is_within(level + 1) => Ok(level),
        Ok(_) => Err(Halt::Cause(NOT_IN_LEVEL)),
        Err(halt) => Err(halt),
    }
}

/// The level of the tower that a polynomial stands for, where the coefficients of another one lie below it.
pub fn level_above(tower: &Tower, coefficients: &Poly, at: &Poly) -> Result<u8, Halt>
    ensures there { IfOk result (λ it. it ≤ length tower.now) }
    ensures within { IfOk result (λ it. AllWithin it coefficients.now) }
{
    match polynomial_level(at) {
        Ok(level) if level > tower.height() => Err(Halt::Cause("no such level")),
        Ok(level) if coefficients.is_within(level) => Ok(level),
        Ok(_) => Err(Halt::Cause("a coefficient that does not lie below the level")),
        Err(halt) => Err(halt),
    }
}
