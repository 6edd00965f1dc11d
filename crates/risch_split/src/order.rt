//! The order of an element at the variable of a level, and its value where the variable is 0.

ghost use Rattle.std.specs.Prelude.{◌≡◌, ◌<◌, ◌+◌, pos, IfOk};
ghost use Rattle.risch_field.specs.Checked.{Agrees};
ghost use Rattle.risch_polynomial.specs.Poly as rules;
ghost use Rattle.risch_level.specs.Levels.{element as operations};
ghost use Rattle.risch_element_theory.specs.WholeTower.{Within};
ghost use Rattle.risch_monomial.specs.LevelElements.{numerator_at, denominator_at};
ghost use Rattle.risch_split.specs.Canonical as spec;

use crate::special::least_exponent;
use risch_elem::{Elem, Fail, Poly};
use risch_field::Arith;
use std::alloc::{AllocError, Global};

/// The order of an element other than 0 at the variable t of a level: the least exponent of its numerator minus that of its denominator, from -255 to 255 (Bronstein, section 4.1).
///
/// It is 0 for an element below the level. `Err` for want of memory alone.
pub fn order_at(alloc: Global, level: u8, element: &Elem) -> Result<i16, AllocError>
    requires { level < 5 }
    ensures { IfOk result (λ it. it ≡ spec.order_at level element.now) }
{
    let numerator = element.num_poly(alloc, level)?;
    let denominator = element.den_poly(alloc, level)?;
    Ok(least_exponent(&numerator) as i16 - least_exponent(&denominator) as i16)
}

/// The coefficient at exponent 0, which is 0 for the polynomial 0.
fn constant_coefficient(alloc: Global, of: &Poly) -> Result<Elem, AllocError>
    ensures { IfOk result (λ it. it ≡ rules.coefficient operations of.now 0) }
{
    match of.inner().coefficients().first() {
        Some(coefficient) => coefficient.copy(alloc),
        None => Ok(Elem::zero()),
    }
}

/// N_0 for the numerator N of an element at a level; it lies below the level where the element lies in it.
///
/// `Err` for want of memory alone.
fn numerator_at_zero(alloc: Global, level: u8, of: &Elem) -> Result<Elem, AllocError>
    requires { level < 5 }
    ensures value { IfOk result (λ it. it ≡ rules.coefficient operations (numerator_at level of.now) 0) }
    ensures within { Within (level + 1) of.now → IfOk result (λ it. Within level it) }
{
    let numerator = of.num_poly(alloc, level)?;
    constant_coefficient(alloc, &numerator)
}

/// M_0 for the denominator M of an element at a level; it lies below the level where the element lies in it.
///
/// `Err` for want of memory alone.
fn denominator_at_zero(alloc: Global, level: u8, of: &Elem) -> Result<Elem, AllocError>
    requires { level < 5 }
    ensures value { IfOk result (λ it. it ≡ rules.coefficient operations (denominator_at level of.now) 0) }
    ensures within { Within (level + 1) of.now → IfOk result (λ it. Within level it) }
{
    let denominator = of.den_poly(alloc, level)?;
    constant_coefficient(alloc, &denominator)
}

/// The value N_0/M_0 of an element N/M of order 0 where the variable of the level is 0; it lies below the level where the element lies in it.
///
/// Stops: those of the quotient.
pub fn value_at(alloc: Global, level: u8, element: &Elem) -> Result<Elem, Fail>
    requires level { level < 5 }
    requires order { spec.order_at level element.now ≡ pos 0 }
    ensures rule { Agrees result (spec.value_at level element.now) }
    ensures within { Within (level + 1) element.now → IfOk result (λ it. Within level it) }
{
    let _nest = element.nest();
    let top = numerator_at_zero(alloc, level, element)?;
    let bottom = denominator_at_zero(alloc, level, element)?;
    top.div(alloc, &bottom)
}
