// The calls of polynomials.
ghost use Rattle.std.specs.Prelude.{◌<◌};

use crate::conditions::{is_modulus, level_above};
use crate::operands::{NO_CALL, constant, elements, exponent_of, polynomial_level, polynomials};
use crate::reductions;
use crate::values::Values;
use risch_elem::{Elem, Poly};
use risch_tower::Tower;
use std::alloc::Global;

/// Plays a call over a tower.
pub fn play(alloc: Global, tower: &Tower, call: &str, operands: &str, values: &mut Values) {
    match polynomials(alloc, operands) {
        Ok(operands) => of_operands(alloc, tower, call, operands.as_slice(), values),
        Err(halt) => values.refuse(halt),
    }
}

fn of_operands(alloc: Global, tower: &Tower, call: &str, operands: &[Poly], values: &mut Values) {
    match operands {
        [a] => of_one(alloc, call, a, values),
        [a, b] => of_two(alloc, tower, call, a, b, values),
        [a, b, c] => of_three(alloc, call, a, b, c, values),
        _ => values.cause(NO_CALL),
    }
}

fn of_one(alloc: Global, call: &str, a: &Poly, values: &mut Values) {
    match call {
        "copy" => values.copied_polynomial(a.copy(alloc)),
        "neg" => values.copied_polynomial(a.neg(alloc)),
        "monic" => values.formed_polynomial(a.monic(alloc)),
        "partial" => values.formed_polynomial(a.partial(alloc)),
        "square_free" => reductions::parts(alloc, a, values),
        _ => about(call, a, values),
    }
}

fn about(call: &str, a: &Poly, values: &mut Values) {
    match call {
        "degree" => match a.degree() {
            Some(degree) => values.whole(u64::from(degree)),
            None => values.name("none"),
        },
        "weight" => values.whole(u64::from(a.weight())),
        "is_zero" => values.answer(a.is_zero()),
        _ => values.cause(NO_CALL),
    }
}

fn of_two(alloc: Global, tower: &Tower, call: &str, a: &Poly, b: &Poly, values: &mut Values) {
    match call {
        "same" => values.answer(a.same(b)),
        "add" => values.formed_polynomial(a.add(alloc, b)),
        "mul" => values.formed_polynomial(a.mul(alloc, b)),
        "derive_poly" => derive_poly(alloc, tower, a, b, values),
        "split" => reductions::splitting(alloc, tower, a, b, values),
        _ => of_both(alloc, call, a, b, values),
    }
}

fn of_both(alloc: Global, call: &str, a: &Poly, b: &Poly, values: &mut Values) {
    match call {
        "scale" => scale(alloc, a, b, values),
        "coefficient" => coefficient(alloc, a, b, values),
        "div_rem" => div_rem(alloc, a, b, values),
        "gcd" => gcd(alloc, a, b, values),
        "inverse_mod" => inverse_mod(alloc, a, b, values),
        _ => values.cause(NO_CALL),
    }
}

fn of_three(alloc: Global, call: &str, a: &Poly, b: &Poly, c: &Poly, values: &mut Values) {
    match call {
        "quotient" => quotient(alloc, a, b, c, values),
        "solve_mod" => solve_mod(alloc, a, b, c, values),
        "characteristic" => reductions::traces(alloc, a, b, c, values),
        _ => values.cause(NO_CALL),
    }
}

/// Plays the call that makes a polynomial of its coefficients.
pub fn of(alloc: Global, operands: &str, values: &mut Values) {
    match elements(alloc, operands) {
        Ok(coefficients) => values.coefficients(coefficients),
        Err(halt) => values.refuse(halt),
    }
}

fn scale(alloc: Global, a: &Poly, by: &Poly, values: &mut Values) {
    match constant(alloc, by) {
        Ok(factor) => values.formed_polynomial(a.scale(alloc, &factor)),
        Err(halt) => values.refuse(halt),
    }
}

fn coefficient(alloc: Global, a: &Poly, at: &Poly, values: &mut Values) {
    match exponent_of(at) {
        Ok(exponent) => match a.coefficient(exponent) {
            Some(coefficient) => values.copied(coefficient.copy(alloc)),
            None => values.name("none"),
        },
        Err(halt) => values.refuse(halt),
    }
}

fn div_rem(alloc: Global, a: &Poly, b: &Poly, values: &mut Values) {
    if b.is_zero() {
        values.cause("a division by 0")
    } else {
        values.formed_pair(a.div_rem(alloc, b))
    }
}

fn gcd(alloc: Global, a: &Poly, b: &Poly, values: &mut Values) {
    if a.is_zero() && b.is_zero() {
        values.cause("no common divisor of 0 and 0")
    } else {
        values.formed_polynomial(a.gcd(alloc, b))
    }
}

fn inverse_mod(alloc: Global, b: &Poly, a: &Poly, values: &mut Values) {
    if is_modulus(a) {
        values.found(b.inverse_mod(alloc, a))
    } else {
        values.cause("a modulus of degree below 1")
    }
}

fn derive_poly(alloc: Global, tower: &Tower, a: &Poly, at: &Poly, values: &mut Values) {
    match level_above(tower, a, at) {
        Ok(level) => values.formed_polynomial(tower.derive_poly(alloc, level, a)),
        Err(halt) => values.refuse(halt),
    }
}

fn quotient(alloc: Global, num: &Poly, den: &Poly, at: &Poly, values: &mut Values) {
    match polynomial_level(at) {
        Ok(level) => quotient_at(alloc, num, den, level, values),
        Err(halt) => values.refuse(halt),
    }
}

fn quotient_at(alloc: Global, num: &Poly, den: &Poly, level: u8, values: &mut Values)
    requires { level < 5 }
{
    if den.is_zero() {
        values.cause("a division by 0")
    } else if !num.is_within(level) || !den.is_within(level) {
        values.cause("a coefficient that does not lie below the level")
    } else {
        values.formed(Elem::quotient(alloc, level, num, den))
    }
}

/// r and z with b·r + a·z = c, for coprime a and b. The test of this has the stops that the rule begins with.
fn solve_mod(alloc: Global, a: &Poly, b: &Poly, c: &Poly, values: &mut Values) {
    if !is_modulus(a) {
        return values.cause("a modulus of degree below 1");
    }
    match a.is_coprime(alloc, b) {
        Ok(true) => values.formed_pair(Poly::solve_mod(alloc, a, b, c)),
        Ok(false) => values.cause("polynomials that are not coprime"),
        Err(fail) => values.fail(fail),
    }
}
