// The calls that reduce polynomials and elements of a tower.
ghost use Rattle.std.specs.Prelude.{◌≤◌, ◌<◌, ◌+◌, ℕ, length, IfOk};
ghost use Rattle.risch_univariate.specs.Degree.{IsMonic};
ghost use Rattle.risch_univariate.specs.SplittingFactorization.{IsNormal};
ghost use Rattle.risch_mean.specs.ElementField.{elements};
ghost use Rattle.risch_element_theory.specs.WholeTower.{polynomial, Within, AllWithin};
ghost use Rattle.risch_tower.specs.TowerMeaning.{monomials};
ghost use Rattle.risch_monomial.specs.LevelDerivation.{level_derivation};
ghost use Rattle.risch_monomial.specs.LevelElements.{numerator_at, denominator_at};
ghost use Rattle.risch_monomial.specs.NormalPolynomials.{HasNormalDivisors};

use crate::conditions::{is_below, is_modulus, level_above, level_of, tower_level_of};
use crate::operands::{NO_CALL, exponent, exponent_of, level};
use crate::values::Values;
use risch_elem::{Counter, Elem, ElemList, Fail, Poly, Run};
use risch_hermite::hermite;
use risch_residue::residues;
use risch_split::{canonical, order_at, split, value_at};
use risch_sub::{characteristic, square_free};
use risch_tower::Tower;
use std::alloc::Global;

const ZERO: &str = "the polynomial 0";

// The monic multiple of a polynomial other than 0.
fn monic(alloc: Global, a: &Poly) -> Result<Poly, Fail>
    requires { 0 < length a.now }
    ensures monic { IfOk result (λ it. IsMonic elements (polynomial it)) }
    ensures within { (n : ℕ) → AllWithin n a.now → IfOk result (λ it. AllWithin n it) }
{
    match Poly::of(ElemList::new(alloc)) {
        Ok(zero) => a.gcd(alloc, &zero),
        Err(_) => Err(Fail::Memory),
    }
}

/// The square-free parts of the monic multiple of a polynomial.
pub fn parts(alloc: Global, a: &Poly, values: &mut Values) {
    if a.is_zero() {
        return values.cause(ZERO);
    }
    match monic(alloc, a) {
        Ok(monic) => values.formed_polynomials(alloc, square_free(alloc, &monic)),
        Err(fail) => values.fail(fail),
    }
}

/// The traces of the powers of u modulo the monic multiple of d.
pub fn traces(alloc: Global, d: &Poly, u: &Poly, power: &Poly, values: &mut Values) {
    match exponent_of(power) {
        Ok(power) => traces_modulo(alloc, d, u, power, values),
        Err(halt) => values.refuse(halt),
    }
}

fn traces_modulo(alloc: Global, d: &Poly, u: &Poly, power: u16, values: &mut Values) {
    if d.is_zero() {
        return values.cause(ZERO);
    }
    match monic(alloc, d) {
        Ok(modulus) => traces_of(alloc, &modulus, u, power, values),
        Err(fail) => values.fail(fail),
    }
}

fn traces_of(alloc: Global, modulus: &Poly, u: &Poly, power: u16, values: &mut Values)
    requires { IsMonic elements (polynomial modulus.now) }
{
    if is_modulus(modulus) && is_below(u, modulus) {
        values.formed_elements(alloc, characteristic(alloc, modulus, u, power))
    } else {
        values.cause("degrees that do not fit")
    }
}

/// The normal and the special part of the monic multiple of a polynomial.
pub fn splitting(alloc: Global, tower: &Tower, a: &Poly, at: &Poly, values: &mut Values) {
    match level_above(tower, a, at) {
        Ok(level) => splitting_at(alloc, tower, level, a, values),
        Err(halt) => values.refuse(halt),
    }
}

fn splitting_at(alloc: Global, tower: &Tower, level: u8, a: &Poly, values: &mut Values)
    requires level { level ≤ length tower.now }
    requires within { AllWithin level a.now }
{
    if a.is_zero() {
        return values.cause(ZERO);
    }
    match monic(alloc, a) {
        Ok(monic) => values.split(alloc, split(alloc, tower, level, &monic)),
        Err(fail) => values.fail(fail),
    }
}

/// The reduced and the normal part of an element.
pub fn canonical_parts(alloc: Global, tower: &Tower, a: &Elem, at: &Elem, values: &mut Values) {
    match tower_level_of(tower, a, at) {
        Ok(level) => values.canonical(alloc, canonical(alloc, tower, level, a)),
        Err(halt) => values.refuse(halt),
    }
}

/// The order of an element at the variable of a level.
pub fn order(alloc: Global, a: &Elem, at: &Elem, values: &mut Values) {
    match level(at.as_num()) {
        Ok(level) => match order_at(alloc, level, a) {
            Ok(order) => values.integer(order),
            Err(_) => values.memory(),
        },
        Err(halt) => values.refuse(halt),
    }
}

/// The value of an element of order 0.
pub fn value(alloc: Global, a: &Elem, at: &Elem, values: &mut Values) {
    match level(at.as_num()) {
        Ok(level) => match order_at(alloc, level, a) {
            Ok(0) => values.formed(value_at(alloc, level, a)),
            Ok(_) => values.cause("an element of another order than 0"),
            Err(_) => values.memory(),
        },
        Err(halt) => values.refuse(halt),
    }
}

/// The Hermite reduction of the normal part of an element, or the residues of its simple part, with at most so many units, and how many there are at the end.
pub fn of_normal_part(
    alloc: Global,
    tower: &Tower,
    call: &str,
    a: &Elem,
    at: &Elem,
    most: &Elem,
    values: &mut Values,
) {
    match exponent(most.as_num()) {
        Ok(most) => match tower_level_of(tower, a, at) {
            Ok(level) => of_element(alloc, tower, call, level, a, u64::from(most), values),
            Err(halt) => values.refuse(halt),
        },
        Err(halt) => values.refuse(halt),
    }
}

fn of_element(
    alloc: Global,
    tower: &Tower,
    call: &str,
    level: u8,
    a: &Elem,
    most: u64,
    values: &mut Values,
)
    requires level { level ≤ length tower.now }
    requires within { Within (level + 1) a.now }
{
    match canonical(alloc, tower, level, a) {
        Run::Done(parts) => match call {
            "hermite" => reduction(alloc, tower, level, &parts.normal, most, values),
            "residues" => residues_of(alloc, tower, level, &parts.normal, most, values),
            _ => values.cause(NO_CALL),
        },
        Run::Stopped(stop) => values.stop(stop),
        Run::Left => values.left(),
        Run::Memory => values.memory(),
    }
}

fn reduction(alloc: Global, tower: &Tower, level: u8, normal: &Elem, most: u64, values: &mut Values)
    requires level { level ≤ length tower.now }
    requires within { Within (level + 1) normal.now }
    requires normal { HasNormalDivisors (level_derivation (monomials tower.now) level) (polynomial (denominator_at level normal.now)) }
{
    let mut counter = Counter::new(most);
    values.reduction(alloc, hermite(alloc, tower, level, normal, &mut counter));
    values.whole(counter.count())
}

fn residues_of(
    alloc: Global,
    tower: &Tower,
    level: u8,
    normal: &Elem,
    most: u64,
    values: &mut Values,
)
    requires level { level ≤ length tower.now }
    requires within { Within (level + 1) normal.now }
    requires normal { HasNormalDivisors (level_derivation (monomials tower.now) level) (polynomial (denominator_at level normal.now)) }
{
    let mut counter = Counter::new(most);
    match hermite(alloc, tower, level, normal, &mut counter) {
        Run::Done(reduction) => residues_in(alloc, tower, level, &reduction.h, most, values),
        Run::Stopped(stop) => values.stop(stop),
        Run::Left => values.left(),
        Run::Memory => values.memory(),
    }
}

fn residues_in(alloc: Global, tower: &Tower, level: u8, h: &Elem, most: u64, values: &mut Values)
    requires level { level ≤ length tower.now }
    requires within { Within (level + 1) h.now }
    requires proper { length (numerator_at level h.now) < length (denominator_at level h.now) }
    requires normal { IsNormal elements (level_derivation (monomials tower.now) level) (polynomial (denominator_at level h.now)) }
{
    if h.is_zero() {
        return values.cause("an element without a simple part");
    }
    let mut counter = Counter::new(most);
    values.residues(alloc, residues(alloc, tower, level, h, &mut counter));
    values.whole(counter.count())
}
