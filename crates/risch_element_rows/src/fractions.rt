// The calls of fractions.
use crate::halt::name_of;
use crate::operands::{NO_CALL, elements};
use crate::values::Values;
use risch_elem::Elem;
use risch_frac::{Frac, Op};
use std::alloc::Global;

const NO_NUMBER: &str = "a number was expected";

/// Plays a call.
pub fn play(alloc: Global, call: &str, operands: &str, values: &mut Values) {
    match elements(alloc, operands) {
        Ok(operands) => of(call, operands.as_slice(), values),
        Err(halt) => values.refuse(halt),
    }
}

fn of(call: &str, operands: &[Elem], values: &mut Values) {
    match operands {
        [a] => match a.as_num() {
            Some(a) => of_number(call, a, values),
            None => values.cause(NO_NUMBER),
        },
        [a, b] => of_both(call, a.as_num(), b.as_num(), values),
        _ => values.cause(NO_CALL),
    }
}

fn of_both(call: &str, a: Option<Frac>, b: Option<Frac>, values: &mut Values) {
    match (a, b) {
        (Some(a), Some(b)) => of_numbers(call, a, b, values),
        _ => values.cause(NO_NUMBER),
    }
}

fn of_number(call: &str, a: Frac, values: &mut Values) {
    match call {
        "neg" => values.number(a.neg()),
        "is_zero" => values.answer(a.is_zero()),
        "is_one" => values.answer(a.is_one()),
        _ => values.cause(NO_CALL),
    }
}

fn of_numbers(call: &str, a: Frac, b: Frac, values: &mut Values) {
    match call {
        "new" => new(a, b, values),
        "add" => put(a.add(b), values),
        "sub" => put(a.sub(b), values),
        "mul" => put(a.mul(b), values),
        "div" => div(a, b, values),
        "same" => values.answer(a.same(b)),
        _ => values.cause(NO_CALL),
    }
}

fn put(number: Result<Frac, Op>, values: &mut Values) {
    match number {
        Ok(number) => values.number(number),
        Err(op) => values.name(name_of(op)),
    }
}

fn new(num: Frac, den: Frac, values: &mut Values) {
    if num.den() != 1 || den.den() != 1 || den.is_zero() {
        values.cause("no whole numbers, or the denominator 0")
    } else {
        values.number(Frac::new(num.num(), den.num()))
    }
}

fn div(a: Frac, b: Frac, values: &mut Values) {
    if b.is_zero() {
        values.cause("a division by 0")
    } else {
        put(a.div(b), values)
    }
}
