// The calls of elements.
use crate::conditions::level_of;
use crate::operands::{NO_CALL, elements, level};
use crate::reductions;
use crate::values::Values;
use risch_elem::Elem;
use risch_tower::Tower;
use std::alloc::Global;

/// Plays a call over a tower.
pub fn play(alloc: Global, tower: &Tower, call: &str, operands: &str, values: &mut Values) {
    match elements(alloc, operands) {
        Ok(operands) => of(alloc, tower, call, operands.as_slice(), values),
        Err(halt) => values.refuse(halt),
    }
}

fn of(alloc: Global, tower: &Tower, call: &str, operands: &[Elem], values: &mut Values) {
    match operands {
        [a] => of_one(alloc, tower, call, a, values),
        [a, b] => of_two(alloc, tower, call, a, b, values),
        [a, at, most] => reductions::of_normal_part(alloc, tower, call, a, at, most, values),
        _ => values.cause(NO_CALL),
    }
}

fn of_one(alloc: Global, tower: &Tower, call: &str, a: &Elem, values: &mut Values) {
    match call {
        "variable" => variable(alloc, a, values),
        "copy" => values.copied(a.copy(alloc)),
        "neg" => values.copied(a.neg(alloc)),
        "derive" => derive(alloc, tower, a, values),
        _ => about(call, a, values),
    }
}

fn about(call: &str, a: &Elem, values: &mut Values) {
    match call {
        "as_num" => match a.as_num() {
            Some(number) => values.number(number),
            None => values.name("none"),
        },
        "level" => match a.level() {
            Some(level) => values.whole(u64::from(level)),
            None => values.name("none"),
        },
        "weight" => values.whole(u64::from(a.weight())),
        "is_zero" => values.answer(a.is_zero()),
        _ => values.cause(NO_CALL),
    }
}

fn of_two(alloc: Global, tower: &Tower, call: &str, a: &Elem, b: &Elem, values: &mut Values) {
    match call {
        "same" => values.answer(a.same(b)),
        "add" => values.formed(a.add(alloc, b)),
        "mul" => values.formed(a.mul(alloc, b)),
        "div" => div(alloc, a, b, values),
        _ => of_level(alloc, tower, call, a, b, values),
    }
}

fn of_level(alloc: Global, tower: &Tower, call: &str, a: &Elem, at: &Elem, values: &mut Values) {
    match call {
        "num_poly" => num_poly(alloc, a, at, values),
        "den_poly" => den_poly(alloc, a, at, values),
        "canonical" => reductions::canonical_parts(alloc, tower, a, at, values),
        "order_at" => reductions::order(alloc, a, at, values),
        "value_at" => reductions::value(alloc, a, at, values),
        _ => values.cause(NO_CALL),
    }
}

fn variable(alloc: Global, at: &Elem, values: &mut Values) {
    match level(at.as_num()) {
        Ok(level) => values.copied(Elem::variable(alloc, level)),
        Err(halt) => values.refuse(halt),
    }
}

fn div(alloc: Global, a: &Elem, b: &Elem, values: &mut Values) {
    if b.is_zero() {
        values.cause("a division by 0")
    } else {
        values.formed(a.div(alloc, b))
    }
}

fn num_poly(alloc: Global, a: &Elem, at: &Elem, values: &mut Values) {
    match level_of(a, at) {
        Ok(level) => values.copied_polynomial(a.num_poly(alloc, level)),
        Err(halt) => values.refuse(halt),
    }
}

fn den_poly(alloc: Global, a: &Elem, at: &Elem, values: &mut Values) {
    match level_of(a, at) {
        Ok(level) => values.copied_polynomial(a.den_poly(alloc, level)),
        Err(halt) => values.refuse(halt),
    }
}

fn derive(alloc: Global, tower: &Tower, a: &Elem, values: &mut Values) {
    if a.is_within(tower.height() + 1) {
        values.formed(tower.derive(alloc, a))
    } else {
        values.cause("an element that does not lie in the tower")
    }
}
