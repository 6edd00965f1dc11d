// The calls of towers.
use crate::halt::name_of;
use crate::operands::{NO_CALL, element, elements, level};
use crate::values::Values;
use risch_elem::Elem;
use risch_tower::{Kind, Monomial, PushFault, Tower};
use std::alloc::Global;

/// The tower of a case, and one that is compared with it.
#[derive(Drop)]
pub struct Towers {
    pub tower: Tower,
    pub other: Tower,
}

impl Towers {
    pub fn new(alloc: Global) -> Towers {
        Towers {
            tower: Tower::new(alloc),
            other: Tower::new(alloc),
        }
    }
}

/// Plays a call.
pub fn play(alloc: Global, towers: &Towers, call: &str, operands: &str, values: &mut Values) {
    match elements(alloc, operands) {
        Ok(operands) => of(alloc, towers, call, operands.as_slice(), values),
        Err(halt) => values.refuse(halt),
    }
}

fn of(alloc: Global, towers: &Towers, call: &str, operands: &[Elem], values: &mut Values) {
    match operands {
        [] => of_none(towers, call, values),
        [at] => match level(at.as_num()) {
            Ok(level) => of_level(alloc, &towers.tower, call, level, values),
            Err(halt) => values.refuse(halt),
        },
        _ => values.cause(NO_CALL),
    }
}

fn of_none(towers: &Towers, call: &str, values: &mut Values) {
    match call {
        "height" => values.whole(u64::from(towers.tower.height())),
        "same" => values.answer(towers.tower.same(&towers.other)),
        _ => values.cause(NO_CALL),
    }
}

fn of_level(alloc: Global, tower: &Tower, call: &str, level: u8, values: &mut Values) {
    if level > tower.height() {
        return values.cause("no such level");
    }
    match call {
        "kind" => kind(tower.kind(level), values),
        "eta" => values.copied(tower.eta(level).copy(alloc)),
        "pushed" if level > 0 => pushed(alloc, tower.pushed(level), values),
        _ => values.cause(NO_CALL),
    }
}

fn kind(kind: Kind, values: &mut Values) {
    match kind {
        Kind::Primitive => values.name("primitive"),
        Kind::Exponential => values.name("exponential"),
    }
}

fn pushed(alloc: Global, monomial: &Monomial, values: &mut Values) {
    values.copied(monomial.argument().copy(alloc));
    match monomial {
        Monomial::Log(_) => values.name("log"),
        Monomial::Exp(_) => values.name("exp"),
    }
}

/// Pushes the logarithm or the exponential of an argument on a tower.
pub fn push(alloc: Global, tower: &mut Tower, kind: &str, argument: &str, values: &mut Values) {
    match element(alloc, argument) {
        Ok(argument) => push_of(alloc, tower, kind, argument, values),
        Err(halt) => values.refuse(halt),
    }
}

fn push_of(alloc: Global, tower: &mut Tower, kind: &str, argument: Elem, values: &mut Values) {
    match kind {
        "log" => push_monomial(alloc, tower, Monomial::Log(argument), values),
        "exp" => push_monomial(alloc, tower, Monomial::Exp(argument), values),
        _ => values.cause("neither log nor exp"),
    }
}

fn push_monomial(alloc: Global, tower: &mut Tower, monomial: Monomial, values: &mut Values) {
    if monomial.argument().is_within(tower.height() + 1) {
        pushed_or_refused(tower.push(alloc, monomial), values)
    } else {
        values.cause("an element that does not lie in the tower")
    }
}

fn pushed_or_refused(pushed: Result<(), PushFault>, values: &mut Values) {
    match pushed {
        Ok(()) => {}
        Err(PushFault::TooHigh) => values.name("too-high"),
        Err(PushFault::ZeroArgument) => values.name("zero-argument"),
        Err(PushFault::ConstantArgument) => values.name("constant-argument"),
        Err(PushFault::Overflow(op)) => values.name(name_of(op)),
        Err(PushFault::Size) => values.name("size"),
        Err(PushFault::Memory) => values.memory(),
    }
}
