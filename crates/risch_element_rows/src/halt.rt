// Why a line is refused, and the names of stops.
use risch_frac::Op;

/// Why a line is refused.
#[derive(Clone, Copy)]
pub enum Halt {
    /// It is badly written, by this cause.
    Cause(&'static str),
    /// No memory is left.
    Memory,
}

/// The name of the overflow of an operation.
pub fn name_of(op: Op) -> &'static str {
    match op {
        Op::Add => "overflow-add",
        Op::Mul => "overflow-mul",
        Op::Div => "overflow-div",
    }
}
