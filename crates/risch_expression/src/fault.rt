//! Why an expression is not read, or has no value.

use risch_field::Fail;
use risch_frac::Op;
use std::alloc::{AllocError, AllocFailed};

/// Why bytes do not fit the grammar.
#[derive(Clone, Copy)]
pub enum Cause {
    /// A token that fits no rule.
    Byte,
    /// The bytes end.
    End,
    /// A number above 2^127 - 1, or above the most that it may be.
    Wide,
    /// An exponent above 9999.
    Exponent,
    /// A name that is not known.
    Name,
    /// A parenthesis more than may be open.
    Deep,
    /// Text behind the last line.
    Trailing,
    /// A sum over roots that has not the right shape.
    Shape,
}

/// The first fault of syntax: its cause, and how many bytes are left at its place.
#[derive(Clone, Copy)]
pub struct SyntaxFault {
    pub left: u32,
    pub cause: Cause,
}

/// Why no expression is read.
#[derive(Clone, Copy)]
pub enum ReadFault {
    /// The bytes do not fit the grammar.
    Syntax(SyntaxFault),
    /// Want of memory, about which no rule says anything.
    Memory,
}

impl From<SyntaxFault> for ReadFault {
    ghost use Rattle.std.specs.Prelude.{◌≡◌};
    ghost use Rattle.risch_expression.specs.declared.fault.ReadFault.TheVariants.{Syntax};

    ghost from_gives = { λ fault read. read ≡ Syntax fault };

    fn from(fault: SyntaxFault) -> ReadFault {
        ReadFault::Syntax(fault)
    }
}

impl From<AllocError> for ReadFault {
    ghost use Rattle.std.specs.Prelude.{◌≡◌};
    ghost use Rattle.risch_expression.specs.declared.fault.ReadFault.TheVariants.{Memory};

    ghost from_gives = { λ _ read. read ≡ Memory };

    fn from(_error: AllocError) -> ReadFault {
        ReadFault::Memory
    }
}

/// Why an expression has no value.
#[derive(Clone, Copy)]
pub enum ValueFault {
    /// A division by 0, where so many bytes are left at the sign `/`.
    DivisionByZero(u32),
    /// A division by a polynomial in z of degree at least 1.
    Shape,
    /// A number of absolute value above 2^127 - 1 in this operation.
    Overflow(Op),
    /// A degree above 255, or a weight above 65536.
    Size,
    /// Want of memory, about which no rule says anything.
    Memory,
}

impl From<Fail> for ValueFault {
    ghost use Rattle.std.specs.Prelude.{◌≡◌};
    ghost use Rattle.risch_expression.specs.Evaluation.{fault_of};

    ghost from_gives = { λ fail fault. fault ≡ fault_of fail };

    fn from(fail: Fail) -> ValueFault {
        match fail {
            Fail::Overflow(op) => ValueFault::Overflow(op),
            Fail::Size => ValueFault::Size,
            Fail::Memory => ValueFault::Memory,
        }
    }
}

impl From<AllocError> for ValueFault {
    ghost use Rattle.std.specs.Prelude.{◌≡◌};
    ghost use Rattle.risch_expression.specs.declared.fault.ValueFault.TheVariants.{Memory};

    ghost from_gives = { λ _ fault. fault ≡ Memory };

    fn from(_error: AllocError) -> ValueFault {
        ValueFault::Memory
    }
}

impl<T: Drop> From<AllocFailed<T>> for ValueFault {
    ghost use Rattle.std.specs.Prelude.{◌≡◌};
    ghost use Rattle.risch_expression.specs.declared.fault.ValueFault.TheVariants.{Memory};

    ghost from_gives = { λ _ fault. fault ≡ Memory };

    fn from(_error: AllocFailed<T>) -> ValueFault {
        ValueFault::Memory
    }
}
