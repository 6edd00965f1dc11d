//! What ends the reading of a file.

use risch_elem::Stop;
use risch_expression::{Cause, ReadFault, SyntaxFault, ValueFault};
use risch_frac::Op;
use risch_tower::PushFault;
use std::alloc::AllocError;

/// Why a line has no value.
#[derive(Clone, Copy, Debug, PartialEq, Eq)]
pub enum Refusal {
    /// A division by 0.
    ZeroDivision,
    /// A fifth monomial.
    TooHigh,
    /// The logarithm of 0.
    ZeroArgument,
    /// A monomial whose argument has the derivative 0.
    ConstantArgument,
}

/// What ends the reading of a file. A place is told as how many bytes are left there.
#[derive(Drop)]
pub(crate) enum Fault {
    /// The syntax is at fault.
    Syntax(SyntaxFault),
    /// A value is refused.
    Refused { left: u32, cause: Refusal },
    /// A value cannot be formed.
    Stopped(Stop),
    /// Want of memory, about which no definition says anything.
    Memory,
}

impl Fault {
    ghost use Rattle.std.specs.Prelude.{◌≡◌};
    ghost use Rattle.risch_text.specs.Values as spec;
    ghost use Rattle.risch_text.specs.Values.{fault_of_value, fault_of_push};

    /// A sum over roots of the wrong shape, where so many bytes are left at the beginning of its line.
    pub(crate) fn wrong_shape(start: u32) -> Fault
        ensures { result ≡ spec.wrong_shape start }
    {
        Fault::Syntax(SyntaxFault {
            left: start,
            cause: Cause::Shape,
        })
    }

    /// An overflow of numbers.
    pub(crate) fn overflow(op: Op) -> Fault
        ensures { result ≡ spec.overflow op }
    {
        Fault::Stopped(Stop::Overflow(op))
    }

    /// The fault of an expression, where so many bytes are left at the beginning of its line.
    pub(crate) fn of_value(start: u32, fault: ValueFault) -> Fault
        ensures { result ≡ fault_of_value start fault }
    {
        match fault {
            ValueFault::DivisionByZero(left) => Fault::Refused {
                left,
                cause: Refusal::ZeroDivision,
            },
            ValueFault::Shape => Fault::wrong_shape(start),
            ValueFault::Overflow(op) => Fault::overflow(op),
            ValueFault::Size => Fault::Stopped(Stop::Size),
            ValueFault::Memory => Fault::Memory,
        }
    }

    /// The fault of a tower line, where so many bytes are left at its first token.
    pub(crate) fn of_push(left: u32, fault: PushFault) -> Fault
        ensures { result ≡ fault_of_push left fault }
    {
        let cause = match fault {
            PushFault::TooHigh => Refusal::TooHigh,
            PushFault::ZeroArgument => Refusal::ZeroArgument,
            PushFault::ConstantArgument => Refusal::ConstantArgument,
            PushFault::Overflow(op) => return Fault::overflow(op),
            PushFault::Size => return Fault::Stopped(Stop::Size),
            PushFault::Memory => return Fault::Memory,
        };
        Fault::Refused { left, cause }
    }
}

impl From<ReadFault> for Fault {
    ghost use Rattle.std.specs.Prelude.{◌≡◌};
    ghost use Rattle.risch_text.specs.Values.{fault_of_reading};

    ghost from_gives = { λ fault read. read ≡ fault_of_reading fault };

    fn from(fault: ReadFault) -> Fault {
        match fault {
            ReadFault::Syntax(fault) => Fault::Syntax(fault),
            ReadFault::Memory => Fault::Memory,
        }
    }
}

impl From<AllocError> for Fault {
    ghost use Rattle.std.specs.Prelude.{◌≡◌};
    ghost use Rattle.risch_text.specs.declared.fault.Fault.TheVariants.{Memory};

    ghost from_gives = { λ _ fault. fault ≡ Memory };

    fn from(_error: AllocError) -> Fault {
        Fault::Memory
    }
}
