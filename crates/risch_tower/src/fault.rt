//! Why a monomial is not pushed.

use risch_field::Fail;
use risch_frac::Op;
use std::alloc::{AllocError, AllocFailed};

/// Why a monomial is not pushed.
#[derive(Clone, Copy, Debug, PartialEq, Eq)]
pub enum PushFault {
    /// The tower has four monomials.
    TooHigh,
    /// The logarithm of 0.
    ZeroArgument,
    /// The derivative of the argument is 0.
    ConstantArgument,
    /// A number of absolute value above 2^127 - 1 in this operation.
    Overflow(Op),
    /// A degree above 255, or a weight above 65536.
    Size,
    /// Want of memory, about which no rule says anything.
    Memory,
}

impl From<Fail> for PushFault {
    ghost use Rattle.std.specs.Prelude.{◌≡◌};
    ghost use Rattle.risch_tower.specs.Tower.{fault_of};

    ghost from_gives = { λ fail fault. fault ≡ fault_of fail };

    fn from(fail: Fail) -> PushFault {
        match fail {
            Fail::Overflow(op) => PushFault::Overflow(op),
            Fail::Size => PushFault::Size,
            Fail::Memory => PushFault::Memory,
        }
    }
}

impl From<AllocError> for PushFault {
    ghost use Rattle.std.specs.Prelude.{◌≡◌};
    ghost use Rattle.risch_tower.specs.declared.fault.PushFault.TheVariants.{Memory};

    ghost from_gives = { λ _ fault. fault ≡ Memory };

    fn from(_error: AllocError) -> PushFault {
        PushFault::Memory
    }
}

impl<T: Drop> From<AllocFailed<T>> for PushFault {
    ghost use Rattle.std.specs.Prelude.{◌≡◌};
    ghost use Rattle.risch_tower.specs.declared.fault.PushFault.TheVariants.{Memory};

    ghost from_gives = { λ _ fault. fault ≡ Memory };

    fn from(_error: AllocFailed<T>) -> PushFault {
        PushFault::Memory
    }
}
