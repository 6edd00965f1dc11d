//! The arithmetic of a field that contains Q, as a trait, and the stops of its rules (Bronstein, Symbolic Integration I, section 1.1).
//!
//! A rule says which values are formed, in which order. The first that cannot be formed ends the rule with a stop: the operation on numbers that overflows, or
//! Size where a degree would pass 255 or a weight 65536. The weight of a fraction is 1.
//!
//! [`Arith`] is a field with its rules `ops`; [`Frac`](risch_frac::Frac) is the lowest one. The contract of each call that can stop is one clause,
//! `Agrees result rule`: the answer is the value of the rule, or its stop, or want of memory, about which nothing is said. Other calls give their value exactly.
//!
//! Not promised: that the operations are those of a field. What they stand for is said by the crates of theory, of valid elements. A division by 0 has a value,
//! which no rule asks for.
#![tactic(auto)]

mod arith;

pub use arith::Arith;
use risch_frac::Op;
use std::alloc::{AllocError, AllocFailed};

/// The stop of a rule, or want of memory.
#[derive(Clone, Copy, Debug, PartialEq, Eq)]
pub enum Fail {
    /// A number of absolute value above 2^127 - 1 in this operation.
    Overflow(Op),
    /// A degree above 255, or a weight above 65536.
    Size,
    /// Want of memory, about which no rule says anything.
    Memory,
}

impl From<AllocError> for Fail {
    ghost use Rattle.std.specs.Prelude.{◌≡◌};
    ghost use Rattle.risch_field.specs.declared.Fail.TheVariants.{Memory};

    ghost from_gives = { λ _ fail. fail ≡ Memory };

    fn from(_error: AllocError) -> Fail {
        Fail::Memory
    }
}

impl<T: Drop> From<AllocFailed<T>> for Fail {
    ghost use Rattle.std.specs.Prelude.{◌≡◌};
    ghost use Rattle.risch_field.specs.declared.Fail.TheVariants.{Memory};

    ghost from_gives = { λ _ fail. fail ≡ Memory };

    fn from(_error: AllocFailed<T>) -> Fail {
        Fail::Memory
    }
}
