//! Runs that may stop, as results: what ends a run before its value, and what it says that an answer is a rule's.
//!
//! A rule gives a value or a stop (`specs/Ruled.antt`). A rule that costs gives besides how many units it costs up to there (`specs/Counted.antt`); a budget is no part of it: a run with a budget stops with Budget exactly where
//! the whole cost would pass what is left.
//!
//! Calls inside a crate answer a [`Result`] with [`Ended`], so that `?` passes on what ends them; [`answer`] makes it the [`Run`] of a public call.
#![tactic(auto)]

ghost use Rattle.std.specs.Prelude.{◌≡◌};
ghost use Rattle.risch_run.specs.Ruled.{run_of};

mod units;

use risch_elem::{Fail, Run, Stop};
use std::alloc::AllocError;
pub use units::charge;

/// What ends a run before its value.
#[derive(Drop)]
pub enum Ended {
    /// The stop of the rule.
    Stopped(Stop),
    /// The run was left from outside.
    Left,
    /// Want of memory.
    Memory,
}

impl From<Fail> for Ended {
    ghost use Rattle.std.specs.Prelude.{◌≡◌};
    ghost use Rattle.risch_run.specs.Ruled.{ended_by};

    ghost from_gives = { λ fail ended. ended ≡ ended_by fail };

    fn from(fail: Fail) -> Ended {
        match fail {
            Fail::Overflow(op) => Ended::Stopped(Stop::Overflow(op)),
            Fail::Size => Ended::Stopped(Stop::Size),
            Fail::Memory => Ended::Memory,
        }
    }
}

impl From<AllocError> for Ended {
    ghost use Rattle.std.specs.Prelude.{◌≡◌};
    ghost use Rattle.risch_run.specs.declared.Ended.TheVariants.{Memory};

    ghost from_gives = { λ _ ended. ended ≡ Memory };

    fn from(_error: AllocError) -> Ended {
        Ended::Memory
    }
}

/// The answer of a public call.
pub fn answer<T: Drop>(of: Result<T, Ended>) -> Run<T>
    ensures { result ≡ run_of of }
{
    match of {
        Ok(value) => Run::Done(value),
        Err(Ended::Stopped(stop)) => Run::Stopped(stop),
        Err(Ended::Left) => Run::Left,
        Err(Ended::Memory) => Run::Memory,
    }
}

/// The result of an answer.
pub fn result_of<T: Drop>(run: Run<T>) -> Result<T, Ended>
    ensures { run ≡ run_of result }
{
    match run {
        Run::Done(value) => Ok(value),
        Run::Stopped(stop) => Err(Ended::Stopped(stop)),
        Run::Left => Err(Ended::Left),
        Run::Memory => Err(Ended::Memory),
    }
}
