//! Stops at their steps.

ghost use Rattle.std.specs.Prelude.{◌≡◌, Ok, IfOk};
ghost use Rattle.risch_run.specs.Ruled.{Ruled, IsResult};
ghost use Rattle.risch_round.specs.Halts as spec;
ghost use Rattle.risch_round.specs.Halts.{IsHalted};

use risch_cert::{Halt, Place};
use risch_run::Ended;

/// What ends a round: a stop at its step, or want of memory, about which no rule says anything.
#[derive(Drop)]
pub(crate) enum HaltFault {
    Halted(Halt),
    Memory,
}

/// The result in this step. A run in one thread is never left.
pub(crate) fn in_step<T: Drop>(place: Place, of: Result<T, Ended>) -> Result<T, HaltFault>
    ensures rule { (rule : Ruled T) → IsResult of rule → IsHalted result (spec.in_step place rule) }
    ensures value { IfOk result (λ it. of ≡ Ok it) }
{
    match of {
        Ok(value) => Ok(value),
        Err(Ended::Stopped(stop)) => Err(HaltFault::Halted(Halt { stop, place })),
        Err(Ended::Left | Ended::Memory) => Err(HaltFault::Memory),
    }
}
