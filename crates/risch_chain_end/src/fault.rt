//! Why a condition on a certificate does not hold.

use risch_field::Fail;
use risch_io::Text;
use risch_run::Ended;
use std::alloc::AllocError;

/// Why a condition on a certificate does not hold.
#[derive(Drop)]
pub enum Fault {
    /// It is false: the number of its line, what the certificate says or implies there, and what it should be.
    Refused { line: u32, left: Text, right: Text },
    /// A value that it needs cannot be formed, the tower has more constants than the fractions, or memory is wanting.
    Ended(Ended),
}

impl From<Ended> for Fault {
    ghost use Rattle.std.specs.Prelude.{◌≡◌};
    ghost use Rattle.risch_chain_end.specs.declared.fault.Fault.TheVariants.{Ended};

    ghost from_gives = { λ end fault. fault ≡ Ended end };

    fn from(end: Ended) -> Fault {
        Fault::Ended(end)
    }
}

impl From<Fail> for Fault {
    ghost use Rattle.std.specs.Prelude.{◌≡◌};
    ghost use Rattle.risch_run.specs.Ruled.{ended_by};
    ghost use Rattle.risch_chain_end.specs.declared.fault.Fault.TheVariants.{Ended};

    ghost from_gives = { λ fail fault. fault ≡ Ended (ended_by fail) };

    fn from(fail: Fail) -> Fault {
        Fault::Ended(Ended::from(fail))
    }
}

impl From<AllocError> for Fault {
    ghost use Rattle.std.specs.Prelude.{◌≡◌};
    ghost use Rattle.risch_run.specs.declared.Ended.TheVariants.{Memory};
    ghost use Rattle.risch_chain_end.specs.declared.fault.Fault.TheVariants.{Ended};

    ghost from_gives = { λ _ fault. fault ≡ Ended Memory };

    fn from(_error: AllocError) -> Fault {
        Fault::Ended(Ended::Memory)
    }
}
