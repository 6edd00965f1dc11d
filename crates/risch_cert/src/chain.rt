//! Chains: what a refutation claims.

ghost use Rattle.std.specs.Prelude.{◌≡◌, IfOk};

use risch_elem::Elem;
use risch_rootsum::Integral;
use std::alloc::{AllocError, Global};

/// Why the rest of a chain has no elementary integral.
#[derive(Drop)]
pub enum End {
    /// The residues of its normal part are not constant: the least power whose trace is not constant, and that trace (Bronstein, Symbolic Integration I, section 5.6).
    Residue { power: u16, trace: Elem },
}

/// What a refutation claims: the integrand is the derivative of a partial integral plus a rest, and the rest has no elementary integral, by an end at its level.
///
/// A level is named by its number from 0, which is that of x.
#[derive(Drop)]
pub struct Chain {
    pub partial: Integral,
    pub rest: Elem,
    pub level: u8,
    pub end: End,
}

impl End {
    /// The end once more.
    ///
    /// `Err` for want of memory alone.
    pub fn copy(&self, alloc: Global) -> Result<End, AllocError>
        ensures { IfOk result (λ copy. copy ≡ self.now) }
    {
        match self {
            End::Residue { power, trace } => {
                let trace = trace.copy(alloc)?;
                Ok(End::Residue {
                    power: *power,
                    trace,
                })
            }
        }
    }
}

impl Chain {
    /// The chain once more.
    ///
    /// `Err` for want of memory alone.
    pub fn copy(&self, alloc: Global) -> Result<Chain, AllocError>
        ensures { IfOk result (λ copy. copy ≡ self.now) }
    {
        let partial = self.partial.copy(alloc)?;
        let rest = self.rest.copy(alloc)?;
        let end = self.end.copy(alloc)?;
        Ok(Chain {
            partial,
            rest,
            level: self.level,
            end,
        })
    }
}
