//! What is answered of a certificate.

ghost use Rattle.std.specs.Prelude.{◌≡◌, IfOk};

use risch_elem::Stop;
use risch_io::Text;
use std::alloc::{AllocError, Global};

/// What is answered of a certificate.
#[derive(Drop)]
pub enum Check {
    /// Each condition holds.
    Accepted,
    /// The first condition that does not hold: the number of its line, what the certificate says or implies there, and what it should be.
    Refused { line: u32, left: Text, right: Text },
    /// A value that a condition needs cannot be formed, or the tower has more constants than the fractions.
    Stopped(Stop),
    /// Want of memory, about which nothing is said.
    Memory,
}

impl Check {
    /// The answer once more.
    ///
    /// `Err` for want of memory alone.
    pub fn copy(&self, alloc: Global) -> Result<Check, AllocError>
        ensures { IfOk result (λ copy. copy ≡ self.now) }
    {
        match self {
            Check::Accepted => Ok(Check::Accepted),
            Check::Refused { line, left, right } => {
                let line = *line;
                let left = left.copy(alloc)?;
                let right = right.copy(alloc)?;
                Ok(Check::Refused { line, left, right })
            }
            Check::Stopped(stop) => Ok(Check::Stopped(stop.copy(alloc)?)),
            Check::Memory => Ok(Check::Memory),
        }
    }
}
