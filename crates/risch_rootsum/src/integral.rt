//! Integrals: a part, and logarithms over the roots of polynomials.

ghost use Rattle.std.specs.Prelude.{◌≡◌, IfOk};

use risch_elem::{Copied, Elem, ElemList, FracList, Items};
use std::alloc::{AllocError, Global};

/// A sum over the roots z of R of z·log S(z), or C·log U where R = z - C and S = U.
///
/// Both lists hold coefficients by z from exponent 0, and the last of each is not 0.
#[derive(Drop)]
pub struct LogPart {
    /// R, which is monic.
    pub poly: FracList,
    /// S.
    pub arg: ElemList,
}

/// A list of such sums.
pub type LogList = Items<LogPart>;

/// A part and logarithms.
#[derive(Drop)]
pub struct Integral {
    pub part: Elem,
    pub logs: LogList,
}

impl LogPart {
    /// The sum once more.
    ///
    /// `Err(AllocError)` for want of memory alone.
    pub fn copy(&self, alloc: Global) -> Result<LogPart, AllocError>
        ensures { IfOk result (λ copy. copy ≡ self.now) }
    {
        Ok(LogPart {
            poly: self.poly.copy(alloc)?,
            arg: self.arg.copy(alloc)?,
        })
    }
}

impl Copied for LogPart {
    fn copied(&self, alloc: Global) -> Result<LogPart, AllocError> {
        self.copy(alloc)
    }
}

impl Integral {
    /// The integral once more.
    ///
    /// `Err(AllocError)` for want of memory alone.
    pub fn copy(&self, alloc: Global) -> Result<Integral, AllocError>
        ensures { IfOk result (λ copy. copy ≡ self.now) }
    {
        Ok(Integral {
            part: self.part.copy(alloc)?,
            logs: self.logs.copy(alloc)?,
        })
    }
}
