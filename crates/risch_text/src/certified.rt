//! Problem files with a printed answer: a problem, and a certificate.

use crate::fault::{Fault, Refusal};
use crate::problem::Problem;
use risch_cert::Certificate;
use risch_elem::{NumberList, Stop};
use risch_expression::Cause;
use std::marker::Model;

/// A problem, a certificate of an answer to its integrand, and the number of each line of the certificate, in their order.
///
/// The part of the certificate, the arguments of its logarithms, and the rest and the trace of a refutation lie in the tower, and the level of a refutation is at most its height. Of each logarithm R is monic, of degree m from 1 to 255, and S has a degree below m and a last
/// coefficient other than 0.
#[derive(Drop)]
pub struct Certified {
    pub problem: Problem,
    pub certificate: Certificate,
    pub lines: NumberList,
}

impl Model for Certified {
    ghost use Rattle.risch_text.specs.Problem.{CertifiedValue, IsCertified};

    ghost Value = { CertifiedValue };

    ghost view = { λ c. record { problem = c.problem; certificate = c.certificate; lines = c.lines } };

    ghost invariant = { λ c. IsCertified (record { problem = c.problem; certificate = c.certificate; lines = c.lines }) };
}

impl Certified {
    ghost use Rattle.risch_text.specs.Problem.{IsCertified};

    /// The certificate has its form over the tower, and there is a number for each of its lines.
    pub fn is_formed(&self)
        ensures { IsCertified self.now }
    {
        let _lines = &self.lines;
    }
}

/// The answer for a problem file with a printed answer. A place is an offset in bytes.
#[derive(Drop)]
pub enum ReadCertified {
    /// The problem and its certificate.
    Certified(Certified),
    /// The problem and the answer up to and with the line `rest` of a refutation have no fault of syntax, and the next line begins with `equation`, or with `end` and `exponent` or `degree`.
    NotYet,
    /// The first fault of syntax.
    Syntax { at: u32, cause: Cause },
    /// The first value that is refused.
    Refused { at: u32, cause: Refusal },
    /// A value that cannot be formed: an overflow or a size.
    Stopped(Stop),
    /// Want of memory.
    Memory,
}

impl ReadCertified {
    ghost use Rattle.std.specs.Prelude.{◌≡◌};
    ghost use Rattle.risch_text.specs.ReadCertified as spec;

    /// The answer for a file of so many bytes.
    pub(crate) fn of(size: u32, read: Result<Option<Certified>, Fault>) -> ReadCertified
        ensures { result ≡ spec.certified_answer size read }
    {
        match read {
            Ok(Some(certified)) => ReadCertified::Certified(certified),
            Ok(None) => ReadCertified::NotYet,
            Err(Fault::Syntax(fault)) => ReadCertified::Syntax {
                at: size.saturating_sub(fault.left),
                cause: fault.cause,
            },
            Err(Fault::Refused { left, cause }) => ReadCertified::Refused {
                at: size.saturating_sub(left),
                cause,
            },
            Err(Fault::Stopped(stop)) => ReadCertified::Stopped(stop),
            Err(Fault::Memory) => ReadCertified::Memory,
        }
    }
}
