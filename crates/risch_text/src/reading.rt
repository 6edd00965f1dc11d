//! Reads whole files.

ghost use Rattle.std.specs.Prelude.{◌<◌, ◌^◌, length, IfOk, IfSome};
ghost use Rattle.risch_text.specs.File as file;
ghost use Rattle.risch_text.specs.Certified as answer;
ghost use Rattle.risch_text.specs.Values as values;
ghost use Rattle.risch_text.specs.Read as spec;
ghost use Rattle.risch_text.specs.Read.{IsReadAs};
ghost use Rattle.risch_text.specs.ReadCertified as certificates;
ghost use Rattle.risch_text.specs.ReadCertified.{IsCertifiedAs};
ghost use Rattle.risch_text.specs.Reading.{Reads};
ghost use Rattle.risch_text.specs.Meaning.{IfProblem, IsWritten, IfCertified, IsCertifiedWritten};

use crate::answer::whole_certified;
use crate::certificate::certified_if_read;
use crate::certified::{Certified, ReadCertified};
use crate::fault::Fault;
use crate::file::whole_problem;
use crate::problem::{Problem, ReadProblem};
use crate::values::problem_of;
use std::alloc::Global;

/// The problem of a file, or what ends its reading.
fn problem(alloc: Global, bytes: &[u8]) -> Result<Problem, Fault>
    requires { length bytes.now < 2 ^ 32 }
    ensures value { Reads result (values.valued_by values.problem_value (file.whole_problem bytes.now)) }
    ensures written { IfOk result (IsWritten bytes.now) }
{
    let program = whole_problem(alloc, bytes)?;
    problem_of(alloc, &program)
}

/// The problem of a file: tower lines ti = log(E) or ti = exp(E), and the line `integrate E`.
///
/// The first fault of syntax in the whole file comes before everything else; then what comes first, line by line, in each expression from the left: a division by 0, a refusal of the
/// line's monomial, an overflow or a size. `Memory` for want of memory, about which nothing is said.
pub fn read_problem(alloc: Global, bytes: &[u8]) -> ReadProblem
    requires { length bytes.now < 2 ^ 32 }
    // The answer of the grammar and of the evaluation, with their places.
    ensures read { IsReadAs result (spec.read_problem bytes.now) }
    // The monomials and the integrand are the written values of the lines.
    ensures written { IfProblem result (IsWritten bytes.now) }
{
    ReadProblem::of(bytes.len() as u32, problem(alloc, bytes))
}

/// The problem and the certificate of a file, `None` where the answer is not yet read, or what ends the reading.
fn certified(alloc: Global, bytes: &[u8]) -> Result<Option<Certified>, Fault>
    requires { length bytes.now < 2 ^ 32 }
    ensures value { Reads result (values.valued_by values.certified_if_read (answer.whole_certified bytes.now)) }
    ensures written { IfOk result (λ certified. IfSome certified (IsCertifiedWritten bytes.now)) }
{
    let program = whole_certified(alloc, bytes)?;
    certified_if_read(alloc, &program)
}

/// The problem of a file and the certificate that follows it: the lines of [`read_problem`], and then `integral`, `part E`, any number of lines `log C of U` and `sum R of S`, and `end`;
/// or `refuted`, the part and the logarithms, `rest E`, and `end residue of V power N trace E`.
///
/// `NotYet` exactly where the lines of the problem, and those of a refutation up to and with `rest`, have no fault of syntax and the next line begins with `equation`, or with `end` and
/// `exponent` or `degree`. Else the first fault of syntax in the whole file comes before everything
/// else; then what comes first, line by line: what [`read_problem`] tells, a division by 0 in a factor C, or R and S of the wrong shape. `Memory` for want of memory, about which nothing is said.
pub fn read_certified(alloc: Global, bytes: &[u8]) -> ReadCertified
    requires { length bytes.now < 2 ^ 32 }
    // The answer of the grammar and of the evaluation, with their places.
    ensures read { IsCertifiedAs result (certificates.read_certified bytes.now) }
    // The monomials, the integrand, the part, the arguments of the logarithms, the rest and the trace are the written values of the lines.
    ensures written { IfCertified result (IsCertifiedWritten bytes.now) }
{
    ReadCertified::of(bytes.len() as u32, certified(alloc, bytes))
}
