//! The values of a problem and its printed answer.

ghost use Rattle.std.specs.Prelude.{◌≡◌, ◌+◌, ℕ, false, All, length, Option, Some, option_map, IfOk, IfSome};
ghost use Rattle.risch_expression.specs.Results.{map_value};
ghost use Rattle.risch_text.specs.Certified.{RefutationTree, AnswerTree, CertifiedTree};
ghost use Rattle.risch_text.specs.Problem.{IsIntegralForm, IsChainForm, IsForm, line_count};
ghost use Rattle.risch_text.specs.Values as spec;
ghost use Rattle.risch_text.specs.Programs.{refutation_program, answer_program, certified_program, IsProgramOver, IsLogProgramOver, IsRefutationProgramOver, IsAnswerProgramOver, IsCertifiedProgramOver};
ghost use Rattle.risch_text.specs.Reading.{Reads};

use crate::certified::Certified;
use crate::fault::Fault;
use crate::logarithms::logs_of;
use crate::programs::{AnswerProgram, CertifiedProgram, EndProgram, RefutationProgram};
use crate::values::{element_at, problem_of};
use risch_cert::{Certificate, Chain, End};
use risch_rootsum::Integral;
use std::alloc::Global;

/// The part, and then the logarithms.
fn integral_of(alloc: Global, program: &AnswerProgram) -> Result<Integral, Fault>
    ensures value { (tree : AnswerTree) → program.now ≡ answer_program tree → Reads result (spec.integral_value tree) }
    ensures form { (n : ℕ) → IsProgramOver n false program.now.part → All (IsLogProgramOver n) program.now.logs → IfOk result (IsIntegralForm n) }
    ensures count { IfOk result (λ it. length it.logs ≡ length program.now.logs) }
{
    let part = element_at(alloc, 0, program.part.as_slice())?;
    let logs = logs_of(alloc, program.logs.as_slice())?;
    Ok(Integral { part, logs })
}

/// The rest, and then the trace, behind a partial integral.
fn chain_of(alloc: Global, partial: Integral, program: &RefutationProgram) -> Result<Chain, Fault>
    ensures value { (tree : RefutationTree) → program.now ≡ refutation_program tree → Reads result (spec.chain_value partial tree) }
    ensures form { (n : ℕ) → IsIntegralForm n partial → IsRefutationProgramOver n program.now → IfOk result (IsChainForm n) }
    ensures count { IfOk result (λ chain. chain.partial ≡ partial) }
{
    let EndProgram {
        level,
        power,
        trace,
    } = &program.end;
    let rest = element_at(alloc, 0, program.rest.as_slice())?;
    let trace = element_at(alloc, 0, trace.as_slice())?;
    Ok(Chain {
        partial,
        rest,
        level: *level,
        end: End::Residue {
            power: *power,
            trace,
        },
    })
}

/// The integral, and then the refutation where there is one.
fn certificate_of(alloc: Global, program: &AnswerProgram) -> Result<Certificate, Fault>
    ensures value { (tree : AnswerTree) → program.now ≡ answer_program tree → Reads result (spec.answer_value tree) }
    ensures form { (n : ℕ) → IsAnswerProgramOver n program.now → IfOk result (IsForm n) }
    ensures count { (n : ℕ) → IsAnswerProgramOver n program.now → IfOk result (λ it. length program.now.lines ≡ line_count it) }
{
    let integral = integral_of(alloc, program)?;
    match &program.refutation {
        None => Ok(Certificate::Integral(integral)),
        Some(refutation) => {
            let chain = chain_of(alloc, integral, refutation)?;
            Ok(Certificate::Refuted(chain))
        }
    }
}

/// The problem, and then its certificate.
fn certified_of(alloc: Global, program: &CertifiedProgram) -> Result<Option<Certified>, Fault>
    requires { IsCertifiedProgramOver program.now }
    ensures { (tree : CertifiedTree) → program.now ≡ certified_program tree → Reads result (map_value Some (spec.certified_value tree)) }
{
    let lines = program.answer.lines.copy(alloc)?;
    let problem = problem_of(alloc, &program.problem)?;
    let certificate = certificate_of(alloc, &program.answer)?;
    Ok(Some(Certified {
        problem,
        certificate,
        lines,
    }))
}

/// The same, or `None` where the answer is not yet read.
pub(crate) fn certified_if_read(
    alloc: Global,
    program: &Option<CertifiedProgram>,
) -> Result<Option<Certified>, Fault>
    requires { IfSome program.now IsCertifiedProgramOver }
    ensures { (tree : Option CertifiedTree) → program.now ≡ option_map certified_program tree → Reads result (spec.certified_if_read tree) }
{
    match program {
        None => Ok(None),
        Some(program) => certified_of(alloc, program),
    }
}
