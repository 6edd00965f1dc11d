// The commands: what is answered to a file.
ghost use Rattle.std.specs.Prelude.{◌≡◌, ◌<◌, ◌^◌, length, IfOk};
ghost use Rattle.risch_cli.specs.Saying as spec;
ghost use Rattle.risch_cli.specs.Truth.{ReportsCertificate, ReportsCertificateFile, ReportsProblem, ReportsProblemFile};

use crate::report::{Report, stop_status};
use risch_cert::Place;
use risch_check::kinds::Check;
use risch_check::{check, print_check};
use risch_round::integrate;
use risch_text::{Certified, Problem, ReadCertified, ReadProblem, read_certified, read_problem};
use std::alloc::{AllocError, Global};

/// `integrate`: the answer to the problem of a file, with a budget.
pub(crate) fn integrate_file(alloc: Global, budget: u64, file: &[u8]) -> Result<Report, AllocError>
    requires { length file.now < 2 ^ 32 }
    ensures { IfOk result (ReportsProblemFile budget file.now) }
{
    match read_problem(alloc, file) {
        ReadProblem::Problem(problem) => integrate_problem(alloc, budget, &problem),
        ReadProblem::Syntax { at, cause } => Report::syntax_at(alloc, at, cause),
        ReadProblem::Refused { at, cause } => Report::refused_at(alloc, at, cause),
        ReadProblem::Stopped(stop) => Report::stopped(alloc, Place::Reading, stop),
        ReadProblem::Memory => Err(AllocError),
    }
}

/// The answer to a problem, with a budget. Where the tower has a monomial, it is not yet served.
fn integrate_problem(alloc: Global, budget: u64, problem: &Problem) -> Result<Report, AllocError>
    ensures { IfOk result (ReportsProblem budget problem.now) }
{
    problem.is_kept();
    if problem.tower.height() > 0 {
        return Report::not_yet(alloc);
    }
    let _integrand = problem.integrand.nest();
    let answer = integrate(alloc, &problem.tower, &problem.integrand, budget)?;
    Report::of_answer(alloc, &answer)
}

/// `check`: whether the certificate of a file holds.
pub(crate) fn check_file(alloc: Global, file: &[u8]) -> Result<Report, AllocError>
    requires { length file.now < 2 ^ 32 }
    ensures { IfOk result (ReportsCertificateFile file.now) }
{
    match read_certified(alloc, file) {
        ReadCertified::Certified(certified) => check_certified(alloc, &certified),
        ReadCertified::NotYet => Report::not_yet(alloc),
        ReadCertified::Syntax { at, cause } => Report::syntax_at(alloc, at, cause),
        ReadCertified::Refused { at, cause } => Report::refused_at(alloc, at, cause),
        ReadCertified::Stopped(stop) => Report::stopped(alloc, Place::Reading, stop),
        ReadCertified::Memory => Err(AllocError),
    }
}

/// Whether the certificate of a problem holds.
fn check_certified(alloc: Global, certified: &Certified) -> Result<Report, AllocError>
    ensures { IfOk result (ReportsCertificate certified.now) }
{
    certified.problem.is_kept();
    certified.is_formed();
    let verdict = check(
        alloc,
        &certified.problem.tower,
        &certified.problem.integrand,
        &certified.certificate,
        &certified.lines,
    );
    let text = print_check(alloc, &verdict)?;
    Ok(Report::on_out(alloc, check_status(&verdict), text))
}

/// The status of a check.
fn check_status(verdict: &Check) -> u8
    ensures { result ≡ spec.check_status verdict.now }
{
    match verdict {
        Check::Accepted => 0,
        Check::Refused { .. } => 12,
        Check::Stopped(stop) => stop_status(stop),
        Check::Memory => 10,
    }
}
