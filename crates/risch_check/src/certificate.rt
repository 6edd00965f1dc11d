//! The conditions on a certificate.

ghost use Rattle.std.specs.Prelude.{◌≡◌, ◌+◌, length, IfOk};
ghost use Rattle.risch_mean.specs.Answer.{IsIntegral};
ghost use Rattle.risch_mean.specs.Chain.{IsExact};
ghost use Rattle.risch_element_theory.specs.WholeTower.{meaning, Within};
ghost use Rattle.risch_tower.specs.TowerMeaning.{monomials};
ghost use Rattle.risch_rootsum.specs.DerivativeMeaning.{answer_of};
ghost use Rattle.risch_chain_end.specs.Verdict.{Gives};
ghost use Rattle.risch_check.specs.Answers.{Answers, OnAccepted, IfStopped, IsOfValue};
ghost use Rattle.risch_check.specs.Certificates.{IsFormed, IsFormedChain, IsCertificate, IfIntegral, IfRefuted, chain_of, line_count};
ghost use Rattle.risch_check.specs.Checked as spec;

use crate::derivative::{check_derivative, check_rest};
use crate::kinds::Check;
use crate::logarithms::check_parts;
use crate::normal::normal_integral;
use risch_cert::{Certificate, Chain};
use risch_chain_end::{Fault, check_end};
use risch_elem::{Elem, NumberList};
use risch_rootsum::Integral;
use risch_run::Ended;
use risch_tower::Tower;
use std::alloc::Global;

/// The conditions on a certificate of an integral.
#[tactic(auto, using(risch_chain_end::proofs::VerdictSteps::steps), unfolding(crate::specs::Checked::checked_integral))]
fn check_integral(
    alloc: Global,
    tower: &Tower,
    integrand: &Elem,
    integral: &Integral,
    lines: &[u32],
) -> Result<(), Fault>
    requires formed { IsFormed (length tower.now + 1) integral.now }
    requires lines { length lines.now ≡ length integral.now.logs + 3 }
    ensures rule { Gives result (spec.checked_integral tower.now integrand.now integral.now lines.now) }
    ensures integral { IfOk result (λ _. IsIntegral (monomials tower.now) (answer_of integral.now) (meaning integrand.now)) }
{
    normal_integral(integral);
    check_parts(alloc, integral.logs.as_slice(), lines)?;
    let line = lines[integral.logs.len() + 2];
    check_derivative(alloc, tower, line, integrand, integral)
}

/// The conditions on a refutation.
#[tactic(auto, using(risch_chain_end::proofs::VerdictSteps::steps), unfolding(crate::specs::Checked::checked_chain))]
fn check_chain(
    alloc: Global,
    tower: &Tower,
    integrand: &Elem,
    chain: &Chain,
    lines: &[u32],
) -> Result<(), Fault>
    requires formed { IsFormedChain (length tower.now + 1) chain.now }
    requires lines { length lines.now ≡ length chain.now.partial.logs + 4 }
    ensures rule { Gives result (spec.checked_chain tower.now integrand.now chain.now lines.now) }
    ensures exact { IfOk result (λ _. IsExact (monomials tower.now) (meaning integrand.now) (chain_of chain.now)) }
{
    let partial = &chain.partial;
    normal_integral(partial);
    check_parts(alloc, partial.logs.as_slice(), lines)?;
    let rest_line = lines[partial.logs.len() + 2];
    check_rest(alloc, tower, rest_line, integrand, partial, &chain.rest)?;
    let end_line = lines[partial.logs.len() + 3];
    check_end(alloc, tower, end_line, chain)
}

/// The conditions on a certificate.
fn check_certificate(
    alloc: Global,
    tower: &Tower,
    integrand: &Elem,
    certificate: &Certificate,
    lines: &[u32],
) -> Result<(), Fault>
    requires certificate { IsCertificate (length tower.now + 1) certificate.now }
    requires lines { length lines.now ≡ line_count certificate.now }
    ensures rule { Gives result (spec.checked tower.now integrand.now certificate.now lines.now) }
    ensures integral { IfOk result (λ _. IfIntegral certificate.now (λ it. IsIntegral (monomials tower.now) it (meaning integrand.now))) }
    ensures chain { IfOk result (λ _. IfRefuted certificate.now (IsExact (monomials tower.now) (meaning integrand.now))) }
{
    match certificate {
        Certificate::Integral(integral) => {
            check_integral(alloc, tower, integrand, integral, lines)
        }
        Certificate::Refuted(chain) => check_chain(alloc, tower, integrand, chain, lines),
    }
}

/// Whether a certificate for the integrand is right: whether what it claims to be an integral is one, or the chain of a refutation is exact and its end holds. Line i of the certificate has the number `lines[i]`.
///
/// `Refused` with the first condition that does not hold, or `Stopped` where a value that this condition needs cannot be formed first: Overflow or Size; of a refutation `NotSound(e)` too, where the tower has more constants than the
/// fractions. `Memory` for want of memory alone.
pub fn check(
    alloc: Global,
    tower: &Tower,
    integrand: &Elem,
    certificate: &Certificate,
    lines: &NumberList,
) -> Check
    requires integrand { Within (length tower.now + 1) integrand.now }
    requires certificate { IsCertificate (length tower.now + 1) certificate.now }
    requires lines { length lines.now ≡ line_count certificate.now }
    ensures rule { Answers result (spec.checked tower.now integrand.now certificate.now lines.now) }
    ensures integral { OnAccepted result (IfIntegral certificate.now (λ it. IsIntegral (monomials tower.now) it (meaning integrand.now))) }
    ensures chain { OnAccepted result (IfRefuted certificate.now (IsExact (monomials tower.now) (meaning integrand.now))) }
    ensures stops { IfStopped result (λ stop. IfIntegral certificate.now (λ _. IsOfValue stop)) }
{
    match check_certificate(alloc, tower, integrand, certificate, lines.as_slice()) {
        Ok(()) => Check::Accepted,
        Err(Fault::Refused { line, left, right }) => Check::Refused { line, left, right },
        Err(Fault::Ended(Ended::Stopped(stop))) => Check::Stopped(stop),
        Err(Fault::Ended(Ended::Left | Ended::Memory)) => Check::Memory,
    }
}
