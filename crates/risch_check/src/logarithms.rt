//! The conditions on the logarithms of a certificate.

ghost use Rattle.std.specs.Prelude.{◌≡◌, ◌≤◌, ◌+◌, length, All};
ghost use Rattle.risch_rootsum.specs.Algebra.{IsModulus};
ghost use Rattle.risch_polynomial.specs.Poly as poly;
ghost use Rattle.risch_level.specs.Levels.{element};
ghost use Rattle.risch_check.specs.Certificates.{IsPart};
ghost use Rattle.risch_chain_end.specs.Verdict.{Gives};
ghost use Rattle.risch_check.specs.Checked as spec;

use crate::polynomials::{check_coprime, modulus, polynomial};
use risch_chain_end::{Fault, text};
use risch_elem::Elem;
use risch_frac::Frac;
use risch_rootsum::LogPart;
use std::alloc::Global;

/// The line is refused unless gcd(R, R') = 1.
#[tactic(auto, using(risch_chain_end::proofs::VerdictSteps::steps), unfolding(crate::specs::Checked::checked_separable))]
fn check_separable(alloc: Global, line: u32, fractions: &[Frac]) -> Result<(), Fault>
    requires { IsModulus fractions.now }
    ensures { Gives result (spec.checked_separable line fractions.now) }
{
    let modulus = modulus(alloc, fractions)?;
    let derivative = modulus.partial(alloc)?;
    check_coprime(alloc, line, &modulus, &derivative)
}

/// The conditions on a sum over the roots of R.
#[tactic(auto, using(risch_chain_end::proofs::VerdictSteps::steps), unfolding(crate::specs::Checked::checked_sum))]
fn check_sum(alloc: Global, line: u32, sum: &LogPart) -> Result<(), Fault>
    requires { IsPart sum.now }
    ensures { Gives result (spec.checked_sum line sum.now) }
{
    check_separable(alloc, line, sum.poly.as_slice())?;
    let argument = polynomial(alloc, sum.arg.as_slice())?;
    let modulus = modulus(alloc, sum.poly.as_slice())?;
    check_coprime(alloc, line, &argument, &modulus)
}

/// Whether the coefficient at 0 is 0.
#[tactic(auto, using(crate::proofs::ZeroTests::zero_told))]
fn constant_is_zero(coefficients: &[Elem]) -> bool
    ensures { result ≡ element.is_zero (poly.coefficient element coefficients.now 0) }
{
    match coefficients.first() {
        Some(constant) => constant.is_zero(),
        None => true,
    }
}

/// The condition on a logarithm.
#[tactic(auto, unfolding(crate::specs::Checked::checked_logarithm))]
fn check_logarithm(alloc: Global, line: u32, logarithm: &LogPart) -> Result<(), Fault>
    ensures { Gives result (spec.checked_logarithm line logarithm.now) }
{
    if !constant_is_zero(logarithm.arg.as_slice()) {
        return Ok(());
    }
    let left = text(alloc, "0")?;
    let right = text(alloc, "not 0")?;
    Err(Fault::Refused { line, left, right })
}

/// The conditions on a logarithm, where R has degree 1, or on a sum.
fn check_part(alloc: Global, line: u32, part: &LogPart) -> Result<(), Fault>
    requires { IsPart part.now }
    ensures { Gives result (spec.checked_part line part.now) }
{
    if part.poly.len() == 2 {
        check_logarithm(alloc, line, part)
    } else {
        check_sum(alloc, line, part)
    }
}

/// The conditions on the logarithms, which stand behind the first two lines of the certificate.
pub(crate) fn check_parts(alloc: Global, parts: &[LogPart], lines: &[u32]) -> Result<(), Fault>
    requires formed { All IsPart parts.now }
    requires lines { length parts.now + 2 ≤ length lines.now }
    ensures { Gives result (spec.checked_parts lines.now 2 parts.now) }
{
    for place in 0..parts.len() {
        check_part(alloc, lines[place + 2], &parts[place])?;
    }
    Ok(())
}
