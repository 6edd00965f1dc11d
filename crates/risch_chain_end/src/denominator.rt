//! The condition on the denominator of the normal part.

ghost use Rattle.std.specs.Prelude.{◌<◌, length, IsTrue, IfOk};
ghost use Rattle.risch_univariate.specs.Division.{IsSquareFree};
ghost use Rattle.risch_mean.specs.ElementField.{elements};
ghost use Rattle.risch_polynomial.specs.Poly as poly;
ghost use Rattle.risch_level.specs.Levels.{element};
ghost use Rattle.risch_element_theory.specs.WholeTower.{polynomial};
ghost use Rattle.risch_chain_end.specs.Verdict.{Gives};
ghost use Rattle.risch_chain_end.specs.End as spec;
ghost use Rattle.risch_chain_end.specs.EndMeaning.{HasSquareFreeDenominator};

use crate::fault::Fault;
use crate::texts::text;
use risch_cert::print_poly;
use risch_elem::{Elem, Poly};
use std::alloc::Global;

/// The line is refused unless g = 1.
fn check_one(alloc: Global, line: u32, level: u8, divisor: &Poly) -> Result<(), Fault>
    ensures rule { Gives result (spec.checked_one line level divisor.now) }
    ensures one { IfOk result (λ _. IsTrue (poly.is_one element divisor.now)) }
{
    if divisor.is_one() {
        return Ok(());
    }
    let left = print_poly(alloc, level, divisor)?;
    let right = text(alloc, "1")?;
    Err(Fault::Refused { line, left, right })
}

/// The line is refused unless gcd(d, ∂d) = 1, which says that d is square-free.
#[tactic(auto, using(crate::proofs::VerdictSteps::steps), unfolding(crate::specs::End::checked_square_free))]
fn check_square_free(alloc: Global, line: u32, level: u8, denominator: &Poly) -> Result<(), Fault>
    requires { 0 < length denominator.now }
    ensures rule { Gives result (spec.checked_square_free line level denominator.now) }
    ensures square_free { IfOk result (λ _. IsSquareFree elements (polynomial denominator.now)) }
{
    let derivative = denominator.partial(alloc)?;
    let divisor = denominator.gcd(alloc, &derivative)?;
    let _inner = divisor.inner();
    check_one(alloc, line, level, &divisor)
}

/// The condition on the denominator of the normal part h, where h is not 0.
pub(crate) fn check_denominator(
    alloc: Global,
    line: u32,
    level: u8,
    normal: &Elem,
) -> Result<(), Fault>
    requires { level < 5 }
    ensures rule { Gives result (spec.checked_denominator line level normal.now) }
    ensures square_free { IfOk result (λ _. HasSquareFreeDenominator level normal.now) }
{
    if normal.is_zero() {
        return Ok(());
    }
    let denominator = normal.den_poly(alloc, level)?;
    check_square_free(alloc, line, level, &denominator)
}
