//! The conditions on the derivatives of an integral, and of the partial integral of a refutation.

ghost use Rattle.std.specs.Prelude.{◌≡◌, ◌+◌, length, IfOk};
ghost use Rattle.risch_mean.specs.Element as mean;
ghost use Rattle.risch_mean.specs.Answer.{HasDerivative, IsIntegral};
ghost use Rattle.risch_element_theory.specs.WholeTower.{meaning};
ghost use Rattle.risch_tower.specs.Tower.{derivative};
ghost use Rattle.risch_tower.specs.TowerMeaning.{monomials};
ghost use Rattle.risch_rootsum.specs.DerivativeMeaning.{answer_of};
ghost use Rattle.risch_chain_end.specs.Verdict.{Gives};
ghost use Rattle.risch_check.specs.Certificates.{IsFormed, IsReduced};
ghost use Rattle.risch_check.specs.Checked as spec;

use risch_cert::print_elem;
use risch_chain_end::Fault;
use risch_elem::Elem;
use risch_rootsum::{Integral, derive_integral};
use risch_tower::Tower;
use std::alloc::Global;

/// The line is refused unless f is the integrand.
fn check_same(alloc: Global, line: u32, integrand: &Elem, of: &Elem) -> Result<(), Fault>
    ensures rule { Gives result (spec.checked_same line integrand.now of.now) }
    ensures same { IfOk result (λ _. meaning of.now ≡ meaning integrand.now) }
{
    if of.same(integrand) {
        return Ok(());
    }
    let left = print_elem(alloc, of)?;
    let right = print_elem(alloc, integrand)?;
    Err(Fault::Refused { line, left, right })
}

/// The condition that the derivative of an integral that has one is the integrand.
#[tactic(auto, using(risch_chain_end::proofs::VerdictSteps::steps), unfolding(crate::specs::Checked::checked_derivative))]
pub(crate) fn check_derivative(
    alloc: Global,
    tower: &Tower,
    line: u32,
    integrand: &Elem,
    integral: &Integral,
) -> Result<(), Fault>
    requires formed { IsFormed (length tower.now + 1) integral.now }
    requires derivative { (f : mean.Element) × HasDerivative (monomials tower.now) (answer_of integral.now) f }
    ensures rule { Gives result (spec.checked_derivative (derivative tower.now) line integrand.now integral.now) }
    ensures integral { IfOk result (λ _. IsIntegral (monomials tower.now) (answer_of integral.now) (meaning integrand.now)) }
{
    let derivative = derive_integral(alloc, tower, integral)?;
    check_same(alloc, line, integrand, &derivative)
}

/// The condition that the derivative of a partial integral that has one, plus the rest, is the integrand.
#[tactic(auto, using(risch_chain_end::proofs::VerdictSteps::steps), unfolding(crate::specs::Checked::checked_rest))]
pub(crate) fn check_rest(
    alloc: Global,
    tower: &Tower,
    line: u32,
    integrand: &Elem,
    partial: &Integral,
    rest: &Elem,
) -> Result<(), Fault>
    requires formed { IsFormed (length tower.now + 1) partial.now }
    requires derivative { (f : mean.Element) × HasDerivative (monomials tower.now) (answer_of partial.now) f }
    ensures rule { Gives result (spec.checked_rest (derivative tower.now) line integrand.now partial.now rest.now) }
    ensures reduced { IfOk result (λ _. IsReduced (monomials tower.now) (meaning integrand.now) (answer_of partial.now) (meaning rest.now)) }
{
    let derivative = derive_integral(alloc, tower, partial)?;
    let sum = derivative.add(alloc, rest)?;
    check_same(alloc, line, integrand, &sum)
}
