//! The answer to a rational function in x.

ghost use Rattle.std.specs.Prelude.{◌≡◌, ◌≤◌, [], List, IfOk};
ghost use Rattle.risch_mean.specs.Answer.{HasDerivative};
ghost use Rattle.risch_level.specs.Accessors as accessors;
ghost use Rattle.risch_element_theory.specs.WholeTower.{meaning, Within};
ghost use Rattle.risch_cert.specs.declared.answer.Answer.TheVariants.{Disagree};
ghost use Rattle.risch_tower.specs.declared.level.Level.{Level};
ghost use Rattle.risch_tower.specs.Tower.{derivative};
ghost use Rattle.risch_tower.specs.TowerMeaning.{monomials};
ghost use Rattle.risch_rootsum.specs.Derivative.{derive_integral};
ghost use Rattle.risch_rootsum.specs.DerivativeMeaning.{answer_of};
ghost use Rattle.risch_round.specs.RationalFunctions as spec;
ghost use Rattle.risch_round.specs.AnswerMeaning.{IsDisagreement, IsFormed, IsFoundIntegral};

use crate::branches::round;
use crate::elements::coefficients;
use crate::halted::HaltFault;
use crate::procedure;
use crate::procedure::unchecked;
use risch_cert::Answer;
use risch_elem::Elem;
use risch_rootsum::{Integral, derive_integral};
use risch_tower::Tower;
use std::alloc::{AllocError, Global};

/// The derivative beside the integrand.
fn told_apart(alloc: Global, derivative: Elem, integrand: &Elem) -> Result<Answer, AllocError>
    ensures { IfOk result (λ it. it ≡ Disagree derivative integrand.now) }
{
    let right = integrand.copy(alloc)?;
    Ok(Answer::Disagree {
        left: derivative,
        right,
    })
}

/// The integral, if this derivative of it is the integrand.
fn compared(
    alloc: Global,
    integrand: &Elem,
    integral: Integral,
    derivative: Elem,
) -> Result<Answer, AllocError>
    ensures rule { IfOk result (λ it. it ≡ spec.compared integrand.now integral derivative) }
    ensures integral { (tower : List Level) → HasDerivative (monomials tower) (answer_of integral) (meaning derivative) → IfOk result (IsFoundIntegral tower integrand.now) }
    ensures disagree { IfOk result IsDisagreement }
{
    if derivative.same(integrand) {
        return Ok(Answer::Integral(integral));
    }
    told_apart(alloc, derivative, integrand)
}

/// The integral, if its derivative is the integrand.
#[tactic(auto)]
fn checked(
    alloc: Global,
    tower: &Tower,
    integrand: &Elem,
    integral: Integral,
) -> Result<Answer, AllocError>
    requires tower { tower.now ≡ [] }
    requires formed { IsFormed tower.now integral }
    ensures rule { IfOk result (λ it. it ≡ spec.checked integrand.now integral (derive_integral (derivative tower.now) integral)) }
    ensures integral { IfOk result (IsFoundIntegral tower.now integrand.now) }
    ensures disagree { IfOk result IsDisagreement }
{
    let _part = integral.part.nest();
    match derive_integral(alloc, tower, &integral) {
        Ok(derivative) => compared(alloc, integrand, integral, derivative),
        Err(stop) => unchecked(stop),
    }
}

/// The answer to an integrand that is no polynomial in x.
fn answered(
    alloc: Global,
    tower: &Tower,
    integrand: &Elem,
    budget: u64,
) -> Result<Answer, AllocError>
    requires tower { tower.now ≡ [] }
    requires within { Within 1 integrand.now }
    ensures rule { IfOk result (λ it. it ≡ spec.answered tower.now budget integrand.now (spec.round tower.now budget integrand.now)) }
    ensures integral { IfOk result (IsFoundIntegral tower.now integrand.now) }
    ensures disagree { IfOk result IsDisagreement }
{
    match round(alloc, tower, integrand, budget) {
        Ok(integral) => checked(alloc, tower, integrand, integral),
        Err(HaltFault::Halted(halt)) => Ok(Answer::Stopped(halt)),
        Err(HaltFault::Memory) => Err(AllocError),
    }
}

/// The answer to a rational function f in x, with a budget: an integral g of f with Dg = f, or a stop at its step, or a derivative that is another element than f.
///
/// The Hermite reduction and each branch may cost up to the budget. Stops: Overflow, Size and Budget of the least step that has one; `NotSound` and `Case` never over Q(x).
/// `Err` for want of memory alone.
#[tactic(auto, unfolding(crate::specs::RationalFunctions::answer))]
pub fn integrate(
    alloc: Global,
    tower: &Tower,
    integrand: &Elem,
    budget: u64,
) -> Result<Answer, AllocError>
    requires tower { tower.now ≡ [] }
    requires within { Within 1 integrand.now }
    ensures rule { IfOk result (λ it. it ≡ spec.answer budget integrand.now) }
    ensures integral { IfOk result (IsFoundIntegral tower.now integrand.now) }
    ensures disagree { IfOk result IsDisagreement }
{
    match coefficients(alloc, integrand)? {
        Some(polynomial) => procedure::integrate(alloc, budget, &polynomial),
        None => answered(alloc, tower, integrand, budget),
    }
}
