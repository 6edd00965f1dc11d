//! The integral of a polynomial in x (Bronstein, section 5.8 at the level of x, where each asked equation is one on the rational numbers).
ghost use Rattle.std.specs.Prelude.{◌≡◌, ◌≤◌, IfOk};
ghost use Rattle.risch_field.specs.Checked.{Agrees};
ghost use Rattle.risch_field.specs.Ground.{ground};
ghost use Rattle.risch_polynomial.specs.Poly as poly;
ghost use Rattle.risch_round.specs.Procedure as spec;
ghost use Rattle.risch_round.specs.Limited.{Answers};
ghost use Rattle.risch_round.specs.AnswerMeaning.{IsDisagreement};

use crate::elements::element_of;
use risch_cert::{Answer, Halt, Place};
use risch_elem::Stop;
use risch_field::{Arith, Fail};
use risch_frac::Frac;
use risch_polynomial::Poly;
use risch_rootsum::{Integral, LogList};
use std::alloc::{AllocError, Global};

/// What ends a branch: a stop, or want of memory, about which no rule says anything.
#[derive(Drop)]
pub enum BranchFault {
    Stopped(Stop),
    Memory,
}

impl From<Fail> for BranchFault {
    ghost use Rattle.risch_round.specs.Limited.{fault_of};

    ghost from_gives = { λ fail fault. fault ≡ fault_of fail };

    fn from(fail: Fail) -> BranchFault {
        match fail {
            Fail::Overflow(op) => BranchFault::Stopped(Stop::Overflow(op)),
            Fail::Size => BranchFault::Stopped(Stop::Size),
            Fail::Memory => BranchFault::Memory,
        }
    }
}

/// What a term other than 0 costs: a unit for its step, and one for its equation.
const TERM_COST: u64 = 2;

/// The answer to an integrand: its integral with the derivative checked, or the stop of the first value that cannot be formed, or of the budget.
#[tactic(auto, unfolding(crate::specs::Procedure::answer))]
pub fn integrate(alloc: Global, budget: u64, integrand: &Poly<Frac>) -> Result<Answer, AllocError>
    ensures rule { IfOk result (λ answer. answer ≡ spec.answer budget integrand.now) }
    ensures disagree { IfOk result IsDisagreement }
{
    match branch(alloc, budget, integrand) {
        Ok(part) => checked(alloc, integrand, &part),
        Err(BranchFault::Stopped(stop)) => Ok(stopped_in(Place::Branch(0, 0), stop)),
        Err(BranchFault::Memory) => Err(AllocError),
    }
}

/// A stop at a step.
pub fn stopped_in(place: Place, stop: Stop) -> Answer
    ensures { result ≡ spec.stopped_in place stop }
{
    Answer::Stopped(Halt { stop, place })
}

/// The answer where a value of the final check cannot be formed.
pub(crate) fn unchecked(stop: Fail) -> Result<Answer, AllocError>
    ensures { IfOk result (spec.IsUnchecked stop) }
{
    match stop {
        Fail::Overflow(op) => Ok(stopped_in(Place::Checking, Stop::Overflow(op))),
        Fail::Size => Ok(stopped_in(Place::Checking, Stop::Size)),
        Fail::Memory => Err(AllocError),
    }
}

/// The part as an integral, if its derivative is the integrand.
fn checked(alloc: Global, integrand: &Poly<Frac>, part: &Poly<Frac>) -> Result<Answer, AllocError>
    ensures rule { IfOk result (λ answer. answer ≡ spec.checked integrand.now part.now (poly.partial ground part.now)) }
    ensures disagree { IfOk result IsDisagreement }
{
    match part.partial(alloc) {
        Ok(derivative) => compared(alloc, integrand, part, &derivative),
        Err(stop) => unchecked(stop),
    }
}

/// The part as an integral, if this is its derivative and the integrand.
fn compared(
    alloc: Global,
    integrand: &Poly<Frac>,
    part: &Poly<Frac>,
    derivative: &Poly<Frac>,
) -> Result<Answer, AllocError>
    ensures rule { IfOk result (λ answer. answer ≡ spec.compared integrand.now part.now derivative.now) }
    ensures disagree { IfOk result IsDisagreement }
{
    if derivative.same(integrand) {
        return Ok(Answer::Integral(Integral {
            part: element_of(alloc, part)?,
            logs: LogList::new(alloc),
        }));
    }
    let left = element_of(alloc, derivative)?;
    let right = element_of(alloc, integrand)?;
    let _derivative_weight = derivative.kept_weight();
    let _integrand_weight = integrand.kept_weight();
    let _left_nest = left.nest();
    let _right_nest = right.nest();
    Ok(Answer::Disagree { left, right })
}

/// The sum of the integrals of the terms, from the highest exponent down.
pub fn branch(alloc: Global, budget: u64, integrand: &Poly<Frac>) -> Result<Poly<Frac>, BranchFault>
    ensures { Answers result (spec.branch budget integrand.now) }
{
    let coefficients = integrand.coefficients();
    let mut units = budget;
    let mut piece = Poly::zero(alloc);
    for exponent in (0..coefficients.len()).rev() {
        let coefficient = coefficients[exponent];
        if !coefficient.is_zero() {
            if units < TERM_COST {
                return Err(BranchFault::Stopped(Stop::Budget));
            }
            units -= TERM_COST;
            piece = with_term(alloc, &piece, coefficient, exponent as u16)?;
        }
    }
    Ok(piece)
}

/// The piece with the integral of c·x^e.
#[tactic(auto, using(risch_field::proofs::CheckedSteps::stop_passes, risch_field::proofs::CheckedSteps::value_passes), unfolding(crate::specs::Procedure::with_term))]
fn with_term(
    alloc: Global,
    piece: &Poly<Frac>,
    coefficient: Frac,
    exponent: u16,
) -> Result<Poly<Frac>, Fail>
    requires { exponent ≤ 255 }
    ensures { Agrees result (spec.with_term coefficient exponent piece.now) }
{
    let integral = integral_of_term(alloc, coefficient, exponent)?;
    piece.add(alloc, &integral)
}

/// c/(e + 1)·x^(e + 1).
#[tactic(auto, using(risch_field::proofs::CheckedSteps::stop_passes, risch_field::proofs::CheckedSteps::value_passes), unfolding(crate::specs::Procedure::integral_of_term))]
fn integral_of_term(alloc: Global, coefficient: Frac, exponent: u16) -> Result<Poly<Frac>, Fail>
    requires { exponent ≤ 255 }
    ensures { Agrees result (spec.integral_of_term coefficient exponent) }
{
    let next = exponent + 1;
    let quotient = Arith::div(&coefficient, alloc, &Frac::whole(next))?;
    Poly::monomial(alloc, quotient, next)
}
