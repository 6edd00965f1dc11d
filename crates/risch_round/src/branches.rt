//! The branches of a round at x.

ghost use Rattle.std.specs.Prelude.{◌≡◌, IsFalse, IfOk};
ghost use Rattle.risch_level.specs.Levels.{element};
ghost use Rattle.risch_element_theory.specs.WholeTower.{Within};
ghost use Rattle.risch_run.specs.Ruled.{IsResult, formed};
ghost use Rattle.risch_round.specs.Halts.{IsHalted};
ghost use Rattle.risch_round.specs.RationalFunctions as spec;
ghost use Rattle.risch_round.specs.AnswerMeaning.{HaveDerivatives, IfConstantLogs, IsFormed, IsPrepared, IsSimple};

use crate::budgets::residues_within;
use crate::elements::{coefficients, element_of};
use crate::halted::{HaltFault, in_step};
use crate::preparation::{Prepared, prepare};
use crate::procedure::{BranchFault, branch};
use risch_cert::Place;
use risch_elem::Elem;
use risch_frac::Frac;
use risch_polynomial::Poly;
use risch_residue::Residues;
use risch_rootsum::{Integral, LogList};
use risch_run::Ended;
use risch_tower::Tower;
use std::alloc::{AllocError, Global};

/// The logarithms of constant residues.
#[tactic(auto, using(crate::proofs::BranchSteps::nothing_has_derivatives))]
fn logarithms_in(alloc: Global, tower: &Tower, residues: Residues) -> LogList
    requires { IfConstantLogs residues (HaveDerivatives tower.now 1) }
    ensures rule { result ≡ spec.logarithms_in residues }
    ensures derivatives { HaveDerivatives tower.now 1 result }
{
    match residues {
        Residues::Constant { logs, .. } => logs,
        Residues::NotConstant { .. } => LogList::new(alloc),
    }
}

/// The logarithms of the residues of h, where h is not 0.
#[tactic(auto, using(risch_run::proofs::RuledSteps::steps, crate::proofs::BranchSteps::nothing_has_derivatives), unfolding(crate::specs::RationalFunctions::residue_branch))]
fn residue_branch(alloc: Global, tower: &Tower, h: &Elem, budget: u64) -> Result<LogList, Ended>
    requires within { Within 1 h.now }
    requires simple { IsFalse (element.is_zero h.now) → IsSimple tower.now h.now }
    ensures rule { IsResult result (spec.residue_branch tower.now budget h.now) }
    ensures derivatives { IfOk result (HaveDerivatives tower.now 1) }
{
    if h.is_zero() {
        return Ok(LogList::new(alloc));
    }
    let residues = residues_within(alloc, tower, h, budget)?;
    Ok(logarithms_in(alloc, tower, residues))
}

/// The integral of the polynomial r in x.
#[tactic(auto, unfolding(crate::specs::RationalFunctions::polynomial_branch))]
fn polynomial_branch(alloc: Global, r: &Elem, budget: u64) -> Result<Poly<Frac>, Ended>
    requires { Within 1 r.now }
    ensures { IsResult result (spec.polynomial_branch budget r.now) }
{
    match coefficients(alloc, r)? {
        Some(r) => match branch(alloc, budget, &r) {
            Ok(piece) => Ok(piece),
            Err(BranchFault::Stopped(stop)) => Err(Ended::Stopped(stop)),
            Err(BranchFault::Memory) => Err(Ended::Memory),
        },
        None => Ok(Poly::zero(alloc)),
    }
}

/// The number of the polynomial branch, which stands behind that of the residues.
fn polynomial_number(h: &Elem) -> u32
    ensures { result ≡ spec.polynomial_number h.now }
{
    if h.is_zero() { 0 } else { 1 }
}

/// g and the piece of the polynomial branch as one part, with the logarithms.
#[tactic(auto, unfolding(crate::specs::RationalFunctions::gathered))]
fn gathered(
    alloc: Global,
    tower: &Tower,
    g: &Elem,
    logs: LogList,
    piece: &Poly<Frac>,
) -> Result<Integral, Ended>
    requires g { Within 1 g.now }
    requires logs { HaveDerivatives tower.now 1 logs }
    ensures rule { IsResult result (formed (spec.gathered g.now logs piece.now)) }
    ensures formed { IfOk result (IsFormed tower.now) }
{
    let piece = element_of(alloc, piece)?;
    let part = g.add(alloc, &piece)?;
    Ok(Integral { part, logs })
}

/// The branches of a round, and what they give. The stop of the residues is the least whatever the polynomial branch gives.
#[tactic(auto, using(crate::proofs::HaltSteps::steps), unfolding(crate::specs::RationalFunctions::branches))]
fn branches(alloc: Global, tower: &Tower, of: &Prepared, budget: u64) -> Result<Integral, HaltFault>
    requires { IsPrepared tower.now of.now }
    ensures rule { IsHalted result (spec.branches tower.now budget of.now) }
    ensures formed { IfOk result (IsFormed tower.now) }
{
    let logs = residue_branch(alloc, tower, &of.h, budget);
    let logs = in_step(Place::Branch(0, 0), logs)?;
    let piece = polynomial_branch(alloc, &of.r, budget);
    let piece = in_step(Place::Branch(0, polynomial_number(&of.h)), piece)?;
    let integral = gathered(alloc, tower, &of.g, logs, &piece);
    in_step(Place::Gathering(0), integral)
}

/// The round at x.
#[tactic(auto, using(crate::proofs::HaltSteps::steps), unfolding(crate::specs::RationalFunctions::round))]
pub(crate) fn round(
    alloc: Global,
    tower: &Tower,
    integrand: &Elem,
    budget: u64,
) -> Result<Integral, HaltFault>
    requires { Within 1 integrand.now }
    ensures rule { IsHalted result (spec.round tower.now budget integrand.now) }
    ensures formed { IfOk result (IsFormed tower.now) }
{
    let prepared = prepare(alloc, tower, integrand, budget);
    let prepared = in_step(Place::Preparing(0), prepared)?;
    branches(alloc, tower, &prepared, budget)
}
