//! Calls that cost, with a budget of their own.

ghost use Rattle.std.specs.Prelude.{◌≤◌, IsFalse, IfOk};
ghost use Rattle.risch_element_theory.specs.WholeTower.{polynomial, Within};
ghost use Rattle.risch_level.specs.Levels.{element};
ghost use Rattle.risch_tower.specs.TowerMeaning.{monomials};
ghost use Rattle.risch_monomial.specs.LevelDerivation.{level_derivation};
ghost use Rattle.risch_monomial.specs.LevelElements.{denominator_at};
ghost use Rattle.risch_monomial.specs.NormalPolynomials.{HasNormalDivisors};
ghost use Rattle.risch_run.specs.Ruled.{IsResult};
ghost use Rattle.risch_hermite.specs.HermiteReduction as reduction;
ghost use Rattle.risch_hermite.specs.HermiteMeaning.{IsHermiteReduction};
ghost use Rattle.risch_residue.specs.Residues as rules;
ghost use Rattle.risch_round.specs.Budgets.{within_budget};
ghost use Rattle.risch_round.specs.AnswerMeaning.{HaveDerivatives, IfConstantLogs, IsSimple};

use risch_elem::{Counter, Elem, Units};
use risch_hermite::{Hermite, hermite};
use risch_residue::{Residues, residues};
use risch_run::{Ended, result_of};
use risch_tower::Tower;
use std::alloc::Global;

/// There are at most as many units as there may be.
fn is_within<U: Units>(units: &U)
    ensures { U.units units.now ≤ U.most units.now }
{}

/// The Hermite reduction of an element of Q(x), with a budget.
#[tactic(auto, using(crate::proofs::BudgetSteps::result_is_within, crate::proofs::BudgetSteps::if_done_result))]
pub(crate) fn hermite_within(
    alloc: Global,
    tower: &Tower,
    normal: &Elem,
    budget: u64,
) -> Result<Hermite, Ended>
    requires within { Within 1 normal.now }
    requires normal { HasNormalDivisors (level_derivation (monomials tower.now) 0) (polynomial (denominator_at 0 normal.now)) }
    ensures rule { IsResult result (within_budget budget (reduction.hermite tower.now 0 normal.now)) }
    ensures meaning { IfOk result (λ it. IsHermiteReduction tower.now 0 normal.now it) }
    ensures within { IfOk result (λ it. Within 1 it.g × Within 1 it.h × Within 1 it.rest) }
{
    let mut units = Counter::new(budget);
    let run = hermite(alloc, tower, 0, normal, &mut units);
    is_within(&units);
    result_of(run)
}

/// The residues of a simple element of Q(x), with a budget.
#[tactic(auto, using(crate::proofs::BudgetSteps::result_is_within, crate::proofs::BudgetSteps::if_done_result))]
pub(crate) fn residues_within(
    alloc: Global,
    tower: &Tower,
    h: &Elem,
    budget: u64,
) -> Result<Residues, Ended>
    requires within { Within 1 h.now }
    requires some { IsFalse (element.is_zero h.now) }
    requires simple { IsSimple tower.now h.now }
    ensures rule { IsResult result (within_budget budget (rules.residues tower.now 0 h.now)) }
    ensures derivatives { IfOk result (λ it. IfConstantLogs it (HaveDerivatives tower.now 1)) }
{
    let mut units = Counter::new(budget);
    let run = residues(alloc, tower, 0, h, &mut units);
    is_within(&units);
    result_of(run)
}
