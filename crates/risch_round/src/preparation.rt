//! The preparation of a round at x.

ghost use Rattle.std.specs.Prelude.{IsFalse, IfOk};
ghost use Rattle.risch_element_theory.specs.WholeTower.{polynomial, Within};
ghost use Rattle.risch_tower.specs.TowerMeaning.{monomials};
ghost use Rattle.risch_monomial.specs.LevelDerivation.{level_derivation};
ghost use Rattle.risch_monomial.specs.LevelElements.{denominator_at};
ghost use Rattle.risch_monomial.specs.NormalPolynomials.{HasNormalDivisors};
ghost use Rattle.risch_run.specs.Ruled.{IsResult, formed};
ghost use Rattle.risch_hermite.specs.HermiteMeaning.{IsHermiteReduction};
ghost use Rattle.risch_split.specs.Canonical.{canonical as canonical_rule};
ghost use Rattle.risch_split.specs.SplittingMeaning.{AreCanonicalParts};
ghost use Rattle.risch_round.specs.RationalFunctions as spec;
ghost use Rattle.risch_round.specs.AnswerMeaning.{IsPrepared, IsSimple};

use crate::budgets::hermite_within;
use risch_elem::Elem;
use risch_field::Arith;
use risch_hermite::Hermite;
use risch_run::{Ended, result_of};
use risch_split::{Canonical, canonical};
use risch_tower::Tower;
use std::alloc::Global;

/// An element f = Dg + h + r of Q(x).
#[derive(Drop)]
pub(crate) struct Prepared {
    /// The element whose derivative is split off.
    pub(crate) g: Elem,
    /// The simple part: proper, with a denominator that is coprime with its derivative.
    pub(crate) h: Elem,
    /// The polynomial part.
    pub(crate) r: Elem,
}

/// The reduction with r = reduced + rest.
#[tactic(auto, using(crate::proofs::PreparationSteps::is_prepared), unfolding(crate::specs::RationalFunctions::with_rest))]
fn with_rest(
    alloc: Global,
    tower: &Tower,
    normal: &Elem,
    reduced: &Elem,
    reduction: Hermite,
) -> Result<Prepared, Ended>
    requires reduced { Within 1 reduced.now }
    requires meaning { IsHermiteReduction tower.now 0 normal.now reduction }
    requires within { Within 1 reduction.g × Within 1 reduction.h × Within 1 reduction.rest }
    ensures rule { IsResult result (formed (spec.with_rest reduced.now reduction)) }
    ensures prepared { IfOk result (IsPrepared tower.now) }
{
    let Hermite { g, h, rest } = reduction;
    let r = reduced.add(alloc, &rest)?;
    Ok(Prepared { g, h, r })
}

/// The canonical parts of f with the Hermite reduction of the normal part, where it is not 0.
#[tactic(auto, using(risch_run::proofs::RuledSteps::steps), unfolding(crate::specs::RationalFunctions::prepared_by))]
fn prepare_parts(
    alloc: Global,
    tower: &Tower,
    parts: Canonical,
    budget: u64,
) -> Result<Prepared, Ended>
    requires reduced { Within 1 parts.reduced }
    requires within { Within 1 parts.normal }
    requires normal { HasNormalDivisors (level_derivation (monomials tower.now) 0) (polynomial (denominator_at 0 parts.normal)) }
    ensures rule { IsResult result (spec.prepared_by tower.now budget parts) }
    ensures prepared { IfOk result (IsPrepared tower.now) }
{
    let Canonical { reduced, normal } = parts;
    if normal.is_zero() {
        return Ok(Prepared {
            g: Elem::zero(),
            h: Elem::zero(),
            r: reduced,
        });
    }
    let reduction = hermite_within(alloc, tower, &normal, budget)?;
    with_rest(alloc, tower, &normal, &reduced, reduction)
}

/// The canonical parts of f.
#[tactic(auto, using(risch_run::proofs::RuledSteps::result_is_rule, crate::proofs::BudgetSteps::if_done_result))]
fn parts_of(alloc: Global, tower: &Tower, integrand: &Elem) -> Result<Canonical, Ended>
    requires { Within 1 integrand.now }
    ensures rule { IsResult result (canonical_rule tower.now 0 integrand.now) }
    ensures meaning { IfOk result (AreCanonicalParts tower.now 0 integrand.now) }
    ensures within { IfOk result (λ it. Within 1 it.reduced × Within 1 it.normal) }
{
    let run = canonical(alloc, tower, 0, integrand);
    result_of(run)
}

/// The preparation of f, or what ends it.
#[tactic(auto, using(risch_run::proofs::RuledSteps::steps), unfolding(crate::specs::RationalFunctions::prepared))]
pub(crate) fn prepare(
    alloc: Global,
    tower: &Tower,
    integrand: &Elem,
    budget: u64,
) -> Result<Prepared, Ended>
    requires { Within 1 integrand.now }
    ensures rule { IsResult result (spec.prepared tower.now budget integrand.now) }
    ensures prepared { IfOk result (IsPrepared tower.now) }
{
    let parts = parts_of(alloc, tower, integrand)?;
    prepare_parts(alloc, tower, parts, budget)
}
