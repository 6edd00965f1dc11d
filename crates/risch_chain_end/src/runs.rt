//! The canonical parts and the power sums of the residues, as results.

ghost use Rattle.std.specs.Prelude.{◌≡◌, ◌≤◌, ◌<◌, ◌+◌, length, IsFalse, IfOk};
ghost use Rattle.risch_univariate.specs.SplittingFactorization.{IsNormal};
ghost use Rattle.risch_mean.specs.ElementField.{elements};
ghost use Rattle.risch_level.specs.Levels.{element};
ghost use Rattle.risch_element_theory.specs.WholeTower.{polynomial, Within};
ghost use Rattle.risch_tower.specs.TowerMeaning.{monomials};
ghost use Rattle.risch_monomial.specs.LevelDerivation.{level_derivation};
ghost use Rattle.risch_monomial.specs.LevelElements.{numerator_at, denominator_at};
ghost use Rattle.risch_run.specs.Ruled.{IsResult};
ghost use Rattle.risch_split.specs.Canonical as split;
ghost use Rattle.risch_split.specs.SplittingMeaning.{AreCanonicalParts};
ghost use Rattle.risch_residue_traces.specs.ResidueTraces as traces;
ghost use Rattle.risch_residue_traces.specs.TracesMeaning.{IfNotConstant, AreNotConstant};

use risch_elem::{Counter, Elem};
use risch_monomial::level_of;
use risch_residue_traces::{Traces, residue_traces};
use risch_run::{Ended, result_of};
use risch_split::{Canonical, canonical};
use risch_tower::Tower;
use std::alloc::Global;

/// The canonical parts of an element of a level.
#[tactic(auto, using(crate::proofs::Results::results))]
pub(crate) fn canonical_parts(
    alloc: Global,
    tower: &Tower,
    level: u8,
    element: &Elem,
) -> Result<Canonical, Ended>
    requires level { level ≤ length tower.now }
    requires within { Within (level + 1) element.now }
    ensures rule { IsResult result (split.canonical tower.now level element.now) }
    ensures meaning { IfOk result (λ it. AreCanonicalParts tower.now level element.now it) }
    ensures within { IfOk result (λ it. Within (level + 1) it.reduced × Within (level + 1) it.normal) }
{
    result_of(canonical(alloc, tower, level, element))
}

/// The power sums of the residues of h, of which there are at most 255: no budget ends them.
#[tactic(auto, using(crate::proofs::Results::results))]
pub(crate) fn power_sums(alloc: Global, tower: &Tower, level: u8, h: &Elem) -> Result<Traces, Ended>
    requires level { level ≤ length tower.now }
    requires within { Within (level + 1) h.now }
    requires some { IsFalse (element.is_zero h.now) }
    requires proper { length (numerator_at level h.now) < length (denominator_at level h.now) }
    requires normal { IsNormal elements (level_derivation (monomials tower.now) level) (polynomial (denominator_at level h.now)) }
    ensures rule { IsResult result (traces.residue_traces tower.now level h.now).result }
    ensures not_constant { IfOk result (λ it. IfNotConstant it (AreNotConstant tower.now level h.now)) }
{
    level_of(tower, level);
    let _nest = h.nest();
    let mut units = Counter::new(u64::MAX);
    result_of(residue_traces(alloc, tower, level, h, &mut units))
}
