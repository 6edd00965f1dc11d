//! The splitting factorization and the canonical parts as runs.

ghost use Rattle.std.specs.Prelude.{◌≤◌, ◌+◌, length};
ghost use Rattle.risch_univariate.specs.Degree.{IsMonic};
ghost use Rattle.risch_mean.specs.ElementField.{elements};
ghost use Rattle.risch_element_theory.specs.WholeTower.{polynomial, Within, AllWithin};
ghost use Rattle.risch_run.specs.Ruled.{IsRun, IfDone, IfNotSound};
ghost use Rattle.risch_split.specs.Splitting.{splitting};
ghost use Rattle.risch_split.specs.Canonical as spec;
ghost use Rattle.risch_split.specs.SplittingMeaning.{IsSplitting, IsNewConstant, AreCanonicalParts};

use crate::canonical_parts::{Canonical, canonical_parts};
use crate::splitting::{Split, splitting};
use risch_elem::{Elem, Poly, Run};
use risch_run::answer;
use risch_tower::Tower;
use std::alloc::Global;

/// The splitting factorization d = n·s of a monic polynomial d in the variable t of a level, over the elements below it (Bronstein, sections 3.4 and 3.5).
///
/// n and s are monic and coprime; s divides its derivative; each square-free divisor of n is coprime with its derivative. Where Dt = η, s is 1; where Dt = η·t, it is a power of t.
///
/// Stops: that of the first value that cannot be formed; `NotSound(e)` where the special part is another one, with an element e of the level that is no rational number and has De = 0.
#[tactic(auto, using(risch_run::proofs::RuledSteps::answers))]
pub fn split(alloc: Global, tower: &Tower, level: u8, poly: &Poly) -> Run<Split>
    requires level { level ≤ length tower.now }
    requires within { AllWithin level poly.now }
    requires monic { IsMonic elements (polynomial poly.now) }
    ensures rule { IsRun result (splitting tower.now level poly.now) }
    ensures meaning { IfDone result (λ it. IsSplitting tower.now level poly.now it) }
    ensures not_sound { IfNotSound result (IsNewConstant tower.now level) }
    ensures within { IfDone result (λ it. AllWithin level it.normal × AllWithin level it.special) }
{
    answer(splitting(alloc, tower, level, poly))
}

/// The canonical parts of an element f of a level with the variable t: f = reduced + normal (Bronstein, section 3.5).
///
/// The denominator of the reduced part at the level is special: 1 where Dt = η, a power of t where Dt = η·t. The normal part n/d is proper, deg n < deg d, and each square-free divisor of d is coprime with its derivative.
///
/// Stops: that of the first value that cannot be formed; `NotSound(e)` as [`split`](crate::split) of the denominator.
#[tactic(auto, using(risch_run::proofs::RuledSteps::answers))]
pub fn canonical(alloc: Global, tower: &Tower, level: u8, element: &Elem) -> Run<Canonical>
    requires level { level ≤ length tower.now }
    requires within { Within (level + 1) element.now }
    ensures rule { IsRun result (spec.canonical tower.now level element.now) }
    ensures meaning { IfDone result (λ it. AreCanonicalParts tower.now level element.now it) }
    ensures not_sound { IfNotSound result (IsNewConstant tower.now level) }
    ensures within { IfDone result (λ it. Within (level + 1) it.reduced × Within (level + 1) it.normal) }
{
    answer(canonical_parts(alloc, tower, level, element))
}
