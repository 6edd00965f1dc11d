//! What the power sums of the residues say.

ghost use Rattle.std.specs.Prelude.{◌≡◌, ◌≤◌, ◌<◌, ◌+◌, ◌-◌, ℕ, [], ◌∷◌, None, Some, length, IfOk, IsFalse};
ghost use Rattle.risch_univariate.specs.SplittingFactorization.{IsNormal};
ghost use Rattle.risch_mean.specs.Element.{zero};
ghost use Rattle.risch_mean.specs.ElementField.{elements};
ghost use Rattle.risch_mean.specs.Constants as constants;
ghost use Rattle.risch_mean.specs.Tower.{derive_in};
ghost use Rattle.risch_level.specs.Accessors.{as_number};
ghost use Rattle.risch_element_theory.specs.WholeTower.{meaning, polynomial, Within, AllWithin};
ghost use Rattle.risch_tower.specs.Tower.{derivative};
ghost use Rattle.risch_tower.specs.TowerMeaning.{monomials};
ghost use Rattle.risch_level.specs.Levels.{element};
ghost use Rattle.risch_monomial.specs.LevelDerivation.{level_derivation};
ghost use Rattle.risch_monomial.specs.LevelElements.{numerator_at, denominator_at};
ghost use Rattle.risch_run.specs.Ruled.{formed, IfErrNotSound};
ghost use Rattle.risch_run.specs.Counted.{free, and_counted, IsCountedResult, LeavesOf};
ghost use Rattle.risch_residue_traces.specs.ResidueTraces as spec;
ghost use Rattle.risch_residue_traces.specs.TracesMeaning.{IfConstant, IfNotConstant, AreResidueTraces, AreNotConstant};

use crate::residue::{Inner, residue};
use risch_elem::{Elem, ElemList, Stop, Units};
use risch_monomial::level_of;
use risch_run::{Ended, charge};
use risch_sub::next_power;
use risch_tower::Tower;
use risch_trace::trace;
use std::alloc::{AllocError, Global};

/// The power sums of the residues of an element a/d.
#[derive(Drop)]
pub enum Traces {
    /// The traces of ρ, .., ρ^m for m = deg d, which are all fractions.
    Constant(ElemList),
    /// The first trace that is no fraction, that of ρ^power; its derivative is not 0.
    NotConstant {
        /// From 1 to m.
        power: u16,
        trace: Elem,
    },
}

impl Traces {
    /// The same once more.
    ///
    /// `Err` for want of memory alone.
    pub fn copy(&self, alloc: Global) -> Result<Traces, AllocError>
        ensures { IfOk result (λ copy. copy ≡ self.now) }
    {
        match self {
            Traces::Constant(traces) => Ok(Traces::Constant(traces.copy(alloc)?)),
            Traces::NotConstant { power, trace } => {
                let power = *power;
                let trace = trace.copy(alloc)?;
                Ok(Traces::NotConstant { power, trace })
            }
        }
    }
}

/// What a trace p of ρ^power says that is no fraction: the residues are not constant where Dp is not 0.
///
/// Stops: that of Dp; `NotSound(p)` where Dp = 0.
fn judged(alloc: Global, tower: &Tower, power: u16, trace: Elem) -> Result<Traces, Ended>
    requires within { Within (length tower.now + 1) trace }
    ensures rule { (count most : ℕ) → IsCountedResult result (and_counted (free (formed (derivative tower.now trace))) (λ derived. free (spec.judged tower.now power trace derived))) count count most }
    ensures not_constant { IfOk result (λ it. IfNotConstant it (λ _ p. ¬ (derive_in (monomials tower.now) (meaning p) ≡ zero))) }
    ensures not_sound { IfErrNotSound result (λ p. derive_in (monomials tower.now) (meaning p) ≡ zero) }
    ensures leaves { (count : ℕ) → LeavesOf result count count }
{
    let derivative = tower.derive(alloc, &trace)?;
    if derivative.is_zero() {
        return Err(Ended::Stopped(Stop::NotSound(trace)));
    }
    Ok(Traces::NotConstant { power, trace })
}

/// The traces of ρ, which is given and a fraction, and of ρ², .., ρ^m, or the first that is no fraction. Each further power costs one unit.
fn further_traces<U: Units>(
    alloc: Global,
    tower: &Tower,
    modulus: &Inner,
    residue: &Inner,
    first: Elem,
    units: &mut U,
) -> Result<Traces, Ended>
    requires modulus_within { AllWithin (length tower.now + 1) modulus.now }
    requires residue_within { AllWithin (length tower.now + 1) residue.now }
    ensures rule { IsCountedResult result (spec.traces_from tower.now modulus.now residue.now (length modulus.now - 2) (first ∷ []) residue.now) (U.units units.old) (U.units units.new) (U.most units.old) }
    ensures not_constant { IfOk result (λ it. IfNotConstant it (λ _ p. ¬ (derive_in (monomials tower.now) (meaning p) ≡ zero))) }
    ensures not_sound { IfErrNotSound result (λ p. derive_in (monomials tower.now) (meaning p) ≡ zero) }
    ensures leaves { LeavesOf result (U.leaves units.old) (U.leaves units.new) }
    ensures same_most { U.most units.new ≡ U.most units.old }
    ensures same_kept { U.kept units.new ≡ U.kept units.old }
{
    let further = modulus.coefficients().len().saturating_sub(2) as u16;
    let mut traces = ElemList::new(alloc);
    traces.push(first)?;
    let mut power = residue.copy(alloc)?;
    for done in 0..further {
        charge(units)?;
        let next = next_power(alloc, modulus, residue, &power)?;
        let value = trace(alloc, modulus, &next)?;
        let Some(_number) = value.as_num() else {
            return judged(alloc, tower, done + 2, value);
        };
        traces.push(value)?;
        power = next;
    }
    Ok(Traces::Constant(traces))
}

/// The traces of ρ, .., ρ^m for m = deg d, or the first that is no fraction.
fn traces_of<U: Units>(
    alloc: Global,
    tower: &Tower,
    modulus: &Inner,
    residue: &Inner,
    units: &mut U,
) -> Result<Traces, Ended>
    requires modulus_within { AllWithin (length tower.now + 1) modulus.now }
    requires residue_within { AllWithin (length tower.now + 1) residue.now }
    ensures rule { IsCountedResult result (spec.traces_of tower.now modulus.now residue.now) (U.units units.old) (U.units units.new) (U.most units.old) }
    ensures not_constant { IfOk result (λ it. IfNotConstant it (λ _ p. ¬ (derive_in (monomials tower.now) (meaning p) ≡ zero))) }
    ensures not_sound { IfErrNotSound result (λ p. derive_in (monomials tower.now) (meaning p) ≡ zero) }
    ensures leaves { LeavesOf result (U.leaves units.old) (U.leaves units.new) }
    ensures same_most { U.most units.new ≡ U.most units.old }
    ensures same_kept { U.kept units.new ≡ U.kept units.old }
{
    charge(units)?;
    let first = trace(alloc, modulus, residue)?;
    let Some(_number) = first.as_num() else {
        return judged(alloc, tower, 1, first);
    };
    further_traces(alloc, tower, modulus, residue, first, units)
}

/// The power sums of the residues of h = a/d, or what ends them.
#[tactic(auto, using(risch_run::proofs::CountedSteps::steps, risch_run::proofs::RuledSteps::stop_is_sound), unfolding(crate::specs::ResidueTraces::residue_traces))]
pub(crate) fn power_sums<U: Units>(
    alloc: Global,
    tower: &Tower,
    level: u8,
    h: &Elem,
    units: &mut U,
) -> Result<Traces, Ended>
    requires level { level ≤ length tower.now }
    requires within { Within (level + 1) h.now }
    requires some { IsFalse (element.is_zero h.now) }
    requires proper { length (numerator_at level h.now) < length (denominator_at level h.now) }
    requires normal { IsNormal elements (level_derivation (monomials tower.now) level) (polynomial (denominator_at level h.now)) }
    ensures rule { IsCountedResult result (spec.residue_traces tower.now level h.now) (U.units units.old) (U.units units.new) (U.most units.old) }
    ensures constant { IfOk result (λ it. IfConstant it (AreResidueTraces tower.now level h.now)) }
    ensures not_constant { IfOk result (λ it. IfNotConstant it (λ power trace. AreNotConstant tower.now level h.now power trace × Within level trace)) }
    ensures not_sound { IfErrNotSound result (λ e. constants.IsNewConstant (monomials tower.now) level (meaning e)) }
    ensures leaves { LeavesOf result (U.leaves units.old) (U.leaves units.new) }
    ensures same_most { U.most units.new ≡ U.most units.old }
    ensures same_kept { U.kept units.new ≡ U.kept units.old }
{
    level_of(tower, level);
    let _nest = h.nest();
    let numerator = h.num_poly(alloc, level)?;
    let denominator = h.den_poly(alloc, level)?;
    let residue = residue(alloc, tower, level, &numerator, &denominator)?;
    traces_of(alloc, tower, denominator.inner(), &residue, units)
}
