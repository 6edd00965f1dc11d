//! The residues of an element as a run.

ghost use Rattle.std.specs.Prelude.{◌≡◌, ◌≤◌, ◌<◌, ◌+◌, length, IsFalse, IfOk};
ghost use Rattle.risch_field.specs.Checked.{Agrees};
ghost use Rattle.risch_level.specs.Accessors.{as_number};
ghost use Rattle.risch_logarithm_rules.specs.Logarithms.{fraction_of};
ghost use Rattle.risch_residue_traces.specs.ResidueTraces.{residue_traces};
ghost use Rattle.risch_residue_traces.specs.TracesMeaning as sums;
ghost use Rattle.risch_univariate.specs.SplittingFactorization.{IsNormal};
ghost use Rattle.risch_mean.specs.Constants as constants;
ghost use Rattle.risch_mean.specs.ElementField.{elements};
ghost use Rattle.risch_elem.specs.Runs.{OnLeft, OnReturn, Rose};
ghost use Rattle.risch_level.specs.Levels.{element};
ghost use Rattle.risch_element_theory.specs.WholeTower.{meaning, polynomial, Within, AllWithin};
ghost use Rattle.risch_tower.specs.TowerMeaning.{monomials};
ghost use Rattle.risch_monomial.specs.LevelDerivation.{level_derivation};
ghost use Rattle.risch_monomial.specs.LevelElements.{numerator_at, denominator_at};
ghost use Rattle.risch_run.specs.Ruled.{IfDone, IfNotSound, IfErrNotSound};
ghost use Rattle.risch_run.specs.Counted.{IsCountedRun, IsCountedResult, LeavesOf};
ghost use Rattle.risch_residue_traces.specs.TracesMeaning.{AreNotConstant};
ghost use Rattle.risch_residue.specs.Residues as spec;
ghost use Rattle.risch_residue.specs.ResiduesMeaning.{IfConstant, IfNotConstant, AreLogarithmsOf, AllLogParts};

use crate::logarithm::fraction;
use crate::logarithms::logarithms;
use crate::outcome::Residues;
use crate::setting::setting;
use risch_elem::{Elem, Fail, Run, Units};
use risch_field::Arith;
use risch_frac::Frac;
use risch_residue_traces::{Traces, residue_traces};
use risch_run::{Ended, answer, result_of};
use risch_tower::Tower;
use risch_trace::elements::all_normal;
use std::alloc::Global;

/// The fraction that the first trace is.
fn first_trace(traces: &[Elem]) -> Frac
    ensures { result ≡ fraction_of (as_number 5 (spec.first_trace traces.now)) }
{
    match traces.first() {
        Some(trace) => fraction(trace),
        None => fraction(&Elem::zero()),
    }
}

/// The residues by their power sums.
fn residues_by(
    alloc: Global,
    tower: &Tower,
    level: u8,
    h: &Elem,
    traces: Traces,
) -> Result<Residues, Fail>
    requires level { level ≤ length tower.now }
    requires within { Within (level + 1) h.now }
    requires proper { length (numerator_at level h.now) < length (denominator_at level h.now) }
    requires normal { IsNormal elements (level_derivation (monomials tower.now) level) (polynomial (denominator_at level h.now)) }
    requires traces { sums.IfConstant traces (sums.AreResidueTraces tower.now level h.now) }
    ensures rule { Agrees result (spec.residues_by tower.now level h.now traces) }
    ensures constant { IfOk result (λ it. IfConstant it (AreLogarithmsOf tower.now level h.now)) }
    ensures logarithms { IfOk result (λ it. IfConstant it (λ logs _. AllLogParts (level + 1) logs)) }
    ensures not_constant { sums.IfNotConstant traces (λ power trace. AreNotConstant tower.now level h.now power trace × Within level trace) → IfOk result (λ it. IfNotConstant it (λ power trace. AreNotConstant tower.now level h.now power trace × Within level trace)) }
{
    match traces {
        Traces::NotConstant { power, trace } => Ok(Residues::NotConstant { power, trace }),
        Traces::Constant(traces) => {
            let traces = traces.as_slice();
            setting(tower, level, h);
            all_normal(traces);
            let logs = logarithms(alloc, tower, level, h, traces)?;
            let trace = first_trace(traces);
            Ok(Residues::Constant { logs, trace })
        }
    }
}

/// The power sums as a result.
#[tactic(auto, using(crate::proofs::CallSteps::results))]
fn traces_of<U: Units>(
    alloc: Global,
    tower: &Tower,
    level: u8,
    h: &Elem,
    units: &mut U,
) -> Result<Traces, Ended>
    requires level { level ≤ length tower.now }
    requires within { Within (level + 1) h.now }
    requires some { IsFalse (element.is_zero h.now) }
    requires proper { length (numerator_at level h.now) < length (denominator_at level h.now) }
    requires normal { IsNormal elements (level_derivation (monomials tower.now) level) (polynomial (denominator_at level h.now)) }
    ensures rule { IsCountedResult result (residue_traces tower.now level h.now) (U.units units.old) (U.units units.new) (U.most units.old) }
    ensures constant { IfOk result (λ it. sums.IfConstant it (sums.AreResidueTraces tower.now level h.now)) }
    ensures not_constant { IfOk result (λ it. sums.IfNotConstant it (λ power trace. AreNotConstant tower.now level h.now power trace × Within level trace)) }
    ensures not_sound { IfErrNotSound result (λ e. constants.IsNewConstant (monomials tower.now) level (meaning e)) }
    ensures leaves { LeavesOf result (U.leaves units.old) (U.leaves units.new) }
    ensures same_most { U.most units.new ≡ U.most units.old }
    ensures same_kept { U.kept units.new ≡ U.kept units.old }
{
    let run = residue_traces(alloc, tower, level, h, units);
    result_of(run)
}

/// The residues as a result.
#[tactic(auto, using(risch_run::proofs::CountedSteps::steps, risch_run::proofs::RuledSteps::stop_is_sound), unfolding(crate::specs::Residues::residues))]
fn residues_of<U: Units>(
    alloc: Global,
    tower: &Tower,
    level: u8,
    h: &Elem,
    units: &mut U,
) -> Result<Residues, Ended>
    requires level { level ≤ length tower.now }
    requires within { Within (level + 1) h.now }
    requires some { IsFalse (element.is_zero h.now) }
    requires proper { length (numerator_at level h.now) < length (denominator_at level h.now) }
    requires normal { IsNormal elements (level_derivation (monomials tower.now) level) (polynomial (denominator_at level h.now)) }
    ensures rule { IsCountedResult result (spec.residues tower.now level h.now) (U.units units.old) (U.units units.new) (U.most units.old) }
    ensures constant { IfOk result (λ it. IfConstant it (AreLogarithmsOf tower.now level h.now)) }
    ensures logarithms { IfOk result (λ it. IfConstant it (λ logs _. AllLogParts (level + 1) logs)) }
    ensures not_constant { IfOk result (λ it. IfNotConstant it (λ power trace. AreNotConstant tower.now level h.now power trace × Within level trace)) }
    ensures not_sound { IfErrNotSound result (λ e. constants.IsNewConstant (monomials tower.now) level (meaning e)) }
    ensures leaves { LeavesOf result (U.leaves units.old) (U.leaves units.new) }
    ensures same_most { U.most units.new ≡ U.most units.old }
    ensures same_kept { U.kept units.new ≡ U.kept units.old }
{
    let traces = traces_of(alloc, tower, level, h, units)?;
    Ok(residues_by(alloc, tower, level, h, traces)?)
}

/// The residues of an element h = a/d of a level with the variable t, where deg a < deg d, a is not 0, and d and Dd are coprime (Bronstein, sections 2.5 and 5.6).
///
/// At x and at a logarithm the derivatives of the logarithms add up to h, at an exponential to h + η·p for the sum p of the residues. Each power of the residues costs one unit, up to the degree of d.
///
/// Stops: that of the first value that cannot be formed; `NotSound(p)` for a trace p that is no fraction and has Dp = 0; Budget exactly where the count of units stands at its most and a further power is due.
#[tactic(auto, using(risch_run::proofs::RuledSteps::answers, risch_run::proofs::CountedSteps::answers))]
pub fn residues<U: Units>(
    alloc: Global,
    tower: &Tower,
    level: u8,
    h: &Elem,
    units: &mut U,
) -> Run<Residues>
    requires level { level ≤ length tower.now }
    requires within { Within (level + 1) h.now }
    requires some { IsFalse (element.is_zero h.now) }
    requires proper { length (numerator_at level h.now) < length (denominator_at level h.now) }
    requires normal { IsNormal elements (level_derivation (monomials tower.now) level) (polynomial (denominator_at level h.now)) }
    ensures rule { IsCountedRun result (spec.residues tower.now level h.now) (U.units units.old) (U.units units.new) (U.most units.old) }
    ensures constant { IfDone result (λ it. IfConstant it (AreLogarithmsOf tower.now level h.now)) }
    ensures logarithms { IfDone result (λ it. IfConstant it (λ logs _. AllLogParts (level + 1) logs)) }
    ensures not_constant { IfDone result (λ it. IfNotConstant it (λ power trace. AreNotConstant tower.now level h.now power trace × Within level trace)) }
    ensures not_sound { IfNotSound result (λ e. constants.IsNewConstant (monomials tower.now) level (meaning e)) }
    ensures left { OnLeft result (Rose (U.leaves units.old) (U.leaves units.new)) }
    ensures not_left { OnReturn result (U.leaves units.new ≡ U.leaves units.old) }
    ensures same_most { U.most units.new ≡ U.most units.old }
    ensures same_kept { U.kept units.new ≡ U.kept units.old }
{
    answer(residues_of(alloc, tower, level, h, units))
}
