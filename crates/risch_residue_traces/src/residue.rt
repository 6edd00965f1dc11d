//! The residues of a/d as the values of one polynomial.

ghost use Rattle.std.specs.Prelude.{◌≡◌, ◌≤◌, length, IfOk};
ghost use Rattle.risch_univariate.specs.SplittingFactorization.{IsNormal};
ghost use Rattle.risch_mean.specs.ElementField.{elements};
ghost use Rattle.risch_field.specs.Checked.{Agrees};
ghost use Rattle.risch_element_theory.specs.WholeTower.{polynomial, AllWithin};
ghost use Rattle.risch_tower.specs.TowerMeaning.{monomials};
ghost use Rattle.risch_monomial.specs.LevelDerivation.{level_derivation};
ghost use Rattle.risch_residue_traces.specs.ResidueTraces as spec;
ghost use Rattle.risch_residue_traces.specs.TracesMeaning.{IsResidueOf};

use risch_division::inverse_mod;
use risch_elem::{Elem, Fail, Poly};
use risch_monomial::level_of;
use risch_tower::Tower;
use risch_trace::remainder;
use std::alloc::Global;

/// The polynomials by the arithmetic that is whole over every field.
pub(crate) type Inner = risch_polynomial::Poly<Elem>;

/// ρ = (a·inv(Dd rem d, d)) rem d, whose value at each root of d is the residue a/Dd of a/d there.
///
/// Stops: that of the first value that cannot be formed.
#[tactic(auto, using(risch_field::proofs::CheckedSteps::stop_passes, risch_field::proofs::CheckedSteps::value_passes), unfolding(crate::specs::ResidueTraces::residue))]
pub(crate) fn residue(
    alloc: Global,
    tower: &Tower,
    level: u8,
    numerator: &Poly,
    denominator: &Poly,
) -> Result<Inner, Fail>
    requires level { level ≤ length tower.now }
    requires degree { 2 ≤ length denominator.now }
    requires normal { IsNormal elements (level_derivation (monomials tower.now) level) (polynomial denominator.now) }
    requires numerator_within { AllWithin level numerator.now }
    requires denominator_within { AllWithin level denominator.now }
    ensures rule { Agrees result (spec.residue tower.now level numerator.now denominator.now) }
    ensures meaning { IfOk result (IsResidueOf tower.now level numerator.now denominator.now) }
    ensures within { IfOk result (λ it. AllWithin level it) }
{
    level_of(tower, level);
    let modulus = denominator.inner();
    let derivative = tower.derive_poly(alloc, level, denominator)?;
    let reduced = remainder(alloc, derivative.inner(), modulus)?;
    let inverse = inverse_mod(alloc, &reduced, modulus)?;
    match inverse {
        Some(inverse) => {
            let product = numerator.inner().mul(alloc, &inverse)?;
            remainder(alloc, &product, modulus)
        }
        None => Ok(Inner::zero(alloc)),
    }
}
