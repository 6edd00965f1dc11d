//! Square-free parts of a monic polynomial over the elements (Bronstein, Symbolic Integration I, section 1.7).

ghost use Rattle.std.specs.Prelude.{ℕ, [], All, IfOk};
ghost use Rattle.risch_univariate.specs.Degree.{IsMonic};
ghost use Rattle.risch_mean.specs.ElementField.{elements};
ghost use Rattle.risch_field.specs.Checked.{Agrees};
ghost use Rattle.risch_element_theory.specs.WholeTower.{polynomial, AllWithin};
ghost use Rattle.risch_sub.specs.SquareFree as spec;
ghost use Rattle.risch_sub.specs.SquareFreeMeaning.{AreSquareFreeParts};

use crate::polynomials::{Inner, wrapped};
use risch_division::{gcd, quo};
use risch_elem::{Fail, Items, Poly, PolyList};
use std::alloc::Global;

/// The parts that follow from w and c on, as many as `steps` at most.
fn parts_from(alloc: Global, steps: usize, w: Inner, c: Inner) -> Result<Items<Inner>, Fail>
    ensures { Agrees result (spec.parts_from steps [] w c) }
{
    let mut parts = Items::new(alloc);
    let mut w = w;
    let mut c = c;
    for _step in 0..steps {
        if w.is_one() {
            return Ok(parts);
        }
        let y = gcd(alloc, &w, &c)?;
        let part = quo(alloc, &w, &y)?;
        parts.push(part)?;
        c = quo(alloc, &c, &y)?;
        w = y;
    }
    Ok(parts)
}

/// The parts of p.
///
/// Stops: those of ∂p, of the common divisors and of the divisions by them.
#[tactic(auto, using(risch_field::proofs::CheckedSteps::stop_passes, risch_field::proofs::CheckedSteps::value_passes), unfolding(crate::specs::SquareFree::square_free_parts))]
pub fn square_free_parts(alloc: Global, of: &Inner) -> Result<Items<Inner>, Fail>
    ensures { Agrees result (spec.square_free_parts of.now) }
{
    let derivative = of.partial(alloc)?;
    let c = gcd(alloc, of, &derivative)?;
    let w = quo(alloc, of, &c)?;
    parts_from(alloc, of.coefficients().len(), w, c)
}

/// The square-free parts p_1, p_2, .. of a monic polynomial p over the elements: p = p_1·p_2²·p_3³·.., where each p_i is monic and square-free and they are pairwise coprime.
///
/// The list ends with the last part that is not 1; it is empty for p = 1. Stops: those of ∂p, of the common divisors and of the divisions by them.
pub fn square_free(alloc: Global, poly: &Poly) -> Result<PolyList, Fail>
    requires { IsMonic elements (polynomial poly.now) }
    ensures rule { Agrees result (spec.square_free_parts poly.now) }
    ensures meaning { IfOk result (λ it. AreSquareFreeParts poly.now it) }
    ensures within { (n : ℕ) → AllWithin n poly.now → IfOk result (λ it. All (AllWithin n) it) }
{
    let parts = square_free_parts(alloc, poly.inner())?;
    wrapped(alloc, parts)
}
