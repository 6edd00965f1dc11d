//! Polynomials in the variable of a level as elements of the level.

ghost use Rattle.std.specs.Prelude.{◌≡◌, ◌<◌, ◌+◌, length, IfOk, IsFalse};
ghost use Rattle.risch_field.specs.Checked.{Agrees};
ghost use Rattle.risch_mean.specs.Element.{◌*ₑ◌};
ghost use Rattle.risch_level.specs.Levels.{element};
ghost use Rattle.risch_element_theory.specs.WholeTower.{meaning, polynomial, Within, AllWithin};
ghost use Rattle.risch_monomial.specs.LevelElements.{at};
ghost use Rattle.risch_monomial.specs.LevelElements as spec;

use risch_elem::{Elem, Fail, Poly};
use risch_field::Arith;
use std::alloc::{AllocError, Global};

/// The polynomial 1.
///
/// `Err` for want of memory alone.
pub fn one(alloc: Global) -> Result<Poly, AllocError>
    ensures { IfOk result (λ it. it ≡ spec.one) }
{
    let inner = risch_polynomial::Poly::one(alloc)?;
    Ok(Poly::kept(inner))
}

/// p(t) as an element of the level with the variable t, for a polynomial p over the elements below it.
///
/// Stops: that of the normal form.
pub fn of_polynomial(alloc: Global, level: u8, poly: &Poly) -> Result<Elem, Fail>
    requires level { level < 5 }
    requires within { AllWithin level poly.now }
    ensures rule { Agrees result (spec.of_polynomial level poly.now) }
    ensures meaning { IfOk result (λ it. meaning it ≡ at level (polynomial poly.now)) }
    ensures some { 0 < length poly.now → IfOk result (λ it. IsFalse (element.is_zero it)) }
    ensures within { IfOk result (λ it. Within (level + 1) it) }
{
    let _inner = poly.inner();
    let one = one(alloc)?;
    Elem::quotient(alloc, level, poly, &one)
}

/// p(t)/q(t) as the quotient of the two elements, for polynomials p and q over the elements below the level, q ≠ 0.
///
/// Stops: that of the first value that cannot be formed, p(t), q(t) and the quotient in this order.
#[tactic(auto, using(risch_field::proofs::CheckedSteps::stop_passes, risch_field::proofs::CheckedSteps::value_passes), unfolding(crate::specs::LevelElements::ratio))]
pub fn ratio(alloc: Global, level: u8, top: &Poly, bottom: &Poly) -> Result<Elem, Fail>
    requires level { level < 5 }
    requires some { 0 < length bottom.now }
    requires top_within { AllWithin level top.now }
    requires bottom_within { AllWithin level bottom.now }
    ensures rule { Agrees result (spec.ratio level top.now bottom.now) }
    ensures meaning { IfOk result (λ it. meaning it *ₑ at level (polynomial bottom.now) ≡ at level (polynomial top.now)) }
    ensures within { IfOk result (λ it. Within (level + 1) it) }
{
    let top = of_polynomial(alloc, level, top)?;
    let bottom = of_polynomial(alloc, level, bottom)?;
    top.div(alloc, &bottom)
}
