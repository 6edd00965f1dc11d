//! The derivative of an integral.

ghost use Rattle.std.specs.Prelude.{◌≡◌, ◌≤◌, ◌+◌, ◌++◌, All, map, length, IfOk, OnOk};
ghost use Rattle.risch_mean.specs.Element as mean;
ghost use Rattle.risch_mean.specs.Element.{◌*ₑ◌, ◌/ₑ◌};
ghost use Rattle.risch_mean.specs.Tower.{derive_in};
ghost use Rattle.risch_mean.specs.Answer.{HasDerivative, SumDerivative};
ghost use Rattle.risch_field.specs.Checked.{Agrees, AgreesWith};
ghost use Rattle.risch_polynomial_theory.specs.FractionMeaning.{fraction_meaning};
ghost use Rattle.risch_element_theory.specs.WholeTower.{meaning, Within, AllWithin};
ghost use Rattle.risch_tower.specs.Tower.{derivative};
ghost use Rattle.risch_tower.specs.TowerMeaning.{monomials};
ghost use Rattle.risch_rootsum.specs.Derivative as spec;
ghost use Rattle.risch_rootsum.specs.DerivativeMeaning.{sum_of, answer_of, IsLogPart, IsPartDerivative, IsDerivativeOf};

use crate::algebra::{modulus, polynomial};
use crate::integral::{Integral, LogPart};
use risch_division::inverse_mod;
use risch_elem::Elem;
use risch_field::Fail;
use risch_frac::Frac;
use risch_polynomial::Poly;
use risch_tower::Tower;
use risch_trace::elements::all_normal;
use risch_trace::{raised, remainder, trace};
use std::alloc::Global;

/// Appends D(s_0), D(s_1), ..
fn push_derivatives(
    alloc: Global,
    tower: &Tower,
    to: &mut Vec<Elem>,
    from: &[Elem],
) -> Result<(), Fail>
    requires { AllWithin (length tower.now + 1) from.now }
    ensures rule { AgreesWith result to.new.items (spec.derivatives_onto (derivative tower.now) to.old.items from.now) }
    ensures meaning { OnOk result (map meaning to.new.items ≡ map meaning to.old.items ++ map (derive_in (monomials tower.now)) (map meaning from.now)) }
{
    for item in from {
        to.push(tower.derive(alloc, item)?)?;
    }
    Ok(())
}

/// DS, where D acts on the coefficients.
#[tactic(auto, using(risch_field::proofs::CheckedSteps::stop_passes, risch_field::proofs::CheckedSteps::value_passes), unfolding(crate::specs::Derivative::coefficient_derivatives))]
fn coefficient_derivatives(alloc: Global, tower: &Tower, of: &[Elem]) -> Result<Poly<Elem>, Fail>
    requires { AllWithin (length tower.now + 1) of.now }
    ensures rule { Agrees result (spec.coefficient_derivatives (derivative tower.now) of.now) }
    ensures meaning { IfOk result (λ it. IsDerivativeOf (monomials tower.now) of.now it) }
{
    let mut derivatives = Vec::new(alloc);
    push_derivatives(alloc, tower, &mut derivatives, of)?;
    all_normal(&derivatives);
    Poly::from_coefficients(derivatives)
}

/// The trace of z·p·q modulo d.
#[tactic(auto, using(risch_field::proofs::CheckedSteps::stop_passes, risch_field::proofs::CheckedSteps::value_passes), unfolding(crate::specs::Derivative::trace_of_product))]
fn trace_of_product(
    alloc: Global,
    modulus: &Poly<Elem>,
    left: &Poly<Elem>,
    right: &Poly<Elem>,
) -> Result<Elem, Fail>
    ensures { Agrees result (spec.trace_of_product modulus.now left.now right.now) }
{
    let product = left.mul(alloc, right)?;
    let shifted = raised(alloc, 1, &product)?;
    let rest = remainder(alloc, &shifted, modulus)?;
    trace(alloc, modulus, &rest)
}

/// C·(DU/U), the derivative of C·log U.
#[tactic(auto, using(risch_field::proofs::CheckedSteps::stop_passes, risch_field::proofs::CheckedSteps::value_passes, crate::proofs::LogDerivatives::nonzero_test), unfolding(crate::specs::Derivative::log_derivative))]
fn log_derivative(alloc: Global, tower: &Tower, factor: Frac, argument: &Elem) -> Result<Elem, Fail>
    requires within { Within (length tower.now + 1) argument.now }
    requires some { ¬ (meaning argument.now ≡ mean.zero) }
    ensures rule { Agrees result (spec.log_derivative (derivative tower.now) factor argument.now) }
    ensures meaning { IfOk result (λ it. meaning it ≡ fraction_meaning factor *ₑ (derive_in (monomials tower.now) (meaning argument.now) /ₑ meaning argument.now)) }
{
    let _nest = argument.nest();
    let derivative = tower.derive(alloc, argument)?;
    let ratio = derivative.div(alloc, argument)?;
    Elem::num(factor).mul(alloc, &ratio)
}

/// The trace of z·DS·T modulo R for the inverse T of S, the derivative of the sum over the roots z of R of z·log S(z).
#[tactic(auto, using(risch_field::proofs::CheckedSteps::stop_passes, risch_field::proofs::CheckedSteps::value_passes), unfolding(crate::specs::Derivative::sum_derivative))]
fn sum_derivative(alloc: Global, tower: &Tower, part: &LogPart) -> Result<Elem, Fail>
    requires part { IsLogPart (length tower.now + 1) part.now }
    requires derivative { (f : mean.Element) × SumDerivative (monomials tower.now) (sum_of part.now) f }
    ensures rule { Agrees result (spec.sum_derivative (derivative tower.now) part.now.poly part.now.arg) }
    ensures meaning { IfOk result (λ it. SumDerivative (monomials tower.now) (sum_of part.now) (meaning it)) }
{
    let coefficients = part.arg.as_slice();
    all_normal(coefficients);
    let derivative = coefficient_derivatives(alloc, tower, coefficients)?;
    let modulus = modulus(alloc, &part.poly)?;
    let argument = polynomial(alloc, coefficients)?;
    match inverse_mod(alloc, &argument, &modulus)? {
        Some(inverse) => trace_of_product(alloc, &modulus, &derivative, &inverse),
        None => unreachable!(),
    }
}

/// The derivative of C·log U, or of the sum over the roots z of R of z·log S(z).
fn part_derivative(alloc: Global, tower: &Tower, part: &LogPart) -> Result<Elem, Fail>
    requires part { IsLogPart (length tower.now + 1) part.now }
    requires derivative { (f : mean.Element) × IsPartDerivative (monomials tower.now) part.now f }
    ensures rule { Agrees result (spec.part_derivative (derivative tower.now) part.now) }
    ensures meaning { IfOk result (λ it. IsPartDerivative (monomials tower.now) part.now (meaning it)) }
{
    if part.poly.len() == 2 {
        let factor = part.poly.as_slice()[0].neg();
        return log_derivative(alloc, tower, factor, &part.arg.as_slice()[0]);
    }
    sum_derivative(alloc, tower, part)
}

/// The derivative of an integral that has one: that of its part, to which those of its logarithms are added in order.
///
/// Stops: that of the first value that cannot be formed.
#[tactic(auto, unfolding(crate::specs::Derivative::derive_integral))]
pub fn derive_integral(alloc: Global, tower: &Tower, integral: &Integral) -> Result<Elem, Fail>
    requires part { Within (length tower.now + 1) integral.now.part }
    requires logs { All (IsLogPart (length tower.now + 1)) integral.now.logs }
    requires derivative { (f : mean.Element) × HasDerivative (monomials tower.now) (answer_of integral.now) f }
    ensures rule { Agrees result (spec.derive_integral (derivative tower.now) integral.now) }
    ensures meaning { IfOk result (λ it. HasDerivative (monomials tower.now) (answer_of integral.now) (meaning it)) }
    ensures within { IfOk result (λ it. Within (length tower.now + 1) it) }
{
    let mut total = tower.derive(alloc, &integral.part)?;
    for part in integral.logs.as_slice() {
        let derivative = part_derivative(alloc, tower, part)?;
        total = total.add(alloc, &derivative)?;
    }
    Ok(total)
}
