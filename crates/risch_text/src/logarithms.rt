//! The values of logarithms.

ghost use Rattle.std.specs.Prelude.{◌≡◌, ◌≤◌, ℕ, true, false, List, [], ◌∷◌, map, length, All, IfOk};
ghost use Rattle.risch_frac.specs.Fraction as fraction;
ghost use Rattle.risch_field.specs.Ground.{ground};
ghost use Rattle.risch_polynomial.specs.Poly as poly;
ghost use Rattle.risch_level.specs.Levels.{element};
ghost use Rattle.risch_element_theory.specs.WholeTower.{IsPolynomial, Within, AllWithin};
ghost use Rattle.risch_expression.specs.Tree.{Tree};
ghost use Rattle.risch_expression.specs.Program.{steps};
ghost use Rattle.risch_expression.specs.Evaluation as evaluation;
ghost use Rattle.risch_text.specs.Certified.{LogLine};
ghost use Rattle.risch_text.specs.Problem.{IsLogForm};
ghost use Rattle.risch_text.specs.Values as spec;
ghost use Rattle.risch_text.specs.Programs.{log_program, IsProgramOver, IsLogProgramOver};
ghost use Rattle.risch_text.specs.Reading.{Reads};

use crate::fault::{Fault, Refusal};
use crate::programs::{Factor, LogProgram};
use crate::values::element_at;
use risch_elem::{Elem, ElemList, FracList, Items, Poly};
use risch_expression::{Step, evaluate};
use risch_field::Arith;
use risch_frac::Frac;
use risch_rootsum::{LogList, LogPart};
use std::alloc::{AllocError, Global};

/// The factor C.
#[tactic(auto, using(crate::proofs::Endings::number_fault), unfolding(crate::specs::Values::factor_value))]
fn factor_value(factor: Factor) -> Result<Frac, Fault>
    ensures { Reads result (spec.factor_value factor) }
{
    match factor.bottom {
        None => Ok(factor.top),
        Some(divisor) if divisor.number.is_zero() => Err(Fault::Refused {
            left: divisor.left,
            cause: Refusal::ZeroDivision,
        }),
        Some(divisor) => factor.top.div(divisor.number).map_err(Fault::overflow),
    }
}

/// The polynomial in z that an expression stands for, in a line that begins there.
fn polynomial_at(alloc: Global, start: u32, program: &[Step]) -> Result<Poly, Fault>
    ensures value { (tree : Tree) → program.now ≡ steps tree → Reads result (spec.polynomial_at start tree) }
    ensures within { (n : ℕ) → IsProgramOver n true program.now → IfOk result (λ it. AllWithin n it) }
{
    match evaluate(alloc, program) {
        Ok(polynomial) => Ok(polynomial),
        Err(fault) => Err(Fault::of_value(start, fault)),
    }
}

/// The coefficients of a constant polynomial in z from exponent 0, none of 0.
#[tactic(auto, using(crate::proofs::RootSums::constant_kept, crate::proofs::RootSums::constant_weight))]
fn constant(alloc: Global, value: Elem) -> Result<ElemList, AllocError>
    ensures value { IfOk result (λ it. it ≡ evaluation.constant value) }
    ensures kept { IsPolynomial (evaluation.constant value) }
    ensures light { poly.weight element (evaluation.constant value) ≤ 65536 }
{
    let _nest = value.nest();
    let _weight = value.weight();
    let mut coefficients = ElemList::new(alloc);
    if value.is_zero() {
        return Ok(coefficients);
    }
    coefficients.push(value)?;
    Ok(coefficients)
}

/// The coefficients of z - C from exponent 0.
fn linear(alloc: Global, root: Frac) -> Result<FracList, AllocError>
    ensures { IfOk result (λ it. it ≡ fraction.negative root ∷ ground.one ∷ []) }
{
    let mut modulus = FracList::new(alloc);
    modulus.push(root.neg())?;
    modulus.push(Frac::one())?;
    Ok(modulus)
}

/// The coefficients of a polynomial from exponent 0.
fn coefficients(alloc: Global, polynomial: &Poly) -> Result<ElemList, AllocError>
    ensures value { IfOk result (λ it. it ≡ polynomial.now) }
    ensures kept { IsPolynomial polynomial.now }
    ensures light { poly.weight element polynomial.now ≤ 65536 }
{
    let _weight = polynomial.weight();
    let copy = polynomial.inner().copy(alloc)?;
    Ok(ElemList::from_vec(copy.into_coefficients()))
}

/// The fractions that the elements are, where each is one.
#[tactic(auto, using(crate::proofs::RootSums::numbers_more, crate::proofs::RootSums::numbers_none, crate::proofs::RootSums::numbers_done))]
fn as_numbers(alloc: Global, elements: &[Elem]) -> Result<Option<FracList>, AllocError>
    ensures { IfOk result (λ numbers. numbers ≡ spec.with_numbers [] elements.now) }
{
    let mut numbers = FracList::new(alloc);
    for element in elements {
        let Some(number) = element.as_num() else {
            return Ok(None);
        };
        numbers.push(number)?;
    }
    Ok(Some(numbers))
}

/// Whether R is monic of degree at least 2, and S has a smaller degree.
fn has_shape(modulus: &[Frac], argument: &[Elem]) -> bool
    ensures { result ≡ spec.has_shape modulus.now argument.now }
{
    match modulus.last() {
        Some(leading) => {
            modulus.len() >= 3 && leading.is_one() && argument.len() < modulus.len()
        }
        None => false,
    }
}

/// The sum over the roots of R of z·log S, if R and S have the right shape.
fn shaped(alloc: Global, start: u32, modulus: &Poly, argument: &Poly) -> Result<LogPart, Fault>
    ensures value { Reads result (spec.shaped start (spec.with_numbers [] modulus.now) argument.now) }
    ensures form { (n : ℕ) → AllWithin n argument.now → IfOk result (IsLogForm n) }
{
    let Some(poly) = as_numbers(alloc, modulus.inner().coefficients())? else {
        return Err(Fault::wrong_shape(start));
    };
    if !has_shape(poly.as_slice(), argument.inner().coefficients()) {
        return Err(Fault::wrong_shape(start));
    }
    let arg = coefficients(alloc, argument)?;
    Ok(LogPart { poly, arg })
}

/// The sum over the roots of R of z·log S, in a line that begins there.
#[tactic(auto, unfolding(crate::specs::Values::root_sum))]
fn root_sum(
    alloc: Global,
    start: u32,
    modulus: &[Step],
    argument: &[Step],
) -> Result<LogPart, Fault>
    ensures value { (r s : Tree) → modulus.now ≡ steps r → argument.now ≡ steps s → Reads result (spec.root_sum start r s) }
    ensures form { (n : ℕ) → IsProgramOver n true argument.now → IfOk result (IsLogForm n) }
{
    let modulus = polynomial_at(alloc, start, modulus)?;
    let argument = polynomial_at(alloc, start, argument)?;
    shaped(alloc, start, &modulus, &argument)
}

/// C·log U as the sum over the root C of z - C.
#[tactic(auto, using(crate::proofs::RootSums::constant_within), unfolding(crate::specs::Values::logarithm))]
fn logarithm(alloc: Global, factor: Factor, program: &[Step]) -> Result<LogPart, Fault>
    ensures value { (u : Tree) → program.now ≡ steps u → Reads result (spec.logarithm factor u) }
    ensures form { (n : ℕ) → IsProgramOver n false program.now → IfOk result (IsLogForm n) }
{
    let factor = factor_value(factor)?;
    let argument = element_at(alloc, 0, program)?;
    let arg = constant(alloc, argument)?;
    let poly = linear(alloc, factor)?;
    Ok(LogPart { poly, arg })
}

/// A logarithm.
fn log_of(alloc: Global, program: &LogProgram) -> Result<LogPart, Fault>
    ensures value { (l : LogLine) → program.now ≡ log_program l → Reads result (spec.log_value l) }
    ensures form { (n : ℕ) → IsLogProgramOver n program.now → IfOk result (IsLogForm n) }
{
    match program {
        LogProgram::Log(factor, argument) => logarithm(alloc, *factor, argument.as_slice()),
        LogProgram::Sum(modulus, argument, start) => {
            root_sum(alloc, *start, modulus.as_slice(), argument.as_slice())
        }
    }
}

/// The logarithms in order.
pub(crate) fn logs_of(alloc: Global, programs: &[LogProgram]) -> Result<LogList, Fault>
    ensures value { (lines : List LogLine) → programs.now ≡ map log_program lines → Reads result (spec.with_logs [] lines) }
    ensures form { (n : ℕ) → All (IsLogProgramOver n) programs.now → IfOk result (λ parts. All (IsLogForm n) parts) }
    ensures count { IfOk result (λ parts. length parts ≡ length programs.now) }
{
    let mut parts = Items::new(alloc);
    for program in programs {
        parts.push(log_of(alloc, program)?)?;
    }
    Ok(parts)
}
