//! The value of an expression: a polynomial in z over the elements of the tower.

ghost use Rattle.std.specs.Prelude.{◌≡◌, ◌≤◌, ◌<◌, ◌+◌, ℕ, Bool, false, List, [], ◌∷◌, length, nat_le, Some, Ok, IfOk, MatchOption};
ghost use Rattle.risch_mean.specs.Written.{written_value};
ghost use Rattle.risch_field.specs.Checked.{Checked, Agrees, map_ok};
ghost use Rattle.risch_polynomial.specs.Poly as poly;
ghost use Rattle.risch_level.specs.Levels.{Element, element};
ghost use Rattle.risch_element_theory.specs.WholeTower.{meaning, Within, AllWithin};
ghost use Rattle.risch_expression.specs.Tree.{Tree, expression_of, IsOver};
ghost use Rattle.risch_expression.specs.Program.{steps};
ghost use Rattle.risch_expression.specs.Results.{map_value};
ghost use Rattle.risch_expression.specs.Evaluation as spec;
ghost use Rattle.risch_expression.specs.Evaluation.{valued, Answers, AnswersWith};

use crate::fault::ValueFault;
use crate::program::{Operation, Step};
use risch_elem::{Elem, ElemList, Poly};
use risch_field::{Arith, Fail};
use risch_frac::Frac;
use std::alloc::{AllocError, Global};
use std::marker::Model;

/// Values, the last put on top.
#[derive(Drop)]
struct Stack {
    below: Vec<Poly>,
}

impl Model for Stack {
    ghost use Rattle.std.specs.Prelude.{List, reverse};
    ghost use Rattle.risch_level.specs.Levels.{Element};

    ghost Value = { List (List Element) };

    ghost view = { λ s. reverse s.below.items };
}

impl Stack {
    fn new(alloc: Global) -> Stack
        ensures { result ≡ [] }
    {
        Stack {
            below: Vec::new(alloc),
        }
    }

    fn push(&mut self, value: Poly) -> Result<(), ValueFault>
        ensures { AnswersWith result self.new (Ok (value ∷ self.old)) }
    {
        self.below.push(value)?;
        Ok(())
    }

    fn pop(&mut self) -> Option<Poly>
        ensures { MatchOption result ((self.old ≡ []) × (self.new ≡ [])) (λ value. self.old ≡ value ∷ self.new) }
    {
        self.below.pop()
    }

    /// Takes the operands of a step, and puts its value on the top.
    fn apply(&mut self, alloc: Global, step: Step) -> Result<(), ValueFault>
        ensures { AnswersWith result self.new (spec.apply step self.old) }
    {
        match step {
            Step::Number(number) => self.put(number_value(alloc, number)),
            Step::Variable(variable) => self.put(variable_value(alloc, variable)),
            Step::Root => self.put(root_value(alloc)),
            Step::Negated => self.negate(alloc),
            Step::Joined(operation) => self.join(alloc, operation),
            Step::Raised(exponent) => self.raise(alloc, exponent),
        }
    }

    /// Puts a value on the top, if it was formed.
    fn put(&mut self, value: Result<Poly, ValueFault>) -> Result<(), ValueFault>
        ensures { AnswersWith result self.new (map_value (spec.put self.old) value) }
    {
        self.push(value?)
    }

    /// The negative of the value on the top in its place.
    fn negate(&mut self, alloc: Global) -> Result<(), ValueFault>
        ensures { AnswersWith result self.new (spec.apply Step.Negated self.old) }
    {
        match self.pop() {
            Some(value) => self.put(negative(alloc, &value)),
            None => Ok(()),
        }
    }

    /// The value of an operation on the two values on the top in their place.
    fn join(&mut self, alloc: Global, operation: Operation) -> Result<(), ValueFault>
        ensures { AnswersWith result self.new (spec.apply (Step.Joined operation) self.old) }
    {
        match self.pop() {
            Some(right) => self.join_with(alloc, operation, &right),
            None => Ok(()),
        }
    }

    /// The value of an operation on the value on the top and this right operand in the place of the value on the top.
    fn join_with(
        &mut self,
        alloc: Global,
        operation: Operation,
        right: &Poly,
    ) -> Result<(), ValueFault>
        ensures { AnswersWith result self.new (spec.apply (Step.Joined operation) (right.now ∷ self.old)) }
    {
        match self.pop() {
            Some(left) => self.put(operate(alloc, operation, &left, right)),
            None => Ok(()),
        }
    }

    /// A power of the value on the top in its place.
    fn raise(&mut self, alloc: Global, exponent: u16) -> Result<(), ValueFault>
        ensures { AnswersWith result self.new (spec.apply (Step.Raised exponent) self.old) }
    {
        match self.pop() {
            Some(base) => self.put(formed(power(alloc, &base, exponent))),
            None => Ok(()),
        }
    }

    /// Takes the value on the top; 0 where there is none.
    fn take_top(&mut self, alloc: Global) -> Result<Poly, ValueFault>
        ensures { Answers result (Ok (spec.top self.old)) }
    {
        match self.pop() {
            Some(value) => Ok(value),
            None => zero(alloc),
        }
    }
}

/// A value or the stop of the first that cannot be formed, which is a fault.
fn formed(value: Result<Poly, Fail>) -> Result<Poly, ValueFault>
    ensures { (rule : Checked (List Element)) → Agrees value rule → Answers result (valued rule) }
{
    match value {
        Ok(value) => Ok(value),
        Err(stop) => Err(ValueFault::from(stop)),
    }
}

/// 0 as a polynomial in z.
fn zero(alloc: Global) -> Result<Poly, ValueFault>
    ensures { Answers result (Ok []) }
{
    Ok(Poly::of(ElemList::new(alloc))?)
}

/// e as a polynomial in z.
#[tactic(auto, using(crate::proofs::Constants::constant_trimmed, crate::proofs::Constants::constant_short, crate::proofs::Constants::constant_light))]
fn constant(alloc: Global, element: Elem) -> Result<Poly, AllocError>
    ensures { IfOk result (λ it. it ≡ spec.constant element) }
{
    let _weight = element.weight();
    let mut coefficients = ElemList::new(alloc);
    coefficients.push(element)?;
    Poly::of(coefficients)
}

/// The coefficient at exponent 0.
fn constant_term(alloc: Global, value: &Poly) -> Result<Elem, AllocError>
    ensures { IfOk result (λ it. it ≡ spec.constant_term value.now) }
{
    match value.coefficient(0) {
        Some(coefficient) => coefficient.copy(alloc),
        None => Ok(Elem::zero()),
    }
}

/// A number as a polynomial in z.
#[tactic(auto, unfolding(crate::specs::Evaluation::number_value))]
fn number_value(alloc: Global, number: Frac) -> Result<Poly, ValueFault>
    ensures { Answers result (Ok (spec.number_value number)) }
{
    Ok(constant(alloc, Elem::num(number))?)
}

/// A variable as a polynomial in z; 0 for one that the tower has not.
#[tactic(auto, using(crate::proofs::Constants::variable_beyond), unfolding(crate::specs::Evaluation::variable_value))]
fn variable_value(alloc: Global, variable: u8) -> Result<Poly, ValueFault>
    ensures { Answers result (Ok (spec.variable_value variable)) }
{
    let element = if variable < 5 {
        Elem::variable(alloc, variable)?
    } else {
        Elem::zero()
    };
    Ok(constant(alloc, element)?)
}

/// The coefficients of z from exponent 0.
fn root_coefficients(alloc: Global) -> Result<ElemList, AllocError>
    ensures { IfOk result (λ list. list ≡ spec.root_value) }
{
    let mut coefficients = ElemList::new(alloc);
    coefficients.push(Elem::zero())?;
    coefficients.push(Elem::one())?;
    Ok(coefficients)
}

/// z.
#[tactic(auto, using(crate::proofs::Constants::root_trimmed, crate::proofs::Constants::root_short, crate::proofs::Constants::root_light))]
fn root_value(alloc: Global) -> Result<Poly, ValueFault>
    ensures { Answers result (Ok spec.root_value) }
{
    let coefficients = root_coefficients(alloc)?;
    Ok(Poly::of(coefficients)?)
}

/// -p.
fn negative(alloc: Global, value: &Poly) -> Result<Poly, ValueFault>
    ensures { Answers result (Ok (poly.negatives element value.now)) }
{
    Ok(value.neg(alloc)?)
}

/// p - q, as the sum of p and -q.
fn difference(alloc: Global, left: &Poly, right: &Poly) -> Result<Poly, Fail>
    ensures { Agrees result (poly.sum element left.now (poly.negatives element right.now)) }
{
    let opposite = right.neg(alloc)?;
    left.add(alloc, &opposite)
}

/// The value of an operation on two polynomials.
#[tactic(auto, unfolding(crate::specs::Evaluation::operate))]
fn operate(
    alloc: Global,
    operation: Operation,
    left: &Poly,
    right: &Poly,
) -> Result<Poly, ValueFault>
    ensures { Answers result (spec.operate operation left.now right.now) }
{
    match operation {
        Operation::Sum => formed(left.add(alloc, right)),
        Operation::Difference => formed(difference(alloc, left, right)),
        Operation::Product => formed(left.mul(alloc, right)),
        Operation::Quotient(place) => ratio(alloc, place, left, right),
    }
}

/// p/q, where q is an element other than 0.
#[tactic(auto, unfolding(crate::specs::Evaluation::ratio))]
fn ratio(alloc: Global, place: u32, value: &Poly, divisor: &Poly) -> Result<Poly, ValueFault>
    ensures { Answers result (spec.ratio place value.now divisor.now) }
{
    if !is_constant(divisor) {
        return Err(ValueFault::Shape);
    }
    match divisor.coefficient(0) {
        Some(coefficient) => formed(divided(alloc, value, coefficient)),
        None => Err(ValueFault::DivisionByZero(place)),
    }
}

/// Whether a polynomial has degree at most 0.
fn is_constant(value: &Poly) -> bool
    ensures { result ≡ nat_le (length value.now) 1 }
{
    match value.degree() {
        None => true,
        Some(degree) => degree == 0,
    }
}

/// p/c for an element c.
#[tactic(auto, unfolding(crate::specs::Evaluation::divided))]
fn divided(alloc: Global, value: &Poly, divisor: &Elem) -> Result<Poly, Fail>
    ensures { Agrees result (spec.divided value.now divisor.now) }
{
    if is_constant(value) {
        divided_element(alloc, &constant_term(alloc, value)?, divisor)
    } else {
        divided_polynomial(alloc, value, divisor)
    }
}

/// a/c as a polynomial in z.
fn divided_element(alloc: Global, value: &Elem, divisor: &Elem) -> Result<Poly, Fail>
    ensures { Agrees result (map_ok spec.constant (element.quotient value.now divisor.now)) }
{
    let quotient = Arith::div(value, alloc, divisor)?;
    Ok(constant(alloc, quotient)?)
}

/// p scaled by 1/c.
#[tactic(auto, using(risch_field::proofs::CheckedSteps::stop_passes, risch_field::proofs::CheckedSteps::value_passes))]
fn divided_polynomial(alloc: Global, value: &Poly, divisor: &Elem) -> Result<Poly, Fail>
    ensures { Agrees result (spec.by_inverse value.now divisor.now) }
{
    let inverse = Arith::div(&Elem::one(), alloc, divisor)?;
    value.scale(alloc, &inverse)
}

/// 1 as a polynomial in z.
fn one(alloc: Global) -> Result<Poly, Fail>
    ensures { Agrees result (Ok (spec.constant element.one)) }
{
    Ok(constant(alloc, Elem::one())?)
}

/// What is formed, multiplied by p on the right so many times.
#[tactic(auto, using(crate::proofs::Powers::multiplied_stops))]
fn multiplied(alloc: Global, start: Poly, base: &Poly, times: u16) -> Result<Poly, Fail>
    ensures { Agrees result (spec.multiplied start base.now times) }
{
    let mut value = start;
    for _ in 0..times {
        value = value.mul(alloc, base)?;
    }
    Ok(value)
}

/// p^n for n above 0.
#[tactic(auto, using(crate::proofs::Powers::power_multiplied))]
fn repeated(alloc: Global, base: &Poly, exponent: u16) -> Result<Poly, Fail>
    requires { 0 < exponent }
    ensures { Agrees result (spec.power_of base.now exponent) }
{
    let start = base.copy(alloc)?;
    multiplied(alloc, start, base, exponent - 1)
}

/// p^n, by n - 1 products with p on the right.
#[tactic(auto, unfolding(crate::specs::Evaluation::power_of))]
fn power(alloc: Global, base: &Poly, exponent: u16) -> Result<Poly, Fail>
    ensures { Agrees result (spec.power_of base.now exponent) }
{
    if exponent == 0 {
        return one(alloc);
    }
    repeated(alloc, base, exponent)
}

/// The stack that the steps leave.
#[tactic(auto, using(crate::proofs::Runs::run_stops, crate::proofs::Runs::run_done))]
fn run(alloc: Global, program: &[Step]) -> Result<Stack, ValueFault>
    ensures { Answers result (spec.run program.now []) }
{
    let mut stack = Stack::new(alloc);
    for step in program {
        stack.apply(alloc, *step)?;
    }
    Ok(stack)
}

/// The value that the steps leave on the top of the stack.
#[tactic(auto, using(crate::proofs::Runs::top_stops, crate::proofs::Runs::top_left))]
fn value_of(alloc: Global, program: &[Step]) -> Result<Poly, ValueFault>
    ensures { Answers result (spec.result_of program.now) }
{
    let mut stack = run(alloc, program)?;
    stack.take_top(alloc)
}

/// The constant term of a value that is formed.
fn element_of_value(alloc: Global, value: &Poly) -> Result<Elem, ValueFault>
    ensures { Answers result (Ok (spec.constant_term value.now)) }
{
    Ok(constant_term(alloc, value)?)
}

/// The constant term of the value that the steps leave on the top of the stack.
#[tactic(auto, using(crate::proofs::Runs::fault_stays))]
fn element_of(alloc: Global, program: &[Step]) -> Result<Elem, ValueFault>
    ensures { Answers result (map_value spec.constant_term (spec.result_of program.now)) }
{
    let value = value_of(alloc, program)?;
    element_of_value(alloc, &value)
}

/// The value of an expression, given by its steps: a polynomial in z over the elements of the tower.
///
/// Faults, operands from the left before their operation: `DivisionByZero` with the place of the division, `Shape` where z occurs in a divisor's value, `Overflow` and `Size` of the first value that cannot be formed.
#[tactic(auto, using(crate::proofs::EvaluationMeaning::answer_steps, crate::proofs::EvaluationMeaning::answer_within))]
pub fn evaluate(alloc: Global, program: &[Step]) -> Result<Poly, ValueFault>
    ensures rule { (tree : Tree) → program.now ≡ steps tree → Answers result (spec.evaluate tree) }
    ensures within { (tree : Tree) (n : ℕ) (with_z : Bool) → program.now ≡ steps tree → IsOver n with_z tree → IfOk result (λ it. AllWithin n it) }
{
    value_of(alloc, program)
}

/// The element that is the value of an expression, given by its steps; of a polynomial in z the coefficient at exponent 0.
///
/// Faults: those of the value.
#[tactic(auto, using(crate::proofs::EvaluationMeaning::element_answer_steps, crate::proofs::EvaluationMeaning::element_answer_written, crate::proofs::EvaluationMeaning::element_answer_within))]
pub fn evaluate_element(alloc: Global, program: &[Step]) -> Result<Elem, ValueFault>
    ensures rule { (tree : Tree) → program.now ≡ steps tree → Answers result (spec.element_value tree) }
    ensures meaning { (tree : Tree) (n : ℕ) → program.now ≡ steps tree → n ≤ 5 → IsOver n false tree → IfOk result (λ it. written_value (expression_of tree) ≡ Some (meaning it)) }
    ensures within { (tree : Tree) (n : ℕ) → program.now ≡ steps tree → IsOver n false tree → IfOk result (λ it. Within n it) }
{
    element_of(alloc, program)
}
