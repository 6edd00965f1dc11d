//! The lines of certificates and answers.

ghost use Rattle.std.specs.Prelude.{◌≡◌, ◌++◌, codes, decimal, string_bytes, IfOk, OnOk};
ghost use Rattle.risch_cert.specs.Printing.{print_fraction, variable_name, print_element, print_in_z, print_fractions_in_z};
ghost use Rattle.risch_cert.specs.Answers as spec;
ghost use Rattle.risch_cert.specs.Answers.{line};

use crate::answer::{Answer, Certificate, Halt, Place};
use crate::chain::{Chain, End};
use crate::elements::{element_text, fractions_in_z, text_in_z};
use crate::terms::{print_fraction, variable_name};
use crate::texts::bytes_of;
use risch_elem::{Case, Elem, Stop};
use risch_field::Arith;
use risch_frac::{Frac, Op};
use risch_io::Text;
use risch_rootsum::{Integral, LogPart};
use std::alloc::{AllocError, Global};

/// The text of a certificate.
///
/// `Err` for want of memory alone.
#[tactic(auto, unfolding(crate::specs::Answers::print_certificate))]
pub fn print_certificate(alloc: Global, certificate: &Certificate) -> Result<Text, AllocError>
    ensures { IfOk result (λ text. text ≡ spec.print_certificate certificate.now) }
{
    match certificate {
        Certificate::Integral(integral) => print_integral(alloc, integral),
        Certificate::Refuted(chain) => print_chain(alloc, chain),
    }
}

/// The text of an answer.
///
/// `Err` for want of memory alone.
#[tactic(auto, unfolding(crate::specs::Answers::print_answer))]
pub fn print_answer(alloc: Global, answer: &Answer) -> Result<Text, AllocError>
    ensures { IfOk result (λ text. text ≡ spec.print_answer answer.now) }
{
    match answer {
        Answer::Integral(integral) => print_integral(alloc, integral),
        Answer::Refuted(chain) => print_chain(alloc, chain),
        Answer::Stopped(halt) => print_halt(alloc, halt),
        Answer::Disagree { left, right } => print_disagreement(alloc, left, right),
    }
}

/// Appends a label and a text behind it.
#[tactic(auto, using(crate::proofs::LineSteps::further))]
fn push_labelled(text: &mut String, label: &str, part: &str) -> Result<(), AllocError>
    ensures { OnOk result (string_bytes text.new ≡ string_bytes text.old ++ (label.now ++ part.now)) }
{
    text.push_str(label)?;
    text.push_str(part)
}

/// Appends a label and a text behind it, which end a line.
#[tactic(auto, using(crate::proofs::LineSteps::further))]
fn push_line(text: &mut String, label: &str, part: &str) -> Result<(), AllocError>
    ensures { OnOk result (string_bytes text.new ≡ string_bytes text.old ++ line (label.now ++ part.now)) }
{
    push_labelled(text, label, part)?;
    text.push_str("\n")
}

/// Appends a label and the text of an element, which end a line.
#[tactic(auto, using(crate::proofs::LineSteps::line_of))]
fn push_element_line(
    alloc: Global,
    text: &mut String,
    label: &str,
    element: &Elem,
) -> Result<(), AllocError>
    ensures { OnOk result (string_bytes text.new ≡ string_bytes text.old ++ line (label.now ++ print_element element.now)) }
{
    let printed = element_text(alloc, element)?;
    push_line(text, label, printed.as_str())
}

/// Appends the lines of the part of an integral that is an element, and of its logarithmic parts.
fn push_parts(alloc: Global, text: &mut String, integral: &Integral) -> Result<(), AllocError>
    ensures { OnOk result (string_bytes text.new ≡ string_bytes text.old ++ (line (codes "part " ++ print_element integral.now.part) ++ spec.print_log_parts integral.now.logs)) }
{
    push_element_line(alloc, text, "part ", &integral.part)?;
    push_log_parts(alloc, text, integral.logs.as_slice())
}

/// An integral: its part and its logarithmic parts.
fn print_integral(alloc: Global, integral: &Integral) -> Result<Text, AllocError>
    ensures { IfOk result (λ text. text ≡ spec.print_integral integral.now) }
{
    let mut text = String::from_str(alloc, "integral\n")?;
    push_parts(alloc, &mut text, integral)?;
    text.push_str("end\n")?;
    Ok(bytes_of(text))
}

/// A chain: its partial integral, its rest and its end.
fn print_chain(alloc: Global, chain: &Chain) -> Result<Text, AllocError>
    ensures { IfOk result (λ text. text ≡ spec.print_chain chain.now) }
{
    let mut text = String::from_str(alloc, "refuted\n")?;
    push_parts(alloc, &mut text, &chain.partial)?;
    push_conclusion(alloc, &mut text, chain)?;
    Ok(bytes_of(text))
}

/// Appends the lines of the rest and of the end of a chain.
#[tactic(auto, using(crate::proofs::LineSteps::further))]
fn push_conclusion(alloc: Global, text: &mut String, chain: &Chain) -> Result<(), AllocError>
    ensures { OnOk result (string_bytes text.new ≡ string_bytes text.old ++ (spec.print_rest chain.now.rest ++ spec.print_end chain.now.level chain.now.end)) }
{
    push_rest(alloc, text, &chain.rest)?;
    push_end(alloc, text, chain.level, &chain.end)
}

/// Appends the line of a rest.
#[tactic(auto, unfolding(crate::specs::Answers::print_rest))]
fn push_rest(alloc: Global, text: &mut String, rest: &Elem) -> Result<(), AllocError>
    ensures { OnOk result (string_bytes text.new ≡ string_bytes text.old ++ spec.print_rest rest.now) }
{
    push_element_line(alloc, text, "rest ", rest)
}

/// Appends the line of an end at a level.
fn push_end(alloc: Global, text: &mut String, level: u8, end: &End) -> Result<(), AllocError>
    ensures { OnOk result (string_bytes text.new ≡ string_bytes text.old ++ spec.print_end level end.now) }
{
    match end {
        End::Residue { power, trace } => push_residue(alloc, text, level, *power, trace),
    }
}

/// Appends which power of the residues at a level it is.
#[tactic(auto, using(crate::proofs::LineSteps::power_of))]
fn push_power_of(alloc: Global, text: &mut String, level: u8, power: u16) -> Result<(), AllocError>
    ensures { OnOk result (string_bytes text.new ≡ string_bytes text.old ++ (codes "end residue of " ++ (variable_name level ++ (codes " power " ++ decimal power)))) }
{
    let name = variable_name(alloc, level)?;
    write!(text, "end residue of {name} power {power}")
}

/// Appends the line of an end by the trace of a power of the residues.
#[tactic(auto, using(crate::proofs::LineSteps::residue_line), unfolding(crate::specs::Answers::print_residue))]
fn push_residue(
    alloc: Global,
    text: &mut String,
    level: u8,
    power: u16,
    trace: &Elem,
) -> Result<(), AllocError>
    ensures { OnOk result (string_bytes text.new ≡ string_bytes text.old ++ spec.print_residue level power trace.now) }
{
    push_power_of(alloc, text, level, power)?;
    push_element_line(alloc, text, " trace ", trace)
}

/// Appends a line for each logarithmic part.
fn push_log_parts(alloc: Global, text: &mut String, parts: &[LogPart]) -> Result<(), AllocError>
    ensures { OnOk result (string_bytes text.new ≡ string_bytes text.old ++ spec.print_log_parts parts.now) }
{
    for part in parts {
        push_log_part(alloc, text, part)?;
    }
    Ok(())
}

/// Appends the line of a logarithmic part: of a sum where R has degree 2 or more, else of one logarithm.
#[tactic(auto, unfolding(crate::specs::Answers::print_log_part))]
fn push_log_part(alloc: Global, text: &mut String, part: &LogPart) -> Result<(), AllocError>
    ensures { OnOk result (string_bytes text.new ≡ string_bytes text.old ++ spec.print_log_part part.now) }
{
    if part.poly.len() > 2 {
        push_root_sum(alloc, text, part)
    } else {
        push_logarithm(alloc, text, part)
    }
}

/// Appends what stands before the argument of the sum over the roots of a polynomial in z.
#[tactic(auto, using(crate::proofs::LineSteps::label_of))]
fn push_roots(alloc: Global, text: &mut String, roots: &[Frac]) -> Result<(), AllocError>
    ensures { OnOk result (string_bytes text.new ≡ string_bytes text.old ++ (codes "sum " ++ print_fractions_in_z roots.now)) }
{
    let roots = fractions_in_z(alloc, roots)?;
    push_labelled(text, "sum ", roots.as_str())
}

/// Appends the argument S of a sum over roots, which ends a line.
#[tactic(auto, using(crate::proofs::LineSteps::line_of))]
fn push_sum_argument(alloc: Global, text: &mut String, argument: &[Elem]) -> Result<(), AllocError>
    ensures { OnOk result (string_bytes text.new ≡ string_bytes text.old ++ line (codes " of " ++ print_in_z argument.now)) }
{
    let argument = text_in_z(alloc, argument)?;
    push_line(text, " of ", argument.as_str())
}

/// Appends the line of the sum over the roots z of R of z·log S.
fn push_root_sum(alloc: Global, text: &mut String, part: &LogPart) -> Result<(), AllocError>
    ensures { OnOk result (string_bytes text.new ≡ string_bytes text.old ++ spec.print_root_sum part.now) }
{
    push_roots(alloc, text, part.poly.as_slice())?;
    push_sum_argument(alloc, text, part.arg.as_slice())
}

/// Appends what stands before the argument of a logarithm.
#[tactic(auto, using(crate::proofs::LineSteps::label_of))]
fn push_factor(alloc: Global, text: &mut String, poly: &[Frac]) -> Result<(), AllocError>
    ensures { OnOk result (string_bytes text.new ≡ string_bytes text.old ++ (codes "log " ++ print_fraction (spec.factor poly.now))) }
{
    let factor = print_fraction(alloc, factor_of(poly))?;
    push_labelled(text, "log ", factor.as_str())
}

/// Appends the argument U of a logarithm, which ends a line.
#[tactic(auto, using(crate::proofs::LineSteps::line_of))]
fn push_argument(alloc: Global, text: &mut String, argument: &[Elem]) -> Result<(), AllocError>
    ensures { OnOk result (string_bytes text.new ≡ string_bytes text.old ++ line (codes " of " ++ spec.print_argument argument.now)) }
{
    let argument = print_argument(alloc, argument)?;
    push_line(text, " of ", argument.as_str())
}

/// Appends the line of C·log U.
fn push_logarithm(alloc: Global, text: &mut String, part: &LogPart) -> Result<(), AllocError>
    ensures { OnOk result (string_bytes text.new ≡ string_bytes text.old ++ spec.print_logarithm part.now) }
{
    push_factor(alloc, text, part.poly.as_slice())?;
    push_argument(alloc, text, part.arg.as_slice())
}

/// C = -R_0, for R = z - C.
fn factor_of(poly: &[Frac]) -> Frac
    ensures { result ≡ spec.factor poly.now }
{
    match poly.split_first() {
        Some((constant, _)) => (*constant).neg(),
        None => Frac::zero(),
    }
}

/// U, for S = U of degree 0 in z, or 0.
fn print_argument(alloc: Global, argument: &[Elem]) -> Result<String, AllocError>
    ensures { IfOk result (λ text. string_bytes text ≡ spec.print_argument argument.now) }
{
    match argument.split_first() {
        Some((constant, _)) => element_text(alloc, constant),
        None => String::from_str(alloc, "0"),
    }
}

/// Appends the step in which a run stops, which ends a line.
#[tactic(auto, using(crate::proofs::LineSteps::line_of))]
fn push_place(alloc: Global, text: &mut String, place: Place) -> Result<(), AllocError>
    ensures { OnOk result (string_bytes text.new ≡ string_bytes text.old ++ line (codes " in " ++ spec.print_place place)) }
{
    let place = print_place(alloc, place)?;
    push_line(text, " in ", place.as_str())
}

/// The line of a stop in a step.
#[tactic(auto, using(crate::proofs::LineSteps::halt_line), unfolding(crate::specs::Answers::print_halt))]
fn print_halt(alloc: Global, halt: &Halt) -> Result<Text, AllocError>
    ensures { IfOk result (λ text. text ≡ spec.print_halt halt.now) }
{
    let mut text = print_stop(alloc, &halt.stop)?;
    push_place(alloc, &mut text, halt.place)?;
    Ok(bytes_of(text))
}

/// A label and a text behind it.
fn labelled(alloc: Global, label: &str, part: &str) -> Result<String, AllocError>
    ensures { IfOk result (λ text. string_bytes text ≡ label.now ++ part.now) }
{
    let mut text = String::from_str(alloc, label)?;
    text.push_str(part)?;
    Ok(text)
}

/// A label and the text of an element behind it.
#[tactic(auto, using(crate::proofs::LineSteps::behind))]
fn labelled_element(alloc: Global, label: &str, element: &Elem) -> Result<String, AllocError>
    ensures { IfOk result (λ text. string_bytes text ≡ label.now ++ print_element element.now) }
{
    let printed = element_text(alloc, element)?;
    labelled(alloc, label, printed.as_str())
}

/// A label and the name of the variable of a level behind it.
#[tactic(auto, using(crate::proofs::LineSteps::behind))]
fn labelled_variable(alloc: Global, label: &str, level: u8) -> Result<String, AllocError>
    ensures { IfOk result (λ text. string_bytes text ≡ label.now ++ variable_name level) }
{
    let name = variable_name(alloc, level)?;
    labelled(alloc, label, name.as_str())
}

/// What stops a run.
#[tactic(auto, unfolding(crate::specs::Answers::print_stop))]
fn print_stop(alloc: Global, stop: &Stop) -> Result<String, AllocError>
    ensures { IfOk result (λ text. string_bytes text ≡ spec.print_stop stop.now) }
{
    match stop {
        Stop::Overflow(op) => labelled(alloc, "overflow ", print_operation(*op)),
        Stop::Size => String::from_str(alloc, "size"),
        Stop::Case(case) => labelled(alloc, "case ", print_case(*case)),
        Stop::NotSound(constant) => labelled_element(alloc, "not sound ", constant),
        Stop::Budget => String::from_str(alloc, "budget"),
    }
}

/// The operation that overflows.
fn print_operation(op: Op) -> &'static str
    ensures { result.now ≡ spec.print_operation op }
{
    match op {
        Op::Add => "add",
        Op::Mul => "mul",
        Op::Div => "div",
    }
}

/// The case that is not decided.
fn print_case(case: Case) -> &'static str
    ensures { result.now ≡ spec.print_case case }
{
    match case {
        Case::RootBound => "root bound",
        Case::Undetermined => "undetermined",
    }
}

/// A branch, by its number, of the round of a level.
fn print_branch(alloc: Global, level: u8, number: u32) -> Result<String, AllocError>
    ensures { IfOk result (λ text. string_bytes text ≡ codes "branch " ++ (decimal number ++ (codes " of " ++ variable_name level))) }
{
    let name = variable_name(alloc, level)?;
    format!(in alloc; "branch {number} of {name}")
}

/// The step in which a run stops.
#[tactic(auto, unfolding(crate::specs::Answers::print_place))]
fn print_place(alloc: Global, place: Place) -> Result<String, AllocError>
    ensures { IfOk result (λ text. string_bytes text ≡ spec.print_place place) }
{
    match place {
        Place::Reading => String::from_str(alloc, "reading"),
        Place::Preparing(level) => labelled_variable(alloc, "preparing ", level),
        Place::Branch(level, number) => print_branch(alloc, level, number),
        Place::Gathering(level) => labelled_variable(alloc, "gathering ", level),
        Place::Checking => String::from_str(alloc, "checking"),
        Place::Solving => String::from_str(alloc, "solving"),
    }
}

/// Two elements that should be the same and are not.
#[tactic(auto, using(crate::proofs::LineSteps::disagree_lines), unfolding(crate::specs::Answers::print_disagreement))]
fn print_disagreement(alloc: Global, left: &Elem, right: &Elem) -> Result<Text, AllocError>
    ensures { IfOk result (λ text. text ≡ spec.print_disagreement left.now right.now) }
{
    let mut text = String::from_str(alloc, "disagree\n")?;
    push_element_line(alloc, &mut text, "left ", left)?;
    push_element_line(alloc, &mut text, "right ", right)?;
    Ok(bytes_of(text))
}
