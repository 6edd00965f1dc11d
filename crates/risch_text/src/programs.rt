//! What is read of a file: the steps of its expressions.

use risch_elem::{Items, NumberList};
use risch_expression::Program;
use risch_frac::Frac;

/// A tower line: t = log(a) or t = exp(a), the steps of a, and how many bytes were left at its first token.
#[derive(Drop)]
pub(crate) struct TowerProgram {
    pub exponential: bool,
    pub argument: Program,
    pub left: u32,
}

/// Tower lines, and the steps of an integrand.
#[derive(Drop)]
pub(crate) struct ProblemProgram {
    pub tower: Items<TowerProgram>,
    pub integrand: Program,
}

/// A number that divides, and how many bytes are left at the `/` before it.
#[derive(Clone, Copy)]
pub(crate) struct Divisor {
    pub number: Frac,
    pub left: u32,
}

/// A number, or the quotient of two.
#[derive(Clone, Copy)]
pub(crate) struct Factor {
    pub top: Frac,
    pub bottom: Option<Divisor>,
}

/// A logarithm of an answer.
#[derive(Drop)]
pub(crate) enum LogProgram {
    /// `log C of U`: the factor C, and the steps of U.
    Log(Factor, Program),
    /// `sum R of S`: the steps of R and of S, and how many bytes were left at the first byte of the line.
    Sum(Program, Program, u32),
}

/// Logarithms, and the numbers of the lines of an answer so far.
#[derive(Drop)]
pub(crate) struct LogPrograms {
    pub logs: Items<LogProgram>,
    pub lines: NumberList,
}

/// The steps of a part, and the logarithms behind it, with the numbers of the lines of an answer so far.
#[derive(Drop)]
pub(crate) struct PartialProgram {
    pub part: Program,
    pub so_far: LogPrograms,
}

/// An end of a refutation in residues: the number of a variable, a power, and the steps of a trace.
#[derive(Drop)]
pub(crate) struct EndProgram {
    pub level: u8,
    pub power: u16,
    pub trace: Program,
}

/// The steps of a rest, and an end.
#[derive(Drop)]
pub(crate) struct RefutationProgram {
    pub rest: Program,
    pub end: EndProgram,
}

/// The steps of a part, logarithms, a refutation where the answer is one, and the numbers of the lines.
#[derive(Drop)]
pub(crate) struct AnswerProgram {
    pub part: Program,
    pub logs: Items<LogProgram>,
    pub refutation: Option<RefutationProgram>,
    pub lines: NumberList,
}

/// A problem and its answer.
#[derive(Drop)]
pub(crate) struct CertifiedProgram {
    pub problem: ProblemProgram,
    pub answer: AnswerProgram,
}
