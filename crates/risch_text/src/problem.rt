//! Problem files: a tower, and an integrand in it.

ghost use Rattle.std.specs.Prelude.{◌≡◌, ◌+◌, length};
ghost use Rattle.risch_element_theory.specs.WholeTower.{Within};

use crate::fault::{Fault, Refusal};
use risch_elem::{Elem, Stop};
use risch_expression::Cause;
use risch_tower::Tower;
use std::marker::Model;

/// A tower, and an integrand that lies in it.
#[derive(Drop)]
pub struct Problem {
    pub tower: Tower,
    pub integrand: Elem,
}

impl Model for Problem {
    ghost use Rattle.risch_text.specs.Problem.{ProblemValue, IsProblem};

    ghost Value = { ProblemValue };

    ghost view = { λ p. record { tower = p.tower; integrand = p.integrand } };

    ghost invariant = { λ p. IsProblem (record { tower = p.tower; integrand = p.integrand }) };
}

impl Problem {
    /// Only the variables of the tower occur in the integrand.
    pub fn is_kept(&self)
        ensures { Within (length self.now.tower + 1) self.now.integrand }
    {
        let _integrand = &self.integrand;
    }
}

/// The answer for a problem file. A place is an offset in bytes.
#[derive(Drop)]
pub enum ReadProblem {
    /// The problem.
    Problem(Problem),
    /// The first fault of syntax.
    Syntax { at: u32, cause: Cause },
    /// The first value that is refused.
    Refused { at: u32, cause: Refusal },
    /// A value that cannot be formed: an overflow or a size.
    Stopped(Stop),
    /// Want of memory.
    Memory,
}

impl ReadProblem {
    ghost use Rattle.std.specs.Prelude.{◌≡◌};
    ghost use Rattle.risch_text.specs.Read as spec;

    /// The answer for a file of so many bytes.
    pub(crate) fn of(size: u32, read: Result<Problem, Fault>) -> ReadProblem
        ensures { result ≡ spec.problem_answer size read }
    {
        match read {
            Ok(problem) => ReadProblem::Problem(problem),
            Err(Fault::Syntax(fault)) => ReadProblem::Syntax {
                at: size.saturating_sub(fault.left),
                cause: fault.cause,
            },
            Err(Fault::Refused { left, cause }) => ReadProblem::Refused {
                at: size.saturating_sub(left),
                cause,
            },
            Err(Fault::Stopped(stop)) => ReadProblem::Stopped(stop),
            Err(Fault::Memory) => ReadProblem::Memory,
        }
    }
}
