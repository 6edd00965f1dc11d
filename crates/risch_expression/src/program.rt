//! An expression as a list of steps, operands before their operation.

ghost use Rattle.std.specs.Prelude.{◌≡◌, [], ◌∷◌, ◌++◌, OnOk, OnErr};

use risch_frac::Frac;
use std::alloc::{AllocError, Global};
use std::marker::Model;

/// An operation on two values.
#[derive(Clone, Copy)]
pub enum Operation {
    Sum,
    Difference,
    Product,
    /// A quotient, where so many bytes are left at the sign `/`.
    Quotient(u32),
}

/// A step takes its operands from a stack of values, and puts its value there.
#[derive(Clone, Copy)]
pub enum Step {
    /// A number.
    Number(Frac),
    /// A variable: 0 is x, i is ti.
    Variable(u8),
    /// The name z.
    Root,
    /// The negative of a value.
    Negated,
    /// The value of an operation on two values.
    Joined(Operation),
    /// A power of a value.
    Raised(u16),
}

/// The steps of an expression.
#[derive(Drop)]
pub struct Program {
    list: Vec<Step>,
}

impl Model for Program {
    ghost use Rattle.std.specs.Prelude.{List};
    ghost use Rattle.risch_expression.specs.declared.program.Step.{Step};

    ghost Value = { List Step };

    ghost view = { λ p. p.list.items };
}

impl Program {
    /// No step.
    pub fn new(alloc: Global) -> Program
        ensures { result ≡ [] }
    {
        Program {
            list: Vec::new(alloc),
        }
    }

    /// Appends a step. Where memory is wanting the steps are as before.
    pub fn push(&mut self, step: Step) -> Result<(), AllocError>
        ensures ok { OnOk result (self.new ≡ self.old ++ step ∷ []) }
        ensures err { OnErr result (self.new ≡ self.old) }
    {
        self.list.push(step)?;
        Ok(())
    }

    /// The steps in order.
    pub fn as_slice(&self) -> &[Step]
        ensures { result.now ≡ self.now }
    {
        self.list.as_slice()
    }
}
