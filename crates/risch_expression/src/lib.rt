//! Written expressions over a tower: read from bytes as a list of steps, with the exact place and cause of the first fault, and evaluated over the elements of the tower
//! (the fields Q(x)(t1)..(t4) of Bronstein, Symbolic Integration I, chapter 3).
//!
//! [`Words`] are the bytes at hand: what stands at their front is taken off, with the blanks behind it. [`read_sum`] reads an expression by the grammar of `specs/Grammar.antt`, one function for each of
//! its rules, and appends its steps to a [`Program`]; at most 64 parentheses are open at once. Its contract says that the steps are those of the tree that the grammar gives, or that the fault is the
//! grammar's, with its place and cause, or that memory ran out; and that the expression has only known names, and numbers of at most 2^127 - 1.
//!
//! [`evaluate`] and [`evaluate_element`] run the steps over the rules of `risch_polynomial` and `risch_level`. A value is a polynomial in z over the elements; in an expression without z it is an element. Their
//! contracts say that the value, or the fault, is that of `specs/Evaluation.antt`, unless memory is wanting; and that the element of an expression without z stands for its written value.
//!
//! Not promised: that memory is enough; what the bytes at hand and the program are after a fault; the cost (reading builds no tree, and looks at each byte a bounded number of times).
#![tactic(auto)]

mod evaluation;
mod fault;
mod names;
mod program;
mod reading;
mod words;

pub use evaluation::{evaluate, evaluate_element};
pub use fault::{Cause, ReadFault, SyntaxFault, ValueFault};
pub use names::Names;
pub use program::{Operation, Program, Step};
pub use reading::{MOST_OPEN, read_sum};
pub use words::{MOST_NUMBER, Words};
