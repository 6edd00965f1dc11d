//! Answers to an integrand, certificates, and their printed text.
//!
//! An [`Integral`](risch_rootsum::Integral) has a part that is an element and a sum of logarithms, over the roots of polynomials in z with rational coefficients, as
//! in Bronstein, Symbolic Integration I, section 5.6. A [`Chain`] is a refutation: a partial integral, a rest, and an [`End`], which is why the rest has no elementary integral.
//! A [`Certificate`] is what an answer claims, an integral or a chain, and its text is what a checker reads. An [`Answer`] is one of these, or the stop of a run with the step in
//! which it comes, or two elements that should be the same and are not.
//!
//! An element prints by recursion on its variables, the highest first: as a quotient of polynomials in its variable, whose coefficients lie below.
//! `specs/Printing.antt` has the rule for elements, and `specs/Answers.antt` that for certificates and answers. The contract of each call is one clause: the text is
//! that of the rule, from its first byte to its last. `Err` comes for want of memory alone.
//!
//! Not promised here: that what is printed is read back as the same.
#![tactic(auto)]

mod answer;
mod chain;
mod elements;
mod lines;
mod terms;
mod texts;

pub use answer::{Answer, Certificate, Halt, Place};
pub use chain::{Chain, End};
pub use elements::{print_elem, print_poly, print_poly_in_z, print_variable};
pub use lines::{print_answer, print_certificate};
