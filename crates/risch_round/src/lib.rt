//! The round of the procedure at the level of x: each rational function in x is integrated (Bronstein, Symbolic Integration I, sections 2.2, 2.5 and 5.8).
//!
//! [`integrate`] gives an integral, whose derivative it has formed and compared with the integrand, or the stop with its step, or the derivative that is another element than the integrand. A polynomial in x has no simple part, and its
//! integral is that of [`procedure`].
//!
//! The rules are definitions: `specs/Procedure.antt` (polynomials in x) and `specs/RationalFunctions.antt` say which values are formed, in their order, with their stops. What the answers mean: `specs/Meaning.antt` and
//! `specs/AnswerMeaning.antt`, by the definitions of `risch_mean`.
//!
//! Not promised: that memory is enough; that no other element than the integrand is ever told.
#![tactic(auto)]

mod branches;
mod budgets;
pub mod elements;
mod halted;
mod integration;
mod preparation;
pub mod procedure;

pub use integration::integrate;
