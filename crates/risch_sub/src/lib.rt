//! Square-free parts of polynomials over the elements of a tower, traces of powers in their algebra modulo a monic polynomial, and the primitive remainder sequence of polynomials in t over polynomials in z
//! (Bronstein, Symbolic Integration I, sections 1.4 to 1.7).
//!
//! [`square_free`] gives the parts p_1, p_2, .. of p = p_1·p_2²·p_3³·..; [`characteristic`] gives the traces of u, u², .., u^n modulo d, from which the characteristic polynomial of u follows by Newton's identities.
//!
//! [`remainders`] gives d, b, .., where each further member is the pseudo-remainder of the two before it, divided by its content, down to a wanted degree in t or to the last that is not 0.
//!
//! The rules are definitions: `specs/SquareFree.antt`, `specs/PowerTraces.antt` and `specs/RemainderSequence.antt`. The contract of a call has the clauses `rule` (the answer is the value of the rule, or its stop, or want of memory, about which nothing is said), `meaning` (what the
//! value is, in K[t] and in the algebra of `risch_mean`: `specs/SquareFreeMeaning.antt`, `specs/PowerTracesMeaning.antt`), and `within` (which variables occur).
//!
//! The public modules have the same rules as functions on polynomials of `risch_polynomial`, which have no conditions on their degrees and say nothing of what the values mean.
//!
//! Not promised here: what the members of a remainder sequence mean.
#![tactic(auto)]

pub mod contents;
pub mod members;
pub mod polynomials;
mod power_traces;
pub mod remainder_sequence;
pub mod square_free_parts;

pub use power_traces::{characteristic, next_power};
pub use remainder_sequence::{ZPoly, ZPolyList, remainders};
pub use square_free_parts::square_free;
