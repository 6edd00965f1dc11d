//! Integrals with logarithms over the roots of polynomials, and their derivatives (Bronstein, Symbolic Integration I, sections 2.4 and 5.6).
//!
//! An [`Integral`] is a part and a list of [`LogPart`]s: sums over the roots z of R of z·log S(z) for a monic polynomial R in z with rational coefficients, or C·log U. It stands for an answer of `risch_mean`, as `specs/DerivativeMeaning.antt` says.
//!
//! [`inverse`], [`product`] and [`trace`] compute in the algebra of polynomials in z over the elements modulo R, and [`derive_integral`] derives an integral that has a derivative.
//!
//! The rules are definitions: `risch_trace` has the trace modulo a monic polynomial over the elements, `specs/Algebra.antt` the calls in the algebra modulo R, and `specs/Derivative.antt` the derivative. The contract of a call has the clauses
//! `rule` (the answer is the value of the rule, or its stop, or want of memory, about which nothing is said), `meaning` (the inverse, or that there is none; the product; the trace; the derivative, all of `risch_mean`), and `within` (which variables occur).
//!
//! That an integral has a derivative is a condition of [`derive_integral`], which no call here tests. `proofs/Conditions.antt` has the laws for who does: S is invertible modulo R exactly where the monic common divisor of R and S is 1, and R has no double root exactly where that of R and R' is.
#![tactic(auto)]

mod algebra;
mod derivative;
mod integral;

pub use algebra::{inverse, product, trace};
pub use derivative::derive_integral;
pub use integral::{Integral, LogList, LogPart};
