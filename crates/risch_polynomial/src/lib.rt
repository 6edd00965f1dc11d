//! Polynomials in one variable over a field (Bronstein, Symbolic Integration I, section 1.1): sum, product, multiple, monic multiple and derivative.
//!
//! [`Poly<E>`] are the polynomials E[t] over any field E of [`Arith`](risch_field::Arith). A polynomial has degree at most 255, and weight at most 65536: the sum of
//! the weights of its coefficients other than 0.
//!
//! The rules are definitions: `specs/Poly.antt` has those of the arithmetic, and of division and the common divisor, `specs/Modular.antt` those of inverses modulo a polynomial; the crate
//! `risch_division` has the code of the last three. The contract of each call that can stop is one clause, `Agrees result rule`. `specs/Negatives.antt` has laws of the negative.
//!
//! [`coefficients`] has the steps on lists of coefficients that are not yet kept as a polynomial.
//!
//! Not promised here: what the rules mean. `risch_polynomial_theory` and `risch_element_theory` state that, of valid coefficients.
#![tactic(auto)]

pub mod coefficients;
mod poly;

pub use poly::{MOST_DEGREE, Poly};
