//! Polynomials in the variable t of a level of a tower (Bronstein, Symbolic Integration I, sections 3.1 to 3.4): as elements of the level, their quotients, and their derivation.
//!
//! [`of_polynomial`] and [`ratio`] form p(t) and p(t)/q(t). The rules are definitions: `specs/LevelElements.antt` says which values are formed, in their order; each call answers the value of its rule, or its stop, or want of
//! memory, about which nothing is said.
//!
//! `specs/LevelDerivation.antt` defines the derivation D of K[t] for the field K of all elements: it is that of the tower on K, and Dt = η or Dt = η·t. `specs/NormalPolynomials.antt` defines when the square-free divisors of a
//! polynomial are normal, coprime with their derivatives, and which monic polynomials are special in a sound tower.
//!
//! The main theorems: polynomials with coefficients below the level are determined by their values at t (`same-of_values`), (Dp)(t) is the derivative of p(t) (`at-derivative`), the derivation keeps the field of the coefficients
//! (`Over-derivative`), and the numerator and the denominator of an element are in lowest terms (`lowest-terms`, `lowest-proper`).
#![tactic(auto)]

mod elements;
mod level;

pub use elements::{of_polynomial, one, ratio};
pub use level::level_of;
