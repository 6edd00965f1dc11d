//! The derivation of the elements of a tower of fields over Q (Bronstein, Symbolic Integration I, chapter 3).
//!
//! D of a fraction is 0. The variable t of each level is a monomial over the field E below: Dt = η, as for x and for a logarithm, or Dt = η·t, as for an
//! exponential, with η in E. A [`Rate`] holds the kind and η of one level. [`Derive`] derives the elements of each field, from the rates of its levels, and
//! [`derive_polynomial`] the polynomials over it.
//!
//! The rules are definitions: `specs/Derivation.antt` has the derivation, `specs/Rates.antt` how the rate of one level is set. `proofs/DerivationExamples.antt` has
//! values of the derivation. The contract of each call that can stop is `Agrees result rule`: the answer is the value of the rule, or its stop, or want of memory,
//! about which nothing is said. Other calls give their value exactly.
//!
//! Not promised here: that D is a derivation. `risch_element_theory` states that, of valid elements.
#![tactic(auto)]

mod derive;
mod polynomial;
mod rate;

pub use derive::Derive;
pub use polynomial::derive_polynomial;
pub use rate::{Kind, Rate};
