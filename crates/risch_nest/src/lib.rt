//! The field Q(x)(t1)..(t4) of five levels as one type (Bronstein, Symbolic Integration I, section 3.2).
//!
//! [`Nest`] is the field E(t) over itself, five times, with the fractions as the lowest E: an element of `risch_level`'s `Over`, whose type the crates above do not see.
//! Its operations are the rules `element` of `risch_level`; at each level it has a numerator, a denominator and quotients, and [`NestRates`] give its derivation.
//!
//! The rules are the definitions of `risch_level` and `risch_derivation` at the height 5, and each contract names one of them. Not promised here: what an element
//! stands for. `risch_element_theory` states that, of elements in normal form.
#![tactic(auto)]

mod forms;
mod lower;
mod lowest;
mod nest;

pub use nest::{Nest, NestRates};
