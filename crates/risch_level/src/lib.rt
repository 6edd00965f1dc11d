//! One level of a tower of fields: the field E(t) of rational functions in one more variable over a field E (Bronstein, Symbolic Integration I, sections 1.2 and 3.2).
//!
//! Levels are types. [`Over<E>`] is E(t) over any field E of [`Arith`](risch_field::Arith). An element is one of E, or num/den with den monic, in normal form, of
//! weight at most 65536: the sum of the weights of num and den. [`Tower`] and [`Denominator`] see an element of a nest of levels at one of them, as a quotient of
//! polynomials over the whole nest.
//!
//! The rules are definitions: `specs/Over.antt` has those of the arithmetic, `specs/Tower.antt` and `specs/Parts.antt` those of numerators, denominators and quotients at
//! a level, `specs/Accessors.antt` the parts of an element, and `specs/Levels.antt` the fields by their height. The contract of each call that can stop is one clause,
//! `Agrees result rule`.
//!
//! Not promised here: what an element stands for, so that two of them are the same exactly where they are equal, and that num and den are coprime.
//! `risch_element_theory` states that, of valid elements.
#![tactic(auto)]

mod denominator;
mod over;
mod tower;
mod variables;

pub use denominator::Denominator;
pub use over::{Over, Ratio, below, element, normal_form};
pub use tower::{Tower, lifted, lowered_element};
pub use variables::variable;
