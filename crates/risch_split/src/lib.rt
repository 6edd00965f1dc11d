//! Splitting factorization and canonical parts (Bronstein, Symbolic Integration I, sections 3.4 and 3.5).
//!
//! [`split`] factors a monic polynomial in the variable t of a level into its normal and its special part; [`canonical`] writes an element f of the level as the sum of a reduced element, whose denominator is special, and a proper
//! one, whose denominator is normal. [`order_at`] and [`value_at`] are the order of an element at t and its value where t is 0.
//!
//! The rules are definitions: `specs/Splitting.antt` and `specs/Canonical.antt` say which values are formed, in their order. Each call answers the value of its rule, or its stop, or want of memory, about which nothing is said.
//!
//! What they mean: `specs/SplittingMeaning.antt` says what a splitting factorization and canonical parts are, over the field of all elements with the derivation of the tower. A tower that is not sound to the level may have special
//! polynomials other than 1, or other than powers of t at an exponential; such a one is told by the stop NotSound, with an element of derivative 0 that is no rational number.
#![tactic(auto)]

mod calls;
mod canonical_parts;
mod order;
mod special;
mod splitting;

pub use calls::{canonical, split};
pub use canonical_parts::Canonical;
pub use order::{order_at, value_at};
pub use splitting::Split;
