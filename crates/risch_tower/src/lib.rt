//! Towers of logarithms and exponentials over Q(x), and their derivation (Bronstein, Symbolic Integration I, chapter 3).
//!
//! A [`Tower`] is x and the logarithms and exponentials that were pushed above it, four at most. Its elements are those of a field of five levels, as
//! [`Elem`](risch_elem::Elem); the variables above its height count as constants.
//!
//! The rules are definitions: `specs/Tower.antt` says what a push does, and `risch_derivation` has the derivation. The contract of each call that can stop is
//! `Agrees result rule`, or that with refusals: the answer is the value of the rule, or its stop or refusal, or want of memory, about which nothing is said. Other
//! calls give their value exactly.
//!
//! What they mean: `specs/TowerMeaning.antt` says for which tower of `risch_mean` the monomials stand. Its derivation is that of [`Tower::derive`] and
//! [`Tower::derive_poly`], [`Tower::push`] adds a monomial to it, and the kinds and η of the levels are its.
#![tactic(auto)]

mod fault;
mod level;
mod rates;
mod tower;

pub use fault::PushFault;
pub use level::{Level, Monomial};
pub use risch_derivation::{Kind, Rate};
pub use tower::{MOST_HEIGHT, Tower};
