//! Traces in the algebra of polynomials over the elements modulo a monic polynomial (Bronstein, Symbolic Integration I, section 1.4).
//!
//! The rules are definitions: `specs/Traces.antt` has the remainder, the multiple by a power of the variable, and the trace. The contract of each call is one clause, `Agrees result rule`; `proofs/TraceRules.antt` has what
//! the rules mean in the algebra of `risch_mean`.
#![tactic(auto)]

pub mod elements;
mod traces;

pub use traces::{raised, remainder, trace};
