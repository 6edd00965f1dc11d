//! The conditions at the end of a refutation.
//!
//! A [`Chain`](risch_cert::Chain) claims that its rest has no elementary integral, since the residues of its normal part are not constant (Bronstein, Symbolic Integration I, section 5.6).
//! [`check_end`] tests it in this order: the rest lies in the level of the end, with the variable V; the denominator d of the normal part of its canonical parts is square-free, gcd(d, ∂d) = 1; the normal part is not 0; its residues are
//! not constant, with the power and the trace that the chain gives. `specs/End.antt` has these conditions, and the answer is exactly what they give, or want of memory.
//!
//! Promised: where they hold, the end is read off the canonical parts of the rest, as `risch_mean` defines it.
//!
//! `specs/Verdict.antt` says what is said of a condition, and of conditions one after the other; [`Fault`] is why one does not hold.
#![tactic(auto)]

mod denominator;
mod end;
mod fault;
mod residue;
mod runs;
mod texts;

pub use end::check_end;
pub use fault::Fault;
pub use texts::text;
