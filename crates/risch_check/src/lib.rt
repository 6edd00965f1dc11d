//! Whether a certificate is right.
//!
//! A certificate of an integral claims that a part and logarithms, over the roots of polynomials in z with rational coefficients, are an integral of the integrand (Bronstein,
//! Symbolic Integration I, section 5.6). [`check`] tests its conditions in the order of its lines: each logarithm has an argument other than 0; of each sum over the
//! roots of R, first R and its derivative are coprime, and then its argument S and R are; at the end the derivative of the integral is the integrand.
//! A refutation claims that the integrand is the derivative of a partial integral plus a rest, which has no elementary integral: the conditions on its logarithms are the same, then the derivative of the partial integral plus the rest
//! is the integrand, and at last its end holds, as [`check_end`](risch_chain_end::check_end) tests it.
//! `specs/Checked.antt` has these conditions, and the answer is exactly what they give, or want of memory.
//!
//! Promised: where a certificate of an integral is accepted, what it claims is an integral of the integrand over the tower, and where a refutation is accepted, its chain reduces the integrand exactly and its end is read off the rest,
//! both as `risch_mean` defines it.
//!
//! Not promised: that each right certificate is accepted; a value that a condition needs may be one that cannot be formed within the limits. Nor that an integrand with an exact chain has no elementary integral, which is the theorem
//! of Liouville over sound towers.
#![tactic(auto)]

mod certificate;
mod derivative;
pub mod kinds;
mod logarithms;
mod normal;
mod polynomials;
mod printing;

pub use certificate::check;
pub use printing::print_check;
pub use risch_elem::NumberList;
