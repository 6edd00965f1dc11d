//! The logarithms of the residues of simple elements (Bronstein, Symbolic Integration I, sections 2.5 and 5.6: Rothstein, Trager, Lazard and Rioboo).
//!
//! The residues of an element h = a/d of a level, proper and with d coprime with Dd, are constant or not: [`Residues`]. Where they are constant, they have logarithms whose derivatives add up to h, at an exponential to h + η·p for the sum
//! p of the residues.
//!
//! The rules are definitions: `specs/Residues.antt`, `specs/Newton.antt` (the characteristic polynomial of the residues by Newton's identities) and `specs/Logarithms.antt` say which values are formed, in their order, and what they cost.
//! What the answers are: `specs/ResiduesMeaning.antt`, by the definitions of `risch_mean`.
#![tactic(auto)]

mod argument;
mod calls;
mod logarithm;
mod logarithms;
mod members;
mod newton;
mod outcome;
mod setting;

pub use calls::residues;
pub use outcome::Residues;
