//! Whole files: a problem, that is tower lines and an integrand, and a problem with a printed integral or refutation
//! (the towers of logarithms and exponentials over Q(x) of Bronstein, Symbolic Integration I, chapter 3).
//!
//! [`read_problem`] and [`read_certified`] decide the syntax of the whole file first, line by line, with the exact place and cause of the first fault; then they evaluate, line by line, and tell
//! the first division by 0, refusal of a monomial, wrong shape of a sum over roots, overflow or size. A place is an offset in bytes from the beginning of the file.
//!
//! The grammar of lines and files is `specs/Lines.antt`, `specs/File.antt` and `specs/Certified.antt`, one definition for each rule, and `specs/Values.antt` says what is evaluated in which order. The
//! contracts (`read`) say that the answer is that of these definitions (`specs/Read.antt`, `specs/ReadCertified.antt`), or want of memory; and (`written`) that the tower and the integrand of a problem,
//! and the part, the logarithms, the rest and the trace of a certificate, are the written values of their lines (`specs/Meaning.antt`). A [`Problem`] keeps in its type that its integrand lies in its tower, and a
//! [`Certified`] that its certificate has its form over the tower, with one number for each line.
//!
//! Not promised: that memory is enough. A refutation with equations, or with an end other than one in residues, is not yet read.
#![tactic(auto)]

mod answer;
mod certificate;
mod certified;
mod fault;
mod file;
mod lines;
mod logarithms;
mod problem;
mod programs;
mod reading;
mod refutation;
mod values;

pub use certified::{Certified, ReadCertified};
pub use fault::Refusal;
pub use problem::{Problem, ReadProblem};
pub use reading::{read_certified, read_problem};
pub use risch_elem::NumberList;
