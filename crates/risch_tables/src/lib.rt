//! Tables of cases for programs that test: what is told of a table, and how its lines are played.
//!
//! A table is a text. Each case is a block of lines, a key and its value a line; the key ends at the first blank. The line `case` with a
//! name begins a case, and a blank line or the next line `case` ends it. A line that begins with `#` is a comment. What the other keys
//! mean a [`Case`] says, but for one: `expect differences N` ends the group of the cases since the last such line.
//!
//! [`play`] reads a table and plays its cases, and a [`Report`] is what is told of it: each place where a case differs from what it
//! expects, and each line that can't be read and each case that can't be played, with a [`Fault`]. These are its differences. A group
//! that is expected to have N differences and has N has none that is told; where it has another number, all are told and that is one
//! more. Of the cases after the last such line none is expected. The contracts of a report say that all that it tells is counted, and
//! that a difference is told exactly where what is expected is not what is got.
//!
//! Not promised: that a case tells what it has to. That is what a table of wrong cases shows.
#![tactic(auto)]

mod fault;
mod report;
mod table;
mod value;

pub use fault::Fault;
pub use report::Report;
pub use table::{Case, play};
pub use value::{first_word, set};
