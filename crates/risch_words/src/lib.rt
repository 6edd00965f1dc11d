//! The words of the program `risch`: its name, one command, and options.
//!
//! The command is `integrate`, `check`, `solve` or `sample`. The options are `--workers N` (1 to 16, default 1), `--budget N`
//! (1 to 2^63 - 1, default 100000) and `--size N` (1 to 64, default 8). `--budget 2` and `--budget=2` are the same, and an option
//! may stand before or after the command. N is one or more digits 0 to 9, with no sign. An option may be given once, and no name may be shortened.
//! The word `--` ends the options, and after it only the command may stand. An option that a command does not need has no effect.
//!
//! The words are read by `clap` as one simple command, with one required word and three options with a value. The contract of
//! [`read_words`] does not speak of `clap`: a request is the one that the definition `asked` gives for the words, and the words are
//! refused only where `asked` gives none. Want of memory may come in place of either.
//!
//! No contract tells which word is at fault.
#![tactic(auto)]

mod fault;
mod line;
mod numbers;
mod request;
mod words;

pub use fault::WordsFault;
pub use request::{Command, Request};
pub use words::read_words;
