// Why a line of a table can't be read, or a case can't be played.
use std::alloc::AllocError;
use std::num::ParseIntError;
use thiserror::Error;

/// Why a line of a table can't be read, or a case can't be played.
#[derive(Debug, Drop, Error)]
pub enum Fault {
    /// A cause in words.
    #[error("{0}")]
    Cause(&'static str),
    /// A number was expected.
    #[error("a number was expected: {0}")]
    Number(#[from] ParseIntError),
    /// No memory is left.
    #[error("out of memory")]
    Memory(#[from(alloc)] AllocError),
}
