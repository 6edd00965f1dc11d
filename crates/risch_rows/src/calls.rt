// How a source or a sink in memory answers its calls.
ghost use Rattle.std.specs.Prelude.{◌≤◌};

use crate::value::numbers;
use risch_io::BytesSink;
use risch_tables::{Fault, set};
use std::alloc::{AllocError, Global};
use std::num::NonZeroUsize;

/// The most bytes of a call, where a case does not say it.
const PIECE: usize = 4096;

/// The room of a sink, where a case does not say it.
const ROOM: usize = 65_536;

/// What a case says of the calls.
#[derive(Drop)]
pub struct Calls {
    piece: Option<NonZeroUsize>,
    room: Option<usize>,
    fails: Option<Vec<u64>>,
}

impl Calls {
    pub fn new() -> Calls {
        Calls {
            piece: None,
            room: None,
            fails: None,
        }
    }

    /// Reads the most bytes of a call.
    pub fn read_piece(&mut self, value: &str) -> Result<(), Fault> {
        set(&mut self.piece, value.parse()?)
    }

    /// Reads for how many bytes there is room.
    pub fn read_room(&mut self, value: &str) -> Result<(), Fault> {
        set(&mut self.room, value.parse()?)
    }

    /// Reads the numbers of the calls that fail.
    pub fn read_fails(&mut self, alloc: Global, value: &str) -> Result<(), Fault> {
        set(&mut self.fails, numbers(alloc, value)?)
    }

    /// The most bytes of a call.
    pub fn piece(&self) -> usize
        ensures { 1 ≤ result }
    {
        match self.piece {
            Some(piece) => piece.get(),
            None => PIECE,
        }
    }

    /// The numbers of the calls that fail.
    pub fn fails(&self) -> &[u64] {
        match &self.fails {
            Some(fails) => fails.as_slice(),
            None => &[],
        }
    }

    /// A sink that answers its calls so.
    pub fn sink(&self, alloc: Global) -> Result<BytesSink<'_>, AllocError> {
        BytesSink::new(alloc, self.room.unwrap_or(ROOM), self.piece(), self.fails())
    }
}
