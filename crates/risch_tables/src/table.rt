// A table of cases, line by line.
use crate::{Fault, Report, first_word};
use std::alloc::{AllocError, Global};

/// A case of a table.
pub trait Case: Drop {
    /// The case of this name, of which no line is read yet.
    fn begin(alloc: Global, name: &str) -> Result<Self, AllocError>;

    /// Reads a line of the case.
    fn read(&mut self, alloc: Global, key: &str, value: &str) -> Result<(), Fault>;

    /// Plays what was not played as it was read, and tells where the case differs from what it expects.
    fn end(&self, alloc: Global, report: &mut Report) -> Result<(), Fault>;
}

/// Plays each case of a table, and tells the differences.
pub fn play<C: Case>(alloc: Global, table: &str) -> Result<Report, AllocError> {
    let mut player: Player<C> = Player {
        alloc,
        report: Report::new(alloc),
        block: None,
    };
    for (number, line) in (1u64..).zip(table.lines()) {
        player.line(number, line)?;
    }
    player.end_block()?;
    player.report.end()?;
    Ok(player.report)
}

#[derive(Drop)]
struct Player<C: Case> {
    alloc: Global,
    report: Report,
    block: Option<Block<C>>,
}

// A case, the number of its first line, and whether each of its lines was read.
#[derive(Drop)]
struct Block<C: Case> {
    case: C,
    number: u64,
    is_read: bool,
}

impl<C: Case> Player<C> {
    fn line(&mut self, number: u64, line: &str) -> Result<(), AllocError> {
        if line.starts_with('#') {
            return Ok(());
        }
        if line.trim().is_empty() {
            return self.end_block();
        }
        let (key, value) = first_word(line);
        let read = match key {
            "case" => self.begin_block(number, value),
            "expect" => self.end_group(number, value),
            _ => self.read(key, value),
        };
        match read {
            Ok(()) => Ok(()),
            Err(fault) => self.report.refuse(self.alloc, number, &fault),
        }
    }

    fn begin_block(&mut self, number: u64, name: &str) -> Result<(), Fault> {
        self.end_block()?;
        self.report.begin_case();
        self.block = Some(Block {
            case: C::begin(self.alloc, name)?,
            number,
            is_read: true,
        });
        Ok(())
    }

    fn read(&mut self, key: &str, value: &str) -> Result<(), Fault> {
        match &mut self.block {
            None => Err(Fault::Cause("a line outside a case")),
            Some(block) => {
                let read = block.case.read(self.alloc, key, value);
                block.is_read &= read.is_ok();
                read
            }
        }
    }

    fn end_group(&mut self, number: u64, value: &str) -> Result<(), Fault> {
        self.end_block()?;
        let (what, count) = first_word(value);
        if what != "differences" {
            return Err(Fault::Cause("no such key"));
        }
        self.report.end_group(self.alloc, number, count.parse()?)?;
        Ok(())
    }

    // Plays the case that stands open, unless a line of it could not be read.
    fn end_block(&mut self) -> Result<(), AllocError> {
        match self.block.take() {
            Some(block) if block.is_read => {
                match block.case.end(self.alloc, &mut self.report) {
                    Ok(()) => Ok(()),
                    Err(fault) => self.report.refuse(self.alloc, block.number, &fault),
                }
            }
            _ => Ok(()),
        }
    }
}
