// What is told of a table: its differences, and the counts.
ghost use Rattle.std.specs.Prelude.{◌≡◌, ◌≢◌, ◌+◌, ◌^◌, ◌-◌, ◌∷◌, ◌++◌, [], min, length, OnOk};

use crate::Fault;
use std::alloc::{AllocError, Global};
use std::fmt;
use std::process::ExitCode;

/// The differences of the groups of cases that have ended, and those of the group that stands open.
#[derive(Drop)]
pub struct Report {
    cases: u64,
    told: Vec<String>,
    group: Vec<String>,
}

impl Report {
    pub fn new(alloc: Global) -> Report
        ensures cases { result.cases ≡ 0 }
        ensures told { result.told.items ≡ [] }
        ensures group { result.group.items ≡ [] }
    {
        Report {
            cases: 0,
            told: Vec::new(alloc),
            group: Vec::new(alloc),
        }
    }

    /// Counts a case.
    pub fn begin_case(&mut self)
        ensures cases { self.new.cases ≡ min (self.old.cases + 1) (2 ^ 64 - 1) }
        ensures told { self.new.told ≡ self.old.told }
        ensures group { self.new.group ≡ self.old.group }
    {
        self.cases = self.cases.saturating_add(1);
    }

    // Tells a difference of the group that stands open.
    fn tell(&mut self, difference: String) -> Result<(), AllocError>
        ensures cases { self.new.cases ≡ self.old.cases }
        ensures told { self.new.told ≡ self.old.told }
        ensures group { OnOk result (self.new.group.items ≡ self.old.group.items ++ difference ∷ []) }
    {
        self.group.push(difference)?;
        Ok(())
    }

    /// Tells why a line can't be read, or why the case that begins at it can't be played.
    pub fn refuse(&mut self, alloc: Global, line: u64, fault: &Fault) -> Result<(), AllocError>
        ensures cases { self.new.cases ≡ self.old.cases }
        ensures told { self.new.told ≡ self.old.told }
        ensures group { OnOk result (length self.new.group.items ≡ length self.old.group.items + 1) }
    {
        let refusal = format!(in alloc; "line {line}: {fault}")?;
        self.tell(refusal)
    }

    /// Tells that a case got something else than it expects of this.
    pub fn differ<E: fmt::Display, G: fmt::Display>(
        &mut self,
        alloc: Global,
        case: &str,
        what: &str,
        expected: &E,
        got: &G,
    ) -> Result<(), AllocError>
        ensures cases { self.new.cases ≡ self.old.cases }
        ensures told { self.new.told ≡ self.old.told }
        ensures group { OnOk result (length self.new.group.items ≡ length self.old.group.items + 1) }
    {
        let difference = format!(in alloc;
            "case {case}: {what}\n  expected {expected}\n  got      {got}"
        )?;
        self.tell(difference)
    }

    /// Ends a group that is expected to have so many differences: where it has, none is told.
    pub fn end_group(&mut self, alloc: Global, line: u64, expected: usize) -> Result<(), AllocError>
        ensures cases { self.new.cases ≡ self.old.cases }
        ensures met { length self.old.group.items ≡ expected → self.new.told ≡ self.old.told }
        ensures not_met { OnOk result (length self.old.group.items ≢ expected →
            length self.new.told.items ≡ length self.old.told.items + length self.old.group.items + 1) }
        ensures group { OnOk result (self.new.group.items ≡ []) }
    {
        let found = self.group.len();
        if found == expected {
            self.group = Vec::new(alloc);
            return Ok(());
        }
        self.told.append(&mut self.group)?;
        let difference = format!(in alloc;
            "line {line}: {expected} differences were expected of this group, and it has {found}"
        )?;
        self.told.push(difference)?;
        Ok(())
    }

    /// Ends the last group, of which no difference is expected.
    pub fn end(&mut self) -> Result<(), AllocError>
        ensures cases { self.new.cases ≡ self.old.cases }
        ensures told { OnOk result (self.new.told.items ≡ self.old.told.items ++ self.old.group.items) }
    {
        self.told.append(&mut self.group)
    }

    /// How many differences are told.
    pub fn count(&self) -> usize
        ensures { result ≡ length self.now.told.items }
    {
        self.told.len()
    }

    /// The differences that are told, and the counts.
    pub fn text(&self, alloc: Global) -> Result<String, AllocError> {
        let mut text = String::new(alloc);
        for difference in &self.told {
            writeln!(text, "{difference}")?;
        }
        let cases = self.cases;
        let count = self.count();
        writeln!(text, "{cases} cases, {count} differences")?;
        Ok(text)
    }

    /// How a program ends that tells this report: as a success where no difference is told.
    pub fn exit_code(&self) -> ExitCode {
        if self.count() == 0 {
            ExitCode::SUCCESS
        } else {
            ExitCode::FAILURE
        }
    }
}
