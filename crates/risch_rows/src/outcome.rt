// What a run wrote and how it ended, and where that is not what is expected.
ghost use Rattle.std.specs.Prelude.{◌≡◌, ◌≢◌, ◌+◌, ◌<◌, length, OnOk};
ghost use Rattle.risch_rows.specs.Outcome.{Agree};

use crate::escape::Escaped;
use risch_tables::Report;
use std::alloc::{AllocError, Global};

/// What a run wrote to each of its sinks, and its status.
#[derive(Clone, Copy)]
pub struct Outcome<'a> {
    pub out: &'a [u8],
    pub err: &'a [u8],
    pub status: u8,
}

impl Outcome<'_> {
    /// Tells each of the three in which a run differs from what is expected of it.
    pub fn compare(
        &self,
        alloc: Global,
        report: &mut Report,
        case: &str,
        got: &Outcome,
    ) -> Result<(), AllocError>
        ensures agreeing { Agree self.now got.now → report.new ≡ report.old }
        ensures differing { OnOk result (¬ (Agree self.now got.now) → length report.old.group.items < length report.new.group.items) }
    {
        if self.out != got.out {
            report.differ(alloc, case, "out", &Escaped(self.out), &Escaped(got.out))?;
        }
        if self.err != got.err {
            report.differ(alloc, case, "err", &Escaped(self.err), &Escaped(got.err))?;
        }
        if self.status != got.status {
            report.differ(alloc, case, "status", &self.status, &got.status)?;
        }
        Ok(())
    }
}
