// A case: what a run is given, and what is expected of it.
use crate::calls::Calls;
use crate::escape::unescape;
use crate::outcome::Outcome;
use crate::value::{repeat, words};
use risch_cli::run_here;
use risch_io::BytesSource;
use risch_tables::{Case, Fault, Report, set};
use std::alloc::{AllocError, Global};

/// A case that plays a run of the program.
#[derive(Drop)]
pub struct RunCase {
    name: String,
    words: Option<Vec<String>>,
    input: Vec<u8>,
    out: Vec<u8>,
    err: Vec<u8>,
    status: Option<u8>,
    source_calls: Calls,
    out_calls: Calls,
    err_calls: Calls,
}

impl Case for RunCase {
    fn begin(alloc: Global, name: &str) -> Result<RunCase, AllocError> {
        Ok(RunCase {
            name: String::from_str(alloc, name)?,
            words: None,
            input: Vec::new(alloc),
            out: Vec::new(alloc),
            err: Vec::new(alloc),
            status: None,
            source_calls: Calls::new(),
            out_calls: Calls::new(),
            err_calls: Calls::new(),
        })
    }

    fn read(&mut self, alloc: Global, key: &str, value: &str) -> Result<(), Fault> {
        match key {
            "words" => set(&mut self.words, words(alloc, value)?),
            "input" => unescape(&mut self.input, value),
            "input-repeat" => repeat(alloc, &mut self.input, value),
            "out" => unescape(&mut self.out, value),
            "err" => unescape(&mut self.err, value),
            "status" => set(&mut self.status, value.parse()?),
            _ => self.read_calls(alloc, key, value),
        }
    }

    // Runs the program, and tells where it differs from what is expected.
    fn end(&self, alloc: Global, report: &mut Report) -> Result<(), Fault> {
        let words = self
            .words
            .as_ref()
            .ok_or(Fault::Cause("a case without words"))?;
        let status = self.status.ok_or(Fault::Cause("a case without a status"))?;
        let words: Vec<&str> = words.iter().map(|word| word.as_str()).collect(alloc)?;
        Ok(self.run(alloc, &words, status, report)?)
    }
}

impl RunCase {
    // Reads a line that says how the source or a sink answers its calls.
    fn read_calls(&mut self, alloc: Global, key: &str, value: &str) -> Result<(), Fault> {
        match key {
            "source-piece" => self.source_calls.read_piece(value),
            "source-fails" => self.source_calls.read_fails(alloc, value),
            "out-piece" => self.out_calls.read_piece(value),
            "out-room" => self.out_calls.read_room(value),
            "out-fails" => self.out_calls.read_fails(alloc, value),
            "err-piece" => self.err_calls.read_piece(value),
            "err-room" => self.err_calls.read_room(value),
            "err-fails" => self.err_calls.read_fails(alloc, value),
            _ => Err(Fault::Cause("no such key")),
        }
    }

    // Runs the program on these words, and tells where it differs from what is expected and this status.
    fn run(
        &self,
        alloc: Global,
        words: &[&str],
        status: u8,
        report: &mut Report,
    ) -> Result<(), AllocError> {
        let mut source = BytesSource::new(
            self.input.as_slice(),
            self.source_calls.piece(),
            self.source_calls.fails(),
        );
        let mut out = self.out_calls.sink(alloc)?;
        let mut err = self.err_calls.sink(alloc)?;
        let ended = run_here(alloc, words, &mut source, &mut out, &mut err);
        let expected = Outcome {
            out: self.out.as_slice(),
            err: self.err.as_slice(),
            status,
        };
        let got = Outcome {
            out: out.taken(),
            err: err.taken(),
            status: ended.code,
        };
        expected.compare(alloc, report, self.name.as_str(), &got)
    }
}
