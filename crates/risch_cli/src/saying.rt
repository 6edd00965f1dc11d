// What the program has to say to its words and its input.
ghost use Rattle.std.specs.Prelude.{◌≡◌, OnOk, IfOk, IsErrOf};
ghost use Rattle.risch_io.specs.Outside.{Rose};
ghost use Rattle.risch_words.specs.Words.{texts};
ghost use Rattle.risch_cli.specs.declared.saying.Fault.TheVariants.{Memory};
ghost use Rattle.risch_cli.specs.Input.{IsInput};
ghost use Rattle.risch_cli.specs.Truth.{AsksToRead, IsReported};

use crate::commands::{check_file, integrate_file};
use crate::report::Report;
use risch_io::{ReadAll, Source, Text, read_all};
use risch_words::{Command, WordsFault, read_words};
use std::alloc::{AllocError, Global};

/// Why there is no report: a read failed, or memory ran out.
#[derive(Clone, Copy)]
pub(crate) enum Fault {
    Read,
    Memory,
}

impl From<AllocError> for Fault {
    ghost from_gives = { λ _ e. e ≡ Memory };

    fn from(_: AllocError) -> Fault {
        Fault::Memory
    }
}

/// The most bytes that an input may have.
const MOST_BYTES: usize = 1_048_576;

/// What is said to the words and to all the bytes of the source.
pub(crate) fn report<S: Source>(
    alloc: Global,
    words: &[&str],
    source: &mut S,
) -> Result<Report, Fault>
    ensures reported { IfOk result (IsReported (texts words.now) (S.left source.old)) }
    ensures kept { OnOk result (S.faults source.new ≡ S.faults source.old) }
    ensures read_fault { IsErrOf result Fault.Read → Rose (S.faults source.old) (S.faults source.new) }
    ensures asked { IsErrOf result Fault.Read → AsksToRead (texts words.now) }
    ensures unread { (AsksToRead (texts words.now) → ⊥) → (S.left source.new ≡ S.left source.old) × (S.faults source.new ≡ S.faults source.old) }
{
    let request = match read_words(alloc, words) {
        Ok(request) => request,
        Err(WordsFault::Usage) => return or_no_memory(Report::usage(alloc)),
        Err(WordsFault::Memory) => return Err(Fault::Memory),
    };
    match request.command {
        Command::Solve | Command::Sample => or_no_memory(Report::not_yet(alloc)),
        Command::Check => match whole_input(alloc, source)? {
            Some(file) => or_no_memory(check_file(alloc, file.as_slice())),
            None => or_no_memory(Report::too_long(alloc)),
        },
        Command::Integrate => match whole_input(alloc, source)? {
            Some(file) => or_no_memory(integrate_file(alloc, request.budget, file.as_slice())),
            None => or_no_memory(Report::too_long(alloc)),
        },
    }
}

/// All the bytes of the source, where they are not too many.
fn whole_input<S: Source>(alloc: Global, source: &mut S) -> Result<Option<Text>, Fault>
    ensures whole { IfOk result (IsInput (S.left source.old)) }
    ensures kept { OnOk result (S.faults source.new ≡ S.faults source.old) }
    ensures read_fault { IsErrOf result Fault.Read → Rose (S.faults source.old) (S.faults source.new) }
{
    match read_all(alloc, source, MOST_BYTES) {
        ReadAll::Bytes(text) => Ok(Some(text)),
        ReadAll::TooLong => Ok(None),
        ReadAll::ReadFault => Err(Fault::Read),
        ReadAll::Memory => Err(Fault::Memory),
    }
}

/// The report, or that memory ran out.
fn or_no_memory(report: Result<Report, AllocError>) -> Result<Report, Fault>
    ensures report { IfOk result (λ it. report ≡ Ok it) }
    ensures fault { IsErrOf result Fault.Read → ⊥ }
{
    Ok(report?)
}
