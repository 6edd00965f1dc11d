// The request that the words make.
ghost use Rattle.std.specs.Prelude.{◌≡◌, IfOk, IsErrOf, Some, None, option_map};
ghost use Rattle.clap.specs.Matches.{found_of};
ghost use Rattle.clap.specs.Walk.{rows_of};
ghost use Rattle.risch_words.specs.Line.{read};
ghost use Rattle.risch_words.specs.Words as spec;
ghost use Rattle.risch_words.specs.Words.{asked, texts};

use crate::fault::WordsFault;
use crate::line::parse;
use crate::numbers::number_or;
use crate::request::{Command, Request};
use clap::ArgMatches;
use std::alloc::Global;

const DEFAULT_WORKERS: u64 = 1;

const MOST_WORKERS: u64 = 16;

const DEFAULT_BUDGET: u64 = 100_000;

const MOST_BUDGET: u64 = 9_223_372_036_854_775_807;

const DEFAULT_SIZE: u64 = 8;

const MOST_SIZE: u64 = 64;

/// What the words ask for. The first word is the program's name, which is not looked at.
///
/// `Usage`: the words ask for nothing. `Memory`: memory ran out, and nothing is said of the words.
pub fn read_words(alloc: Global, words: &[&str]) -> Result<Request, WordsFault>
    ensures request { IfOk result (λ r. asked (texts words.now) ≡ Some r) }
    ensures usage { IsErrOf result WordsFault.Usage → asked (texts words.now) ≡ None }
{
    let matches = parse(alloc, words)?;
    request(&matches).ok_or(WordsFault::Usage)
}

/// The request of the values that were found.
#[tactic(auto, using(crate::proofs::RequestLemmas::read_found))]
fn request(matches: &ArgMatches<'_>) -> Option<Request>
    ensures { result ≡ read (rows_of (found_of matches.now)) }
{
    let command = matches.get_str("command");
    let workers = matches.get_str("workers");
    let budget = matches.get_str("budget");
    let size = matches.get_str("size");
    requested(command, workers, budget, size)
}

/// The request of a command and the values of its options.
fn requested(
    command: Option<&str>,
    workers: Option<&str>,
    budget: Option<&str>,
    size: Option<&str>,
) -> Option<Request>
    ensures { result ≡ spec.requested (option_map (λ t. t.now) command.entry) (option_map (λ t. t.now) workers.entry)
        (option_map (λ t. t.now) budget.entry) (option_map (λ t. t.now) size.entry) }
{
    let command = command_named(command?)?;
    let workers = number_or(DEFAULT_WORKERS, MOST_WORKERS, workers)?;
    let budget = number_or(DEFAULT_BUDGET, MOST_BUDGET, budget)?;
    let size = number_or(DEFAULT_SIZE, MOST_SIZE, size)?;
    Some(Request {
        command,
        workers: workers as u8,
        budget,
        size: size as u8,
    })
}

/// The command of this name.
fn command_named(name: &str) -> Option<Command>
    ensures { result ≡ spec.command_of name.now }
{
    match name {
        "integrate" => Some(Command::Integrate),
        "check" => Some(Command::Check),
        "solve" => Some(Command::Solve),
        "sample" => Some(Command::Sample),
        _ => None,
    }
}
