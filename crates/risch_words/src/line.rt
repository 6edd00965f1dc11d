// The command line, as `clap` reads it.
ghost use Rattle.std.specs.Prelude.{◌≡◌, IfOk, IsErrOf, None, false};
ghost use Rattle.clap.specs.Matches.{found_of};
ghost use Rattle.clap.specs.Simple.{app_of};
ghost use Rattle.clap.specs.Walk.{rows_of, rule_of};
ghost use Rattle.risch_words.specs.Line.{bare, command_rule, line, option_rule, read};
ghost use Rattle.risch_words.specs.Words.{asked, texts};

use crate::fault::WordsFault;
use clap::{Arg, ArgMatches, Command};
use std::alloc::{AllocError, Global};

/// The command and the three options.
fn command_line<'a>(alloc: Global) -> Result<Command<'a>, AllocError>
    ensures { IfOk result (λ c. app_of c ≡ line) }
{
    program(alloc)
        .arg(required_word(alloc))?
        .arg(option(alloc, "workers"))?
        .arg(option(alloc, "budget"))?
        .arg(option(alloc, "size"))
}

/// The program's name, with no help flag and no version flag.
fn program<'a>(alloc: Global) -> Command<'a>
    ensures { app_of result ≡ bare }
{
    Command::new(alloc, "risch")
        .disable_help_flag(true)
        .disable_version_flag(true)
}

/// The one word that is required.
fn required_word<'a>(alloc: Global) -> Arg<'a>
    ensures rule { rule_of result ≡ command_rule }
    ensures local { result.global ≡ false }
{
    Arg::new(alloc, "command").required(true)
}

/// An option with a value.
fn option<'a>(alloc: Global, name: &'a str) -> Arg<'a>
    ensures rule { rule_of result ≡ option_rule name.entry.now }
    ensures local { result.global ≡ false }
{
    Arg::new(alloc, name).long(name)
}

/// The values that stand among the words.
pub(crate) fn parse<'a>(alloc: Global, words: &'a [&'a str]) -> Result<ArgMatches<'a>, WordsFault>
    ensures read { IfOk result (λ m. asked (texts words.now) ≡ read (rows_of (found_of m))) }
    ensures usage { IsErrOf result WordsFault.Usage → asked (texts words.now) ≡ None }
{
    let line = command_line(alloc)?;
    let matches = line.try_get_matches_from(words)?;
    Ok(matches)
}
