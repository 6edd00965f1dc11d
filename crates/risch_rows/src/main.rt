//! The program `risch_rows`: it plays two tables of cases through `run_here` of `risch_cli`, and tells each difference.
//!
//! The tables stand on standard input, with a line `end of table` between them. Their form is that of the tables of `risch_tables`. The first is the table of the product: none of its cases differs from what it expects. In the second the cases are wrong or badly written,
//! each in one place: what is told of it shows that each difference is told, and in which words.
//!
//! Of each table the program prints a block for each place where a run is not as expected, and a line for each line or case of the table that is
//! badly written. The last line is `N cases, M differences`. The exit status is 0 where M is 0 for the first table, else 1.
//!
//! A case is a run: what `run_here` is given, and what it has to answer.
//!
//! ```text
//! case the integral of a square
//! words risch integrate
//! input integrate x^2\n
//! out integral\npart 1/3*x^3\nend\n
//! status 0
//! ```
//!
//! | Key | Value |
//! |---|---|
//! | `words` | the words of the command line, one blank between two; none may stand |
//! | `input`, `out`, `err` | text, which is appended to what the source holds, or to what each sink is to take |
//! | `input-repeat` | a number and a text, which is appended to the input that many times |
//! | `source-piece`, `out-piece`, `err-piece` | the most bytes of one call, from 1; 4,096 where the line is missing |
//! | `source-fails`, `out-fails`, `err-fails` | the numbers of the calls that fail, from 0 |
//! | `out-room`, `err-room` | how many bytes the sink has room for; 65,536 where the line is missing |
//! | `status` | the status, from 0 to 255 |
//!
//! In a text and in a word `\n`, `\t`, `\r`, `\s` and `\\` stand for a line end, a tab, a carriage return, a blank and
//! a backslash, and `\x` with two hexadecimal digits stands for any byte. Each case has `words` and `status`. Only
//! `input`, `input-repeat`, `out` and `err` may stand more than once in a case.
//!
//! Each of the three, out, err and status, that is not as expected is a difference, and no other is: that is what the contracts say. Out
//! and err are told in one line each, with these escapes.
#![tactic(auto)]

mod calls;
mod case;
mod escape;
mod outcome;
mod value;

use case::RunCase;
use risch_tables::{Report, play};
use std::io;
use std::process::ExitCode;

const BETWEEN: &str = "\nend of table\n";

fn tell(rt: HostRuntime, table: &str) -> io::Result<Report> {
    let report = play::<RunCase>(rt.alloc(), table)?;
    rt.print(report.text(rt.alloc())?.as_str())?;
    Ok(report)
}

fn main(rt: HostRuntime) -> io::Result<ExitCode> {
    let tables = io::read_to_string(rt.alloc(), rt.stdin())?;
    let whole = tables.as_str();
    let (right, wrong) = whole.split_once(BETWEEN).unwrap_or((whole, ""));
    let report = tell(rt, right)?;
    tell(rt, wrong)?;
    Ok(report.exit_code())
}
