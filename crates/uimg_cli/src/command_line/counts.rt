//! The numbers of options, and how many bytes of standard input are read.

ghost use Rattle.std.specs.Prelude.{◌≡◌, Err, Option, Result, ℕ};
ghost use Rattle.uimg_cli.specs.Counts.{count_asked, most_input_asked};
ghost use Rattle.uimg_cli.specs.Readings.{given};
ghost use Rattle.uimg_cli.specs.Wrong.{IsWrong, Tells, Wrong, not_number, wrong_of};

use super::WordsFault;
use super::readings::{count, text_of};
use clap::ArgMatches;
use std::alloc::Global;

/// The most bytes of standard input, without an option: 4 GiB.
const MOST_INPUT: u64 = 4_294_967_296;

pub(super) const MAX_INPUT: &str = "Read at most this many bytes of standard input (4 GiB)";

pub(super) fn most_input(alloc: Global, matches: &ArgMatches<'_>) -> Result<u64, WordsFault>
    ensures { Tells (λ most. most) (most_input_asked (given matches.now)) result }
{
    match number_of(alloc, matches, "max-input") {
        Ok(most) => Ok(most.unwrap_or(MOST_INPUT)),
        Err(fault) => Err(fault),
    }
}

// Reads decimal digits of a number below 2^64.
pub(super) fn number_of(
    alloc: Global,
    matches: &ArgMatches<'_>,
    id: &'static str,
) -> Result<Option<u64>, WordsFault>
    ensures { Tells (λ number. number) (count_asked id.now (given matches.now)) result }
{
    let Some(text) = text_of(matches, id) else {
        return Ok(None);
    };
    match count(text) {
        Some(number) => Ok(Some(number)),
        None => Err(not_number(alloc, id, text)),
    }
}

fn not_number(alloc: Global, id: &'static str, text: &str) -> WordsFault
    ensures { (any : Result (Option ℕ) Wrong) → any ≡ Err (not_number id.now text.now)
        → IsWrong any (wrong_of result) }
{
    match String::from_str(alloc, text) {
        Ok(text) => WordsFault::NotNumber(id, text),
        Err(_) => WordsFault::OutOfMemory,
    }
}
