//! The algorithm of --need.

ghost use Rattle.std.specs.Prelude.{◌≡◌, Err, Option, Result};
ghost use Rattle.uimg_cli.specs.Needs.{least_need, need_asked, need_of_keys, need_of_strict, need_without};
ghost use Rattle.uimg_cli.specs.Readings.{given};
ghost use Rattle.uimg_cli.specs.Wrong.{IsWrong, Tells, Wrong, unknown_algo, wrong_of};
ghost use Rattle.uimg_sums.specs.declared.algo.Algo.{Algo};

use super::WordsFault;
use super::readings::{is_missing, is_set, text_of};
use clap::ArgMatches;
use std::alloc::Global;
use uimg_base::Algo;

pub(super) fn need_of(alloc: Global, matches: &ArgMatches<'_>) -> Result<Option<Algo>, WordsFault>
    ensures { Tells (λ need. need) (need_asked (given matches.now)) result }
{
    let Some(name) = text_of(matches, "need") else {
        return Ok(None);
    };
    match Algo::named(name.as_bytes()) {
        Some(algo) => Ok(Some(algo)),
        None => Err(unknown_algo(alloc, name)),
    }
}

/// Returns the weakest algorithm that is enough, if one is needed: that of `--need`, or else the one
/// that keys need, or a strict check.
pub(super) fn least_need(
    matches: &ArgMatches<'_>,
    is_strict: bool,
    need: Option<Algo>,
) -> Option<Algo>
    ensures { result ≡ least_need (given matches.now) is_strict need }
{
    match need {
        Some(need) => Some(need),
        None => need_without(matches, is_strict),
    }
}

fn need_without(matches: &ArgMatches<'_>, is_strict: bool) -> Option<Algo>
    ensures { result ≡ need_without (given matches.now) is_strict }
{
    if is_missing(text_of(matches, "key")) {
        need_of_strict(is_strict)
    } else {
        Some(need_of_keys(is_set(matches, "allow-sha1")))
    }
}

// Whoever makes another payload with the same digest needs no key.
fn need_of_keys(takes_sha1: bool) -> Algo
    ensures { result ≡ need_of_keys takes_sha1 }
{
    if takes_sha1 { Algo::Sha1 } else { Algo::Sha256 }
}

fn need_of_strict(is_strict: bool) -> Option<Algo>
    ensures { result ≡ need_of_strict is_strict }
{
    if is_strict { Some(Algo::Crc32) } else { None }
}

fn unknown_algo(alloc: Global, name: &str) -> WordsFault
    ensures { (any : Result (Option Algo) Wrong) → any ≡ Err (unknown_algo name.now)
        → IsWrong any (wrong_of result) }
{
    match String::from_str(alloc, name) {
        Ok(name) => WordsFault::UnknownAlgo(name),
        Err(_) => WordsFault::OutOfMemory,
    }
}
