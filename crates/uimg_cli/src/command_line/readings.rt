//! The values of arguments.

ghost use Rattle.std.specs.Prelude.{◌≡◌, is_none, option_map};
ghost use Rattle.clap.specs.Walk.{all_of, first_of, texts};
ghost use Rattle.uimg_cli.specs.Readings.{IsCount, count_of, decimal_of, given};
ghost use Rattle.uimg_cli.specs.Readings.{hexadecimal_of, is_output, is_set, text_or};

use clap::ArgMatches;

// The first value counts.
pub(super) fn text_of<'a>(matches: &ArgMatches<'a>, id: &str) -> Option<&'a str>
    ensures { option_map (λ text. text.now) result ≡ first_of id.now (given matches.now) }
{
    matches.get_str(id)
}

pub(super) fn text_or<'a>(matches: &ArgMatches<'a>, id: &str, default: &'a str) -> &'a str
    ensures { result.now ≡ text_or id.now (given matches.now) default.entry.now }
{
    match text_of(matches, id) {
        Some(text) => text,
        None => default,
    }
}

pub(super) fn values_of<'m, 'a>(matches: &'m ArgMatches<'a>, id: &str) -> Option<&'m [&'a str]>
    ensures { option_map (λ values. texts values.now) result ≡ all_of id.now (given matches.now) }
{
    matches.get_strs(id)
}

pub(super) fn is_missing(text: Option<&str>) -> bool
    ensures { result ≡ is_none (option_map (λ word. word.now) text.entry) }
{
    text.is_none()
}

// Returns whether a path would be standard output.
pub(super) fn is_output(path: Option<&str>) -> bool
    ensures { result ≡ is_output (option_map (λ text. text.now) path.entry) }
{
    match path {
        Some(path) => path == "-",
        None => false,
    }
}

pub(super) fn is_set(matches: &ArgMatches<'_>, id: &str) -> bool
    ensures { result ≡ is_set id.now (given matches.now) }
{
    match text_of(matches, id) {
        Some(text) => text == "true",
        None => false,
    }
}

#[tactic(auto, using(crate::proofs::Numbers::number_is))]
pub(super) fn decimal(text: &str) -> Option<u32>
    ensures { result ≡ decimal_of text.now }
{
    uimg_requests::decimal(text)
}

#[tactic(auto, using(crate::proofs::Numbers::hexadecimal_is))]
pub(super) fn hexadecimal(text: &str) -> Option<u32>
    ensures { result ≡ hexadecimal_of text.now }
{
    uimg_requests::hexadecimal(text)
}

// The text is decimal.
#[tactic(auto, using(crate::proofs::Numbers::count_is))]
pub(super) fn count(text: &str) -> Option<u64>
    ensures { result ≡ count_of text.now }
{
    digits(text)
}

// The standard library would accept a plus before the digits.
fn digits(text: &str) -> Option<u64>
    ensures { IsCount text.now result }
{
    if text.starts_with('+') {
        return None;
    }
    u64::from_str_radix(text, 10).ok()
}
