//! The keys of a check or of an unpacking.

ghost use Rattle.std.specs.Prelude.{◌≡◌, option_map};
ghost use Rattle.uimg_cli.specs.KeyRequests.{is_key_name, key_asked, keying_of, named_path};
ghost use Rattle.uimg_cli.specs.KeyRequests.{without_key};
ghost use Rattle.uimg_cli.specs.Readings.{given};
ghost use Rattle.uimg_cli.specs.Wrong.{wrong_of};

use super::WordsFault;
use super::readings::{is_missing, is_set, text_of};
use clap::ArgMatches;

/// The keys by which configurations must be signed, and how.
#[derive(Clone, Copy, Debug, PartialEq, Eq)]
pub struct KeyRequest<'a> {
    /// The path of the file of keys.
    pub path: &'a str,

    /// The name that stands for them in a line, if one is given.
    pub name: Option<&'a str>,

    /// The name of the only configuration that must be signed, if it is not each.
    pub config: Option<&'a str>,

    /// Whether a signature over SHA-1 is enough.
    pub takes_sha1: bool,
}

// Returns the option that needs keys, if one is given without them.
pub(super) fn without_key(matches: &ArgMatches<'_>, config: Option<&str>) -> Option<WordsFault>
    ensures { option_map wrong_of result ≡ without_key (given matches.now)
        (option_map (λ name. name.now) config.entry) }
{
    if !is_missing(text_of(matches, "key")) {
        None
    } else if !is_missing(config) {
        Some(WordsFault::WithoutKey("config"))
    } else if is_set(matches, "allow-sha1") {
        Some(WordsFault::WithoutKey("allow-sha1"))
    } else {
        None
    }
}

pub(super) fn key_of<'a>(
    matches: &ArgMatches<'a>,
    config: Option<&'a str>,
) -> Option<KeyRequest<'a>>
    ensures { option_map keying_of result ≡ key_asked (given matches.now)
        (option_map (λ name. name.now) config.entry) }
{
    let text = text_of(matches, "key")?;
    let (name, path) = named_path(text);
    Some(KeyRequest {
        path,
        name,
        config,
        takes_sha1: is_set(matches, "allow-sha1"),
    })
}

// Returns the name before the first `=`, if there is one, and the path.
fn named_path(text: &str) -> (Option<&str>, &str)
    ensures { (option_map (λ name. name.now) result.0, result.1.now) ≡ named_path text.now }
{
    match text.split_once('=') {
        Some((name, path)) => {
            if is_name(name) {
                (Some(name), path)
            } else {
                (None, text)
            }
        }
        None => (None, text),
    }
}

// The first part of a path is no name.
fn is_name(text: &str) -> bool
    ensures { result ≡ is_key_name text.now }
{
    !text.is_empty() & !text.as_bytes().contains(&b'/')
}
