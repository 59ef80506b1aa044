//! The arguments of `check`.

ghost use Rattle.std.specs.Prelude.{◌≡◌, IfOk, codes, false, option_map};
ghost use Rattle.std.specs.Option.{option_map_or};
ghost use Rattle.clap.specs.Simple.{app_of};
ghost use Rattle.clap.specs.Walk.{first_of, rule_of, texts};
ghost use Rattle.clap.specs.declared.builder.command.Command.TheViews.{out-Command as fields_of};
ghost use Rattle.uimg_cli.specs.KeyRequests.{key_asked, keying_of};
ghost use Rattle.uimg_cli.specs.Needs.{least_need};
ghost use Rattle.uimg_cli.specs.Check.{check, check_asked, checking_by, checking_limited, checking_of, checking_with};
ghost use Rattle.uimg_cli.specs.Check.{clash, images_rule, is_input, is_to_be_strict, reads_again};
ghost use Rattle.uimg_cli.specs.Readings.{given, texts_given};
ghost use Rattle.uimg_cli.specs.Wrong.{Tells, wrong_of};

use super::arguments::{titled, with, with_flag, with_long, with_switch};
use super::counts::{MAX_INPUT, most_input};
use super::help_notes::CHECK_NOTES;
use super::keys::{key_of, without_key};
use super::needs::{least_need, need_of};
use super::readings::{is_missing, is_output, is_set, text_of, values_of};
use super::{KeyRequest, WordsFault};
use clap::{Arg, ArgAction, ArgMatches};
use std::alloc::{AllocError, Global};
use uimg_base::Algo;

/// A check of images.
#[derive(Drop)]
pub struct CheckRequest<'a> {
    /// The weakest algorithm that is enough, if one is needed.
    pub need: Option<Algo>,

    /// Whether each image needs a hash, and each name in a configuration its image.
    pub is_strict: bool,

    /// The keys by which configurations must be signed, if they must.
    pub key: Option<KeyRequest<'a>>,

    /// The paths of the images; one may be `-`, for standard input.
    pub images: Vec<&'a str>,

    /// Whether a folder among them stands for the images below it.
    pub is_recursive: bool,

    /// The path of a file with the paths of further images, `-` for standard input.
    pub files_from: Option<&'a str>,

    /// Whether each path in that file ends with a NUL instead of a newline.
    pub has_nuls: bool,

    /// Whether to write a JSON object for each image instead of a line of text.
    pub as_json: bool,

    /// The path of a file for a JUnit report of the images, if one is requested.
    pub junit: Option<&'a str>,

    /// Whether images that are ok have no line.
    pub is_quiet: bool,

    /// Whether a list without a path is right.
    pub allows_none: bool,

    /// The most bytes that are read of standard input as an image.
    pub most_input: u64,
}

// What it is about, and the helps of its options.
const ABOUT: &str = "Check many images, and print a line for each";

const NEED: &str = "Require a hash by this algorithm or a stronger one";

const STRICT: &str = "Require hashes, images for all names, and a tree that U-Boot reads alike";

const KEY: &str = "Require each configuration to be signed by the key in this file";

const CONFIG: &str = "With --key: require only this configuration to be signed";

const SHA1: &str = "With --key: accept signatures over SHA-1";

const JSON: &str = "Print a JSON object for each image";

const JUNIT: &str = "Also write a JUnit report to this file, which is replaced";

const QUIET: &str = "Print no line for images that are ok";

const ALLOW_EMPTY: &str = "Accept a file of paths that has none";

const RECURSIVE: &str = "Check the images below each folder that is given";

const FILES_FROM: &str = "Also check the images whose paths are in this file, one a line";

const NULS: &str = "Paths in that file end with NUL, not with a newline";

pub(super) fn command<'a>(alloc: Global) -> Result<clap::Command<'a>, AllocError>
    ensures app { IfOk result (λ command. app_of command ≡ check) }
    ensures local { IfOk result (λ command. (fields_of command).has_globals ≡ false) }
{
    let command = titled(alloc, "check", ABOUT, CHECK_NOTES);
    let command = with_long(command, alloc, "need", "algo", NEED)?;
    let command = with_switch(command, alloc, "strict", STRICT)?;
    let command = with_long(command, alloc, "key", "[name=]file", KEY)?;
    let command = with_long(command, alloc, "config", "name", CONFIG)?;
    let command = with_switch(command, alloc, "allow-sha1", SHA1)?;
    let command = with_switch(command, alloc, "recursive", RECURSIVE)?;
    let command = with_long(command, alloc, "files-from", "file", FILES_FROM)?;
    let command = with_flag(command, alloc, "nuls", '0', NULS)?;
    let command = with_switch(command, alloc, "json", JSON)?;
    let command = with_long(command, alloc, "junit", "file", JUNIT)?;
    let command = with_switch(command, alloc, "quiet", QUIET)?;
    let command = with_switch(command, alloc, "allow-empty", ALLOW_EMPTY)?;
    let command = with_long(command, alloc, "max-input", "number", MAX_INPUT)?;
    with(command, images(alloc))
}

fn images<'a>(alloc: Global) -> Arg<'a>
    ensures rule { rule_of result ≡ images_rule }
    ensures local { result.global ≡ false }
{
    Arg::new(alloc, "image")
        .action(ArgAction::Append)
        .num_args(0..)
        .help("The images, - for standard input")
}

pub(super) fn request<'a>(
    alloc: Global,
    matches: &ArgMatches<'a>,
) -> Result<CheckRequest<'a>, WordsFault>
    ensures { Tells checking_of (check_asked (given matches.now)) result }
{
    match need_of(alloc, matches) {
        Ok(need) => request_with(alloc, matches, need),
        Err(fault) => Err(fault),
    }
}

fn request_with<'a>(
    alloc: Global,
    matches: &ArgMatches<'a>,
    need: Option<Algo>,
) -> Result<CheckRequest<'a>, WordsFault>
    ensures { Tells checking_of (checking_with (given matches.now) need) result }
{
    let files_from = text_of(matches, "files-from");
    let Ok(images) = images_of(alloc, matches) else {
        return Err(WordsFault::OutOfMemory);
    };
    if images.as_slice().is_empty() & is_missing(files_from) {
        return Err(WordsFault::NoImages);
    }
    match clash(matches, images.as_slice()) {
        Some(fault) => Err(fault),
        None => limited(alloc, matches, need, images),
    }
}

// Returns what is wrong with the options together.
fn clash(matches: &ArgMatches<'_>, images: &[&str]) -> Option<WordsFault>
    requires { texts images.now ≡ texts_given (codes "image") (given matches.now) }
    ensures { option_map wrong_of result ≡ clash (given matches.now) }
{
    if reads_again(reads_input(matches), images) {
        Some(WordsFault::InputTwice)
    } else if is_output(text_of(matches, "junit")) {
        Some(WordsFault::ToOutput("junit"))
    } else {
        without_key(matches, text_of(matches, "config"))
    }
}

// Returns whether the list of paths is standard input.
fn reads_input(matches: &ArgMatches<'_>) -> bool
    ensures { result ≡ option_map_or is_input (first_of (codes "files-from") (given matches.now))
        false }
{
    match text_of(matches, "files-from") {
        Some(path) => path == "-",
        None => false,
    }
}

fn reads_again(is_read: bool, images: &[&str]) -> bool
    ensures { result ≡ reads_again is_read (texts images.now) }
{
    let mut has_read = is_read;
    for path in images {
        if *path == "-" {
            if has_read {
                return true;
            }
            has_read = true;
        }
    }
    false
}

fn limited<'a>(
    alloc: Global,
    matches: &ArgMatches<'a>,
    need: Option<Algo>,
    images: Vec<&'a str>,
) -> Result<CheckRequest<'a>, WordsFault>
    requires { texts images.items ≡ texts_given (codes "image") (given matches.now) }
    ensures { Tells checking_of (checking_limited (given matches.now) need) result }
{
    match most_input(alloc, matches) {
        Ok(most_input) => Ok(request_for(matches, need, images, most_input)),
        Err(fault) => Err(fault),
    }
}

fn is_to_be_strict(matches: &ArgMatches<'_>) -> bool
    ensures { result ≡ is_to_be_strict (given matches.now) }
{
    is_set(matches, "strict") || !is_missing(text_of(matches, "key"))
}

fn check_need(matches: &ArgMatches<'_>, need: Option<Algo>) -> Option<Algo>
    ensures { result ≡ least_need (given matches.now) (is_to_be_strict (given matches.now)) need }
{
    least_need(matches, is_to_be_strict(matches), need)
}

fn check_key<'a>(matches: &ArgMatches<'a>) -> Option<KeyRequest<'a>>
    ensures { option_map keying_of result ≡ key_asked (given matches.now)
        (first_of (codes "config") (given matches.now)) }
{
    key_of(matches, text_of(matches, "config"))
}

fn request_for<'a>(
    matches: &ArgMatches<'a>,
    need: Option<Algo>,
    images: Vec<&'a str>,
    most_input: u64,
) -> CheckRequest<'a>
    requires { texts images.items ≡ texts_given (codes "image") (given matches.now) }
    ensures { checking_of result ≡ checking_by (given matches.now) need most_input }
{
    CheckRequest {
        need: check_need(matches, need),
        is_strict: is_to_be_strict(matches),
        key: check_key(matches),
        images,
        is_recursive: is_set(matches, "recursive"),
        files_from: text_of(matches, "files-from"),
        has_nuls: is_set(matches, "nuls"),
        as_json: is_set(matches, "json"),
        junit: text_of(matches, "junit"),
        is_quiet: is_set(matches, "quiet"),
        allows_none: is_set(matches, "allow-empty"),
        most_input,
    }
}

fn images_of<'a>(alloc: Global, matches: &ArgMatches<'a>) -> Result<Vec<&'a str>, AllocError>
    ensures { IfOk result (λ images.
        texts images.items ≡ texts_given (codes "image") (given matches.now)) }
{
    match values_of(matches, "image") {
        Some(values) => Vec::from_slice(alloc, values),
        None => Ok(Vec::new(alloc)),
    }
}
