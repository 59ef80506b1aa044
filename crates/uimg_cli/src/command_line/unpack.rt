//! The arguments of `unpack`.

ghost use Rattle.std.specs.Prelude.{◌≡◌, IfOk, codes, false, option_map};
ghost use Rattle.clap.specs.Simple.{app_of, new_rule};
ghost use Rattle.clap.specs.Walk.{rule_of};
ghost use Rattle.clap.specs.declared.builder.command.Command.TheViews.{out-Command as fields_of};
ghost use Rattle.uimg_cli.specs.Readings.{given};
ghost use Rattle.uimg_cli.specs.Rules.{with_rules};
ghost use Rattle.uimg_cli.specs.Unpack.{chosen_rules, clash, need_rule, unpack};
ghost use Rattle.uimg_cli.specs.Unpack.{unpack_asked, unpacking_limited, unpacking_of};
ghost use Rattle.uimg_cli.specs.Unpack.{unpacking_with, written_rules};
ghost use Rattle.uimg_cli.specs.Wrong.{Tells, wrong_of};

use super::arguments::{titled, with, with_long, with_switch, with_value};
use super::counts::{MAX_INPUT, most_input, number_of};
use super::help_notes::UNPACK_NOTES;
use super::keys::{key_of, without_key};
use super::needs::{least_need, need_of};
use super::readings::{is_missing, is_set, text_of, text_or};
use super::{KeyRequest, WordsFault};
use clap::{Arg, ArgAction, ArgMatches};
use std::alloc::{AllocError, Global};
use uimg_base::Algo;

/// A request to unpack an image.
#[derive(Drop)]
pub struct UnpackRequest<'a> {
    /// The folder for its payloads.
    pub folder: &'a str,

    /// The image's name, or the part's file name, if only one is requested.
    pub only: Option<&'a str>,

    /// The name of the configuration whose images are requested, if one is chosen.
    pub config: Option<&'a str>,

    /// The weakest algorithm that is enough, if one is needed.
    pub need: Option<Algo>,

    /// The keys by which each configuration must be signed, if they must.
    pub key: Option<KeyRequest<'a>>,

    /// Whether existing files are replaced.
    pub is_forced: bool,

    /// Whether good payloads are kept if another one is refused.
    pub keeps_good: bool,

    /// Whether files are written to the disk before they get their names.
    pub is_synced: bool,

    /// Whether to print a JSON object for each payload instead of a line of text.
    pub as_json: bool,

    /// Whether the temporary files of commands that were stopped are removed from the folder.
    pub cleans: bool,

    /// The greatest number of files.
    pub most_files: u64,

    /// The greatest number of bytes, if there is one.
    pub most_bytes: Option<u64>,

    /// The most bytes that are read of standard input.
    pub most_input: u64,

    /// The path of the image, `-` for standard input, if it is unpacked.
    pub image: Option<&'a str>,
}

/// The greatest number of files, without an option.
const MOST_FILES: u64 = 4096;

// What it is about, and the helps of its options.
const ABOUT: &str = "Write the payloads of an image to a folder, if their hashes are right";

const ONLY: &str = "Unpack only the payload of the image of this name, or one part: image-0";

const CONFIG: &str = "Unpack only what this configuration names; default: the default one";

const NEED: &str = "Require a hash by this algorithm or a stronger one";

const KEY: &str = "Unpack only if each configuration is signed by the key in this file";

const SHA1: &str = "With --key: accept signatures over SHA-1";

const FORCE: &str = "Replace files that exist";

const FOLDER: &str = "Write the files to this folder, which must exist";

const JSON: &str = "Print a JSON object for each payload or part";

const KEEP_GOOD: &str = "Keep the good payloads if another one is refused";

const NO_SYNC: &str = "Do not wait until the files are on the disk";

const MAX_FILES: &str = "Unpack nothing if there are more files (4096)";

const MAX_BYTES: &str = "Unpack nothing if the files have more bytes together";

const CLEAN: &str = "Remove the temporary files that stopped commands left in the folder";

pub(super) fn command<'a>(alloc: Global) -> Result<clap::Command<'a>, AllocError>
    ensures app { IfOk result (λ command. app_of command ≡ unpack) }
    ensures local { IfOk result (λ command. (fields_of command).has_globals ≡ false) }
{
    let command = titled(alloc, "unpack", ABOUT, UNPACK_NOTES);
    let command = chosen_options(alloc, command)?;
    let command = written_options(alloc, command)?;
    let command = with_switch(command, alloc, "json", JSON)?;
    let command = with_switch(command, alloc, "clean", CLEAN)?;
    with(command, image(alloc))
}

// With --clean the image may be left out.
fn image<'a>(alloc: Global) -> Arg<'a>
    ensures rule { rule_of result ≡ new_rule (codes "image") }
    ensures local { result.global ≡ false }
{
    Arg::new(alloc, "image").help("The image, - for standard input")
}

#[tactic(auto, unfolding(crate::specs::Unpack::chosen_rules))]
fn chosen_options<'a>(
    alloc: Global,
    command: clap::Command<'a>,
) -> Result<clap::Command<'a>, AllocError>
    ensures app { IfOk result (λ new. app_of new ≡ with_rules chosen_rules (app_of command.entry)) }
    ensures local { IfOk result (λ new.
        (fields_of new).has_globals ≡ (fields_of command.entry).has_globals) }
{
    let command = with_value(command, alloc, "folder", 'C', FOLDER)?;
    let command = with_long(command, alloc, "only", "name", ONLY)?;
    let command = with_long(command, alloc, "config", "name", CONFIG)?;
    let command = with(command, need(alloc)?)?;
    let command = with_long(command, alloc, "key", "[name=]file", KEY)?;
    with_switch(command, alloc, "allow-sha1", SHA1)
}

fn written_options<'a>(
    alloc: Global,
    command: clap::Command<'a>,
) -> Result<clap::Command<'a>, AllocError>
    ensures app { IfOk result (λ new. app_of new ≡ with_rules written_rules (app_of command.entry)) }
    ensures local { IfOk result (λ new.
        (fields_of new).has_globals ≡ (fields_of command.entry).has_globals) }
{
    let command = with_switch(command, alloc, "force", FORCE)?;
    let command = with_switch(command, alloc, "keep-good", KEEP_GOOD)?;
    let command = with_switch(command, alloc, "no-sync", NO_SYNC)?;
    let command = with_long(command, alloc, "max-files", "number", MAX_FILES)?;
    let command = with_long(command, alloc, "max-bytes", "number", MAX_BYTES)?;
    with_long(command, alloc, "max-input", "number", MAX_INPUT)
}

// The option has two names.
fn need<'a>(alloc: Global) -> Result<Arg<'a>, AllocError>
    ensures rule { IfOk result (λ need. rule_of need ≡ need_rule) }
    ensures local { IfOk result (λ need. need.global ≡ false) }
{
    let need = Arg::new(alloc, "need").long("need").alias("need-hash")?;
    Ok(need.action(ArgAction::Set).value_name("algo").help(NEED))
}

pub(super) fn request<'a>(
    alloc: Global,
    matches: &ArgMatches<'a>,
) -> Result<UnpackRequest<'a>, WordsFault>
    ensures { Tells unpacking_of (unpack_asked (given matches.now)) result }
{
    match need_of(alloc, matches) {
        Ok(need) => request_with(alloc, matches, need),
        Err(fault) => Err(fault),
    }
}

fn request_with<'a>(
    alloc: Global,
    matches: &ArgMatches<'a>,
    need: Option<Algo>,
) -> Result<UnpackRequest<'a>, WordsFault>
    ensures { Tells unpacking_of (unpacking_with (given matches.now) need) result }
{
    match clash(matches) {
        Some(fault) => Err(fault),
        None => limited(alloc, matches, need),
    }
}

// Returns what is wrong with the options together.
fn clash(matches: &ArgMatches<'_>) -> Option<WordsFault>
    ensures { option_map wrong_of result ≡ clash (given matches.now) }
{
    let cleans = is_set(matches, "clean");
    if text_or(matches, "folder", ".").is_empty() {
        Some(WordsFault::NoFolder)
    } else if is_missing(text_of(matches, "image")) & !cleans {
        Some(WordsFault::NoImages)
    } else if is_set(matches, "json") & cleans {
        Some(WordsFault::CleansWithJson)
    } else if !is_missing(text_of(matches, "only")) & !is_missing(text_of(matches, "config")) {
        Some(WordsFault::OnlyWithConfig)
    } else {
        without_key(matches, None)
    }
}

fn limited<'a>(
    alloc: Global,
    matches: &ArgMatches<'a>,
    need: Option<Algo>,
) -> Result<UnpackRequest<'a>, WordsFault>
    ensures { Tells unpacking_of (unpacking_limited (given matches.now) need) result }
{
    let files = number_of(alloc, matches, "max-files")?;
    let bytes = number_of(alloc, matches, "max-bytes")?;
    let most_input = most_input(alloc, matches)?;
    Ok(UnpackRequest {
        folder: text_or(matches, "folder", "."),
        only: text_of(matches, "only"),
        config: text_of(matches, "config"),
        need: least_need(matches, false, need),
        key: key_of(matches, None),
        is_forced: is_set(matches, "force"),
        keeps_good: is_set(matches, "keep-good"),
        is_synced: !is_set(matches, "no-sync"),
        as_json: is_set(matches, "json"),
        cleans: is_set(matches, "clean"),
        most_files: files.unwrap_or(MOST_FILES),
        most_bytes: bytes,
        most_input,
        image: text_of(matches, "image"),
    })
}
