//! The arguments of `diff`.

ghost use Rattle.std.specs.Prelude.{◌≡◌, IfOk, false};
ghost use Rattle.clap.specs.Simple.{app_of};
ghost use Rattle.clap.specs.declared.builder.command.Command.TheViews.{out-Command as fields_of};
ghost use Rattle.uimg_cli.specs.Diff.{comparing_of, diff, diff_asked};
ghost use Rattle.uimg_cli.specs.Readings.{given};

use super::arguments::{titled, with_operand, with_switch};
use super::help_notes::DIFF_NOTES;
use super::readings::{is_set, text_or};
use clap::ArgMatches;
use std::alloc::{AllocError, Global};

/// A request for the differences of two images.
#[derive(Drop)]
pub struct DiffRequest<'a> {
    /// Whether each difference is a JSON object.
    pub as_json: bool,

    /// The path of the first image.
    pub old: &'a str,

    /// The path of the second image.
    pub new: &'a str,
}

// What it is about, and the help of its option.
const ABOUT: &str = "Compare two images by what they mean, and print a line for each difference";

const JSON: &str = "Print a JSON object for each difference";

#[tactic(auto, unfolding(crate::specs::Diff::diff))]
pub(super) fn command<'a>(alloc: Global) -> Result<clap::Command<'a>, AllocError>
    ensures app { IfOk result (λ command. app_of command ≡ diff) }
    ensures local { IfOk result (λ command. (fields_of command).has_globals ≡ false) }
{
    let command = titled(alloc, "diff", ABOUT, DIFF_NOTES);
    let command = with_switch(command, alloc, "json", JSON)?;
    let command = with_operand(command, alloc, "old", "The first image")?;
    with_operand(command, alloc, "new", "The second image")
}

pub(super) fn request<'a>(matches: &ArgMatches<'a>) -> DiffRequest<'a>
    ensures { comparing_of result ≡ diff_asked (given matches.now) }
{
    DiffRequest {
        as_json: is_set(matches, "json"),
        old: text_or(matches, "old", ""),
        new: text_or(matches, "new", ""),
    }
}
