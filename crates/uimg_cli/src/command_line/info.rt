//! The arguments of `info`.

ghost use Rattle.std.specs.Prelude.{◌≡◌, IfOk, false};
ghost use Rattle.clap.specs.Simple.{app_of};
ghost use Rattle.clap.specs.declared.builder.command.Command.TheViews.{out-Command as fields_of};
ghost use Rattle.uimg_cli.specs.Info.{info, info_asked, informing_of};
ghost use Rattle.uimg_cli.specs.Readings.{given};
ghost use Rattle.uimg_cli.specs.Wrong.{Tells};

use super::WordsFault;
use super::arguments::{titled, with_image, with_long, with_switch};
use super::counts::{MAX_INPUT, most_input};
use super::help_notes::INFO_NOTES;
use super::readings::text_or;
use clap::ArgMatches;
use std::alloc::{AllocError, Global};

/// A request for the facts of an image, as a JSON object.
#[derive(Drop)]
pub struct InfoRequest<'a> {
    /// The most bytes that are read of standard input.
    pub most_input: u64,

    /// The path of the image, `-` for standard input.
    pub image: &'a str,
}

// What it is about, and the help of an option.
const ABOUT: &str = "Print the facts of an image as JSON, for scripts";

const JSON: &str = "Print a JSON object (the default)";

pub(super) fn command<'a>(alloc: Global) -> Result<clap::Command<'a>, AllocError>
    ensures app { IfOk result (λ command. app_of command ≡ info) }
    ensures local { IfOk result (λ command. (fields_of command).has_globals ≡ false) }
{
    let command = titled(alloc, "info", ABOUT, INFO_NOTES);
    let command = with_switch(command, alloc, "json", JSON)?;
    let command = with_long(command, alloc, "max-input", "number", MAX_INPUT)?;
    with_image(command, alloc, "The image, - for standard input")
}

pub(super) fn request<'a>(
    alloc: Global,
    matches: &ArgMatches<'a>,
) -> Result<InfoRequest<'a>, WordsFault>
    ensures { Tells informing_of (info_asked (given matches.now)) result }
{
    let most_input = most_input(alloc, matches)?;
    Ok(InfoRequest {
        most_input,
        image: text_or(matches, "image", ""),
    })
}
