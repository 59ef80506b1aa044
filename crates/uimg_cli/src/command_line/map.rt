//! The arguments of `map`.

ghost use Rattle.std.specs.Prelude.{◌≡◌, IfOk, codes, false};
ghost use Rattle.clap.specs.Simple.{app_of};
ghost use Rattle.clap.specs.declared.builder.command.Command.TheViews.{out-Command as fields_of};
ghost use Rattle.uimg_cli.specs.Map.{map_asked, map_command, mapping_of};
ghost use Rattle.uimg_cli.specs.Readings.{given};
ghost use Rattle.uimg_cli.specs.Wrong.{Tells};

use super::WordsFault;
use super::arguments::{titled, with_image, with_long, with_switch};
use super::counts::{MAX_INPUT, most_input};
use super::help_notes::MAP_NOTES;
use super::readings::{is_output, is_set, text_of, text_or};
use clap::ArgMatches;
use std::alloc::{AllocError, Global};

/// A request for the map of an image's file.
#[derive(Drop)]
pub struct MapRequest<'a> {
    /// The path of a file for the map as a picture, if it is not printed as lines.
    pub picture: Option<&'a str>,

    /// Whether an existing file is replaced by the picture.
    pub is_forced: bool,

    /// The most bytes that are read of standard input.
    pub most_input: u64,

    /// The path of the image, `-` for standard input.
    pub image: &'a str,
}

// What it is about, and the helps of its options.
const ABOUT: &str = "Show the layout of an image's file, even of a broken one";

const SVG: &str = "Write a picture to this file instead of printing lines";

const FORCE: &str = "Replace a file that exists by the picture";

pub(super) fn command<'a>(alloc: Global) -> Result<clap::Command<'a>, AllocError>
    ensures app { IfOk result (λ command. app_of command ≡ map_command) }
    ensures local { IfOk result (λ command. (fields_of command).has_globals ≡ false) }
{
    let command = titled(alloc, "map", ABOUT, MAP_NOTES);
    let command = with_long(command, alloc, "svg", "file", SVG)?;
    let command = with_switch(command, alloc, "force", FORCE)?;
    let command = with_long(command, alloc, "max-input", "number", MAX_INPUT)?;
    with_image(command, alloc, "The image, - for standard input")
}

pub(super) fn request<'a>(
    alloc: Global,
    matches: &ArgMatches<'a>,
) -> Result<MapRequest<'a>, WordsFault>
    ensures { Tells mapping_of (map_asked (given matches.now)) result }
{
    let picture = text_of(matches, "svg");
    if is_output(picture) {
        return Err(WordsFault::ToOutput("svg"));
    }
    let most_input = most_input(alloc, matches)?;
    Ok(MapRequest {
        picture,
        is_forced: is_set(matches, "force"),
        most_input,
        image: text_or(matches, "image", ""),
    })
}
