//! The arguments of `dumpimage`.

ghost use Rattle.std.specs.Prelude.{◌≡◌, IfOk, false, option_map};
ghost use Rattle.clap.specs.Simple.{app_of};
ghost use Rattle.clap.specs.declared.builder.command.Command.TheViews.{out-Command as fields_of};
ghost use Rattle.uimg_cli.specs.Dumpimage.{dumpimage, dumpimage_asked, extraction_asked};
ghost use Rattle.uimg_cli.specs.Dumpimage.{form_asked, listing_asked, position_asked};
ghost use Rattle.uimg_cli.specs.Readings.{given};
ghost use Rattle.uimg_cli.specs.Runs.{run_of};
ghost use Rattle.uimg_cli.specs.Wrong.{told};

use super::WordsFault;
use super::arguments::{titled, with_flag, with_image, with_value};
use super::help_notes::DUMPIMAGE_NOTES;
use super::readings::{decimal, is_set, text_of, text_or};
use clap::ArgMatches;
use std::alloc::{AllocError, Global};
use uimg_base::{FLAT_DT, kind_code};
use uimg_requests::{Action, Command, Form, RunRequest};
use uimg_texts::Naming;

// What it is about, and the helps of its options.
const ABOUT: &str = "List an image, or extract a part of it";

const LIST: &str = "List the image on standard output";

const TYPE: &str = "Read the image as a FIT or legacy image, by a short name below";

const POSITION: &str = "Extract the part or payload at this position, counted from 0";

const OUTFILE: &str = "Write the part or payload to this file";

pub(super) fn command<'a>(alloc: Global) -> Result<clap::Command<'a>, AllocError>
    ensures app { IfOk result (λ command. app_of command ≡ dumpimage) }
    ensures local { IfOk result (λ command. (fields_of command).has_globals ≡ false) }
{
    let command = titled(alloc, "dumpimage", ABOUT, DUMPIMAGE_NOTES);
    let command = with_flag(command, alloc, "list", 'l', LIST)?;
    let command = with_value(command, alloc, "type", 'T', TYPE)?;
    let command = with_value(command, alloc, "position", 'p', POSITION)?;
    let command = with_value(command, alloc, "outfile", 'o', OUTFILE)?;
    with_image(command, alloc, "The image")
}

pub(super) fn request<'a>(matches: &ArgMatches<'a>) -> Result<RunRequest<'a>, WordsFault>
    ensures { told run_of result ≡ dumpimage_asked (given matches.now) }
{
    match (is_set(matches, "list"), text_of(matches, "outfile")) {
        (true, _) => listing(matches),
        (false, Some(outfile)) => extraction(matches, outfile),
        (false, None) => Err(WordsFault::NoListOrOutfile),
    }
}

fn listing<'a>(matches: &ArgMatches<'a>) -> Result<RunRequest<'a>, WordsFault>
    ensures { told run_of result ≡ listing_asked (given matches.now) }
{
    let form = form(text_of(matches, "type"))?;
    Ok(RunRequest {
        command: Command {
            action: Action::List,
            form,
        },
        naming: Naming::Profile,
        image: text_or(matches, "image", ""),
        outfile: None,
    })
}

fn extraction<'a>(matches: &ArgMatches<'a>, outfile: &'a str) -> Result<RunRequest<'a>, WordsFault>
    ensures { told run_of result ≡ extraction_asked (given matches.now) outfile.entry.now }
{
    let form = form(text_of(matches, "type"))?;
    let position = position(text_of(matches, "position"))?;
    Ok(RunRequest {
        command: Command {
            action: Action::Extract(position),
            form,
        },
        naming: Naming::Profile,
        image: text_or(matches, "image", ""),
        outfile: Some(outfile),
    })
}

// Without a name, the format is a guess.
fn form(name: Option<&str>) -> Result<Form, WordsFault>
    ensures { told (λ form. form) result ≡ form_asked (option_map (λ text. text.now) name.entry) }
{
    let Some(name) = name else {
        return Ok(Form::Guess);
    };
    match kind_code(name.as_bytes()) {
        Some(FLAT_DT) => Ok(Form::Fit),
        Some(_) => Ok(Form::Legacy),
        None => Err(WordsFault::UnknownName),
    }
}

// 0 without the option.
fn position(text: Option<&str>) -> Result<u32, WordsFault>
    ensures { told (λ position. position) result
        ≡ position_asked (option_map (λ text. text.now) text.entry) }
{
    match text {
        Some(text) => decimal(text).ok_or(WordsFault::BadNumber),
        None => Ok(0),
    }
}
