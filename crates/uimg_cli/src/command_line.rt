//! The request of a command line.

ghost use Rattle.std.specs.Prelude.{◌≡◌, Err, Result, option_map, true};
ghost use Rattle.clap.specs.Faults.{is_simple_and_free};
ghost use Rattle.clap.specs.Simple.{app_of, subcommand_rows_of};
ghost use Rattle.clap.specs.Values.{kind_of};
ghost use Rattle.clap.specs.Walk.{texts};
ghost use Rattle.uimg_cli.specs.CommandLines.{TellsOneOf, refusal, request_asked, uimg};
ghost use Rattle.uimg_cli.specs.CommandLines.{words_asked};
ghost use Rattle.uimg_cli.specs.Parsed.{Parsed};
ghost use Rattle.uimg_cli.specs.Reading.{ReadsWords};
ghost use Rattle.clap.specs.declared.error.kind.ErrorKind.TheVariants as kind;
ghost use Rattle.uimg_cli.specs.Wanted.{Wanted, wanted_of};
ghost use Rattle.uimg_cli.specs.Wrong.{IsWrong, Tells, Wrong, no_command, wrong_of};

mod arguments;
mod check;
mod complaints;
mod counts;
mod diff;
mod dumpimage;
mod help_notes;
mod info;
mod keys;
mod map;
mod mkimage;
mod needs;
mod readings;
mod subcommands;
mod unpack;
mod verify;
mod words_fault;

pub use check::CheckRequest;
use clap::error::ErrorKind;
use clap::{ArgMatches, Command};
use complaints::complaint;
pub use diff::DiffRequest;
pub use info::InfoRequest;
pub use keys::KeyRequest;
pub use map::MapRequest;
use std::alloc::Global;
use subcommands::{commands, request_by};
use uimg_requests::{MakeRequest, RunRequest};
pub use unpack::UnpackRequest;
pub use words_fault::WordsFault;

/// The request of a command line.
#[derive(Drop)]
pub enum Asked<'a> {
    /// A command on one image, a build of one, or a text.
    One(Request<'a>),

    /// A check of any number of images.
    Check(CheckRequest<'a>),

    /// The unpacking of an image.
    Unpack(UnpackRequest<'a>),

    /// The map of an image's file.
    Map(MapRequest<'a>),

    /// The facts of an image.
    Info(InfoRequest<'a>),

    /// The differences of two images.
    Diff(DiffRequest<'a>),
}

/// A command on an image, a build of one, or a text.
#[derive(Drop)]
pub enum Request<'a> {
    /// A command on an image.
    Run(RunRequest<'a>),

    /// The build of an image.
    Make(MakeRequest<'a>),

    /// This text: help or the version.
    Show(clap::Error),
}

/// Reads the arguments of a command line; the program's name is the first. `epoch` is
/// SOURCE_DATE_EPOCH if it is set, and `now` the current time in seconds since 1970. Returns
/// exactly the request of the arguments, or what is wrong with them, unless memory runs out.
#[tactic(auto, unfolding(crate::specs::Reading::ReadsWords))]
pub fn read_words<'a>(
    alloc: Global,
    words: &'a [&'a str],
    epoch: Option<&str>,
    now: u32,
) -> Result<Asked<'a>, WordsFault>
    ensures { ReadsWords (option_map (λ text. text.now) epoch.entry) now (texts words.entry.now)
        result }
{
    match commands(alloc) {
        Ok(command) => read_by(alloc, command, words, epoch, now),
        Err(_) => Err(WordsFault::OutOfMemory),
    }
}

fn read_by<'a>(
    alloc: Global,
    command: Command<'a>,
    words: &'a [&'a str],
    epoch: Option<&str>,
    now: u32,
) -> Result<Asked<'a>, WordsFault>
    requires { app_of command ≡ uimg }
    ensures { TellsOneOf wanted_of (words_asked (option_map (λ text. text.now) epoch.entry) now
        (texts words.entry.now)) result }
{
    match parsed(command, words) {
        Ok(matches) => request_of(alloc, &matches, epoch, now),
        Err(error) => without_matches(alloc, error),
    }
}

fn parsed<'a>(command: Command<'a>, words: &'a [&'a str]) -> Result<ArgMatches<'a>, clap::Error>
    requires simple { is_simple_and_free (app_of command) ≡ true }
    ensures { Parsed (app_of command.entry) (texts words.entry.now) result }
{
    match command.try_get_matches_from(words) {
        Ok(matches) => Ok(matches),
        Err(error) => Err(error),
    }
}

fn request_of<'a>(
    alloc: Global,
    matches: &ArgMatches<'a>,
    epoch: Option<&str>,
    now: u32,
) -> Result<Asked<'a>, WordsFault>
    ensures { Tells wanted_of (request_asked (option_map (λ text. text.now) epoch.entry) now
        (subcommand_rows_of matches.now)) result }
{
    match matches.subcommand() {
        Some((name, own)) => request_by(alloc, name, own, epoch, now),
        None => Err(WordsFault::NoSubcommand),
    }
}

// Returns the request for help or for the version, or the fault, if the command line library finds
// no command.
fn without_matches<'a>(alloc: Global, error: clap::Error) -> Result<Asked<'a>, WordsFault>
    ensures asked { Tells wanted_of (refusal (kind_of error)) result }
    ensures memory { kind_of error ≡ kind.OutOfMemory → (any : Result Wanted Wrong)
        → Tells wanted_of any result }
{
    match error.kind() {
        ErrorKind::DisplayHelp => Ok(Asked::One(Request::Show(error))),
        ErrorKind::DisplayVersion => Ok(Asked::One(Request::Show(error))),
        ErrorKind::OutOfMemory => Err(WordsFault::OutOfMemory),
        _ => Err(no_command(alloc, &error)),
    }
}

fn no_command(alloc: Global, error: &clap::Error) -> WordsFault
    ensures { (any : Result Wanted Wrong) → any ≡ Err no_command
        → IsWrong any (wrong_of result) }
{
    match complaint(alloc, error) {
        Ok(text) => WordsFault::NoCommand(text),
        Err(_) => WordsFault::OutOfMemory,
    }
}
