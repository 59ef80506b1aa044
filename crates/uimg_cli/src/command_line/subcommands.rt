//! The commands of the program, and the request of the one that a command line names.

ghost use Rattle.std.specs.Prelude.{◌≡◌, ◌∷◌, [], IfOk, Ok, false, fold, option_map};
ghost use Rattle.clap.specs.Simple.{app_of};
ghost use Rattle.clap.specs.declared.builder.command.Command.TheViews.{out-Command as fields_of};
ghost use Rattle.uimg_cli.specs.Check.{check_asked};
ghost use Rattle.uimg_cli.specs.CommandLines.{asked_by, bare_program, program, uimg};
ghost use Rattle.uimg_cli.specs.CommandLines.{with_command};
ghost use Rattle.uimg_cli.specs.Dumpimage.{dumpimage, dumpimage_asked};
ghost use Rattle.uimg_cli.specs.Info.{info_asked};
ghost use Rattle.uimg_cli.specs.Map.{map_asked};
ghost use Rattle.uimg_cli.specs.Mkimage.{mkimage, mkimage_asked};
ghost use Rattle.uimg_cli.specs.Readings.{given};
ghost use Rattle.uimg_cli.specs.Unpack.{unpack_asked};
ghost use Rattle.uimg_cli.specs.Verify.{verify};
ghost use Rattle.uimg_cli.specs.Wanted.{checks, informs, maps, runs, unpacks, wanted_of};
ghost use Rattle.uimg_cli.specs.Wrong.{Tells, and_then};

use super::arguments::{titled, with};
use super::help_notes::PROGRAM_NOTES;
use super::{
    Asked, Request, WordsFault, check, diff, dumpimage, info, map, mkimage, unpack, verify,
};
use clap::{Arg, ArgAction, ArgMatches, Command};
use std::alloc::{AllocError, Global};
use uimg_requests::VERSION;

// What the program is about.
const ABOUT: &str = "Makes, lists, verifies and unpacks U-Boot images";

pub(super) fn commands<'a>(alloc: Global) -> Result<Command<'a>, AllocError>
    ensures { IfOk result (λ command. app_of command ≡ uimg) }
{
    let command = program(alloc)?;
    let command = with_image_commands(alloc, command)?;
    let command = with_command(command, check::command(alloc)?)?;
    let command = with_command(command, unpack::command(alloc)?)?;
    let command = with_command(command, info::command(alloc)?)?;
    let command = with_command(command, map::command(alloc)?)?;
    with_command(command, diff::command(alloc)?)
}

fn with_image_commands<'a>(alloc: Global, command: Command<'a>) -> Result<Command<'a>, AllocError>
    ensures { IfOk result (λ new. app_of new
        ≡ fold with_command (app_of command.entry) (mkimage ∷ dumpimage ∷ verify ∷ [])) }
{
    let command = with_command(command, mkimage::command(alloc)?)?;
    let command = with_command(command, dumpimage::command(alloc)?)?;
    with_command(command, verify::command(alloc)?)
}

fn with_command<'a>(above: Command<'a>, command: Command<'a>) -> Result<Command<'a>, AllocError>
    requires { (fields_of command).has_globals ≡ false }
    ensures { IfOk result (λ new.
        app_of new ≡ with_command (app_of above.entry) (app_of command.entry)) }
{
    above.subcommand(command)
}

fn program<'a>(alloc: Global) -> Result<Command<'a>, AllocError>
    ensures { IfOk result (λ command. app_of command ≡ program) }
{
    let version = Arg::new(alloc, "version")
        .long("version")
        .action(ArgAction::Version)
        .help("Print the name and the version");
    with(named_program(alloc), version)
}

fn named_program<'a>(alloc: Global) -> Command<'a>
    ensures { app_of result ≡ bare_program }
{
    titled(alloc, "uimg", ABOUT, PROGRAM_NOTES)
        .version(VERSION)
        .subcommand_required(true)
        .arg_required_else_help(true)
        .disable_version_flag(true)
}

pub(super) fn request_by<'a>(
    alloc: Global,
    name: &str,
    own: &ArgMatches<'a>,
    epoch: Option<&str>,
    now: u32,
) -> Result<Asked<'a>, WordsFault>
    ensures { Tells wanted_of (asked_by (option_map (λ text. text.now) epoch.entry) now name.now
        (given own.now)) result }
{
    if name == "check" {
        checked(alloc, own)
    } else if name == "unpack" {
        unpacked(alloc, own)
    } else if name == "map" {
        mapped(alloc, own)
    } else if name == "info" {
        informed(alloc, own)
    } else if name == "diff" {
        Ok(Asked::Diff(diff::request(own)))
    } else if name == "dumpimage" {
        dumped(own)
    } else if name == "mkimage" {
        made(alloc, own, epoch, now)
    } else if name == "verify" {
        Ok(Asked::One(Request::Run(verify::request(own))))
    } else {
        Err(WordsFault::NoSubcommand)
    }
}

fn checked<'a>(alloc: Global, own: &ArgMatches<'a>) -> Result<Asked<'a>, WordsFault>
    ensures { Tells wanted_of (and_then (check_asked (given own.now)) (λ it. Ok (checks it))) result }
{
    match check::request(alloc, own) {
        Ok(request) => Ok(Asked::Check(request)),
        Err(fault) => Err(fault),
    }
}

fn unpacked<'a>(alloc: Global, own: &ArgMatches<'a>) -> Result<Asked<'a>, WordsFault>
    ensures { Tells wanted_of (and_then (unpack_asked (given own.now)) (λ it. Ok (unpacks it)))
        result }
{
    match unpack::request(alloc, own) {
        Ok(request) => Ok(Asked::Unpack(request)),
        Err(fault) => Err(fault),
    }
}

fn mapped<'a>(alloc: Global, own: &ArgMatches<'a>) -> Result<Asked<'a>, WordsFault>
    ensures { Tells wanted_of (and_then (map_asked (given own.now)) (λ it. Ok (maps it))) result }
{
    match map::request(alloc, own) {
        Ok(request) => Ok(Asked::Map(request)),
        Err(fault) => Err(fault),
    }
}

fn informed<'a>(alloc: Global, own: &ArgMatches<'a>) -> Result<Asked<'a>, WordsFault>
    ensures { Tells wanted_of (and_then (info_asked (given own.now)) (λ it. Ok (informs it))) result }
{
    match info::request(alloc, own) {
        Ok(request) => Ok(Asked::Info(request)),
        Err(fault) => Err(fault),
    }
}

fn dumped<'a>(own: &ArgMatches<'a>) -> Result<Asked<'a>, WordsFault>
    ensures { Tells wanted_of (and_then (dumpimage_asked (given own.now)) (λ it. Ok (runs it)))
        result }
{
    match dumpimage::request(own) {
        Ok(request) => Ok(Asked::One(Request::Run(request))),
        Err(fault) => Err(fault),
    }
}

fn made<'a>(
    alloc: Global,
    own: &ArgMatches<'a>,
    epoch: Option<&str>,
    now: u32,
) -> Result<Asked<'a>, WordsFault>
    ensures { Tells wanted_of (mkimage_asked (option_map (λ text. text.now) epoch.entry) now
        (given own.now)) result }
{
    match mkimage::request(alloc, own, epoch, now) {
        Ok(request) => Ok(Asked::One(request)),
        Err(fault) => Err(fault),
    }
}
