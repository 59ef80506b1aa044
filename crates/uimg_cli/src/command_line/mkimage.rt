//! The arguments of `mkimage`.

ghost use Rattle.std.specs.Prelude.{◌≡◌, IfOk, Ok, false, option_map};
ghost use Rattle.clap.specs.Simple.{app_of};
ghost use Rattle.clap.specs.declared.builder.command.Command.TheViews.{out-Command as fields_of};
ghost use Rattle.uimg_cli.specs.Makings.{making_of, parts, plain_making, source};
ghost use Rattle.uimg_cli.specs.Mkimage.{address_asked, addresses_asked, codes_asked};
ghost use Rattle.uimg_cli.specs.Mkimage.{header_rules, listing_asked, made_asked, mkimage};
ghost use Rattle.uimg_cli.specs.Mkimage.{mkimage_asked};
ghost use Rattle.uimg_cli.specs.Mkimage.{options_asked, parts_asked, placement_asked};
ghost use Rattle.uimg_cli.specs.Mkimage.{source_asked, source_rules, time_asked};
ghost use Rattle.uimg_cli.specs.Readings.{given, or_wrong};
ghost use Rattle.uimg_cli.specs.Runs.{run_of};
ghost use Rattle.uimg_requests.specs.Names.{part_names};
ghost use Rattle.uimg_cli.specs.Rules.{with_rules};
ghost use Rattle.uimg_cli.specs.Wanted.{wanted_by_one};
ghost use Rattle.uimg_cli.specs.Wrong.{Tells, told, unknown_name};

use super::arguments::{titled, with_flag, with_image, with_value};
use super::help_notes::MKIMAGE_NOTES;
use super::readings::{decimal, hexadecimal, is_set, text_of, text_or};
use super::{Request, WordsFault};
use clap::ArgMatches;
use std::alloc::{AllocError, Global};
use uimg_base::{FLAT_DT, arch_code, comp_code, kind_code, os_code};
use uimg_fit_base::Placement;
use uimg_legacy::{Options, name_field};
use uimg_requests::{Action, Command, Form, MakeRequest, RunRequest};
use uimg_texts::Naming;

// What it is about, and the helps of its options.
const ABOUT: &str = "Make an image from files, or list one";

const DATA: &str = "The file with the data; for multi and script, files separated by colons";

const ENTRY: &str = "The entry point, hexadecimal [default: the load address]";

const POSITION: &str = "With -f and -E: place the data at this offset of the file, hexadecimal";

const LIST: &str = "List the image instead of making one";

const IMAGE: &str = "The image to make, or with -l the image to list";

#[derive(Clone, Copy)]
struct Codes {
    arch: u8,
    os: u8,
    kind: u8,
    comp: u8,
}

// The load address and the entry point.
#[derive(Clone, Copy)]
struct Addresses {
    load: u32,
    entry: u32,
}

pub(super) fn command<'a>(alloc: Global) -> Result<clap::Command<'a>, AllocError>
    ensures app { IfOk result (λ command. app_of command ≡ mkimage) }
    ensures local { IfOk result (λ command. (fields_of command).has_globals ≡ false) }
{
    let command = titled(alloc, "mkimage", ABOUT, MKIMAGE_NOTES);
    let command = header_options(alloc, command)?;
    let command = source_options(alloc, command)?;
    let command = with_flag(command, alloc, "list", 'l', LIST)?;
    with_image(command, alloc, IMAGE)
}

fn header_options<'a>(
    alloc: Global,
    command: clap::Command<'a>,
) -> Result<clap::Command<'a>, AllocError>
    ensures app { IfOk result (λ new.
        app_of new ≡ with_rules header_rules (app_of command.entry)) }
    ensures local { IfOk result (λ new.
        (fields_of new).has_globals ≡ (fields_of command.entry).has_globals) }
{
    let command = with_value(
        command,
        alloc,
        "arch",
        'A',
        "The architecture [default: ppc]",
    )?;
    let command = with_value(
        command,
        alloc,
        "os",
        'O',
        "The operating system [default: linux]",
    )?;
    let command = with_value(
        command,
        alloc,
        "type",
        'T',
        "The image type [default: kernel]",
    )?;
    let comp = "The compression of the data [default: gzip]";
    let command = with_value(command, alloc, "comp", 'C', comp)?;
    let load = "The load address, hexadecimal [default: 0]";
    let command = with_value(command, alloc, "load", 'a', load)?;
    let command = with_value(command, alloc, "entry", 'e', ENTRY)?;
    let command = with_value(command, alloc, "name", 'n', "The image's name")?;
    with_value(command, alloc, "data", 'd', DATA)
}

fn source_options<'a>(
    alloc: Global,
    command: clap::Command<'a>,
) -> Result<clap::Command<'a>, AllocError>
    ensures app { IfOk result (λ new.
        app_of new ≡ with_rules source_rules (app_of command.entry)) }
    ensures local { IfOk result (λ new.
        (fields_of new).has_globals ≡ (fields_of command.entry).has_globals) }
{
    let source = "The image-tree source of a FIT image";
    let command = with_value(command, alloc, "source", 'f', source)?;
    let external = "With -f: place the data after the blob";
    let command = with_flag(command, alloc, "external", 'E', external)?;
    with_value(command, alloc, "position", 'p', POSITION)
}

pub(super) fn request<'a>(
    alloc: Global,
    matches: &ArgMatches<'a>,
    epoch: Option<&str>,
    now: u32,
) -> Result<Request<'a>, WordsFault>
    ensures { Tells wanted_by_one (mkimage_asked (option_map (λ text. text.now) epoch.entry) now
        (given matches.now)) result }
{
    if is_set(matches, "list") {
        return Ok(Request::Run(listing(matches)));
    }
    match making(alloc, matches, epoch, now) {
        Ok(request) => Ok(Request::Make(request)),
        Err(fault) => Err(fault),
    }
}

fn listing<'a>(matches: &ArgMatches<'a>) -> RunRequest<'a>
    ensures { run_of result ≡ listing_asked (given matches.now) }
{
    RunRequest {
        command: Command {
            action: Action::List,
            form: Form::Guess,
        },
        naming: Naming::Profile,
        image: text_or(matches, "image", ""),
        outfile: None,
    }
}

fn making<'a>(
    alloc: Global,
    matches: &ArgMatches<'a>,
    epoch: Option<&str>,
    now: u32,
) -> Result<MakeRequest<'a>, WordsFault>
    ensures { Tells making_of (made_asked (option_map (λ text. text.now) epoch.entry) now
        (given matches.now)) result }
{
    match (text_of(matches, "data"), text_of(matches, "source")) {
        (None, None) => Err(WordsFault::NoDataOrSource),
        (Some(_), Some(_)) => Err(WordsFault::DataWithSource),
        (None, Some(path)) => made_of_source(alloc, matches, path, epoch, now),
        (Some(word), None) => made_of_parts(alloc, matches, word, epoch, now),
    }
}

// Where the payloads go is checked before the time.
fn made_of_source<'a>(
    alloc: Global,
    matches: &ArgMatches<'a>,
    path: &'a str,
    epoch: Option<&str>,
    now: u32,
) -> Result<MakeRequest<'a>, WordsFault>
    ensures { Tells making_of (source_asked (option_map (λ text. text.now) epoch.entry) now
        (given matches.now) path.entry.now) result }
{
    let placement = placement(matches)?;
    let time = time(epoch, now)?;
    from_source(alloc, path, placement, time, text_or(matches, "image", ""))
}

// The options are checked before the time.
fn made_of_parts<'a>(
    alloc: Global,
    matches: &ArgMatches<'a>,
    word: &str,
    epoch: Option<&str>,
    now: u32,
) -> Result<MakeRequest<'a>, WordsFault>
    ensures { Tells making_of (parts_asked (option_map (λ text. text.now) epoch.entry) now
        (given matches.now) word.now) result }
{
    let options = options(matches)?;
    let time = time(epoch, now)?;
    from_parts(alloc, word, options, time, text_or(matches, "image", ""))
}

#[tactic(auto, using(crate::proofs::MakingLaws::making_of_source))]
fn from_source<'a>(
    alloc: Global,
    path: &'a str,
    placement: Placement,
    time: u32,
    image: &'a str,
) -> Result<MakeRequest<'a>, WordsFault>
    ensures { Tells making_of (Ok (plain_making (source path.entry.now placement) time
        image.entry.now)) result }
{
    match MakeRequest::of_source(alloc, path, placement, time, image) {
        Ok(request) => Ok(request),
        Err(_) => Err(WordsFault::OutOfMemory),
    }
}

#[tactic(auto, using(crate::proofs::MakingLaws::making_of_parts))]
fn from_parts<'a>(
    alloc: Global,
    word: &str,
    options: Options,
    time: u32,
    image: &'a str,
) -> Result<MakeRequest<'a>, WordsFault>
    ensures { Tells making_of (Ok (plain_making (parts options (part_names options.kind word.now))
        time image.entry.now)) result }
{
    match MakeRequest::of_parts(alloc, options, word, time, image) {
        Ok(request) => Ok(request),
        Err(_) => Err(WordsFault::OutOfMemory),
    }
}

// The number of -p is checked even without -E.
fn placement(matches: &ArgMatches<'_>) -> Result<Placement, WordsFault>
    ensures { told (λ placement. placement) result ≡ placement_asked (given matches.now) }
{
    let position = address(text_of(matches, "position"), 0)?;
    match (is_set(matches, "external"), position) {
        (false, _) => Ok(Placement::Inside),
        (true, 0) => Ok(Placement::After),
        (true, _) => Ok(Placement::At(position)),
    }
}

// Names are checked before numbers.
fn options(matches: &ArgMatches<'_>) -> Result<Options, WordsFault>
    ensures { told (λ options. options) result ≡ options_asked (given matches.now) }
{
    let by = named_codes(matches)?;
    if by.kind == FLAT_DT {
        return Err(WordsFault::FlatDtNeedsSource);
    }
    let at = given_addresses(matches)?;
    Ok(Options {
        time: 0,
        load: at.load,
        ep: at.entry,
        os: by.os,
        arch: by.arch,
        kind: by.kind,
        comp: by.comp,
        name: name_field(text_or(matches, "name", "").as_bytes()),
    })
}

fn named_codes(matches: &ArgMatches<'_>) -> Result<Codes, WordsFault>
    ensures { told (λ by. by) result ≡ codes_asked (given matches.now) }
{
    let arch = known(arch_code(text_or(matches, "arch", "ppc").as_bytes()))?;
    let os = known(os_code(text_or(matches, "os", "linux").as_bytes()))?;
    let kind = known(kind_code(text_or(matches, "type", "kernel").as_bytes()))?;
    let comp = known(comp_code(text_or(matches, "comp", "gzip").as_bytes()))?;
    Ok(Codes {
        arch,
        os,
        kind,
        comp,
    })
}

fn known(code: Option<u8>) -> Result<u8, WordsFault>
    ensures { told (λ code. code) result ≡ or_wrong unknown_name code }
{
    match code {
        Some(code) => Ok(code),
        None => Err(WordsFault::UnknownName),
    }
}

fn given_addresses(matches: &ArgMatches<'_>) -> Result<Addresses, WordsFault>
    ensures { told (λ at. at) result ≡ addresses_asked (given matches.now) }
{
    let load = address(text_of(matches, "load"), 0)?;
    let entry = address(text_of(matches, "entry"), load)?;
    Ok(Addresses { load, entry })
}

// The text is hexadecimal.
fn address(text: Option<&str>, default: u32) -> Result<u32, WordsFault>
    ensures { told (λ address. address) result
        ≡ address_asked (option_map (λ word. word.now) text.entry) default }
{
    match text {
        Some(text) => hexadecimal(text).ok_or(WordsFault::BadNumber),
        None => Ok(default),
    }
}

// SOURCE_DATE_EPOCH, if it is set, overrides the current time.
fn time(epoch: Option<&str>, now: u32) -> Result<u32, WordsFault>
    ensures { told (λ time. time) result ≡ time_asked (option_map (λ text. text.now) epoch.entry) now }
{
    match epoch {
        Some(text) => decimal(text).ok_or(WordsFault::BadEpoch),
        None => Ok(now),
    }
}
