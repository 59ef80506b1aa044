//! Maps of an image's file, as pictures.

ghost use Rattle.std.specs.Prelude.{◌≡◌, ◌≤◌, ℕ, List, IfErr, IfOk, IsOk, IsTrue, OnOk, Option, string_bytes};
ghost use Rattle.uimg_map.specs.Maps.{IsMapOf};
ghost use Rattle.uimg_tool.specs.{Answering.Comes, FaultTexts.told_of_exit, Maps.{MeansPicture, mapped_status, mapped_told}, Statuses.{exit_status, request_status}};
ghost use Rattle.uimg_tool.specs.Drawing.{Draws, DrawsTo, DrawsUnlessTaken, Fills, LooksTaken, NamesPicture, Overwrites};
ghost use Rattle.uimg_unpacking.specs.Naming.{GivesName};
ghost use Rattle.uimg_world.specs.declared.call.Answer.TheVariants.{Done};

use crate::complaints::unread;
use crate::images::is_same_file;
use crate::maps::{end_of, stopped};
use crate::opening::open_image;
use crate::reasons::reason_of_code;
use crate::request_fault::RequestFault;
use crate::safe_path::{SafePath, Writing};
use crate::writing::writing_of;
use std::io;
use std::io::{BufWriter, Write};
use uimg_base::Source;
use uimg_cli::MapRequest;
use uimg_map::{Map, MapStop, map_of, put_picture};
use uimg_printing::Printed;
use uimg_unpacking::name_file;
use uimg_world::{Target, World};

/// Draws the map of the requested image to the file at a path, unless that is the image's.
pub(crate) fn draw_map<'a, D: World>(
    world: &mut D,
    request: &MapRequest<'a>,
    path: &'a str,
) -> Result<u8, RequestFault<'a>>
    ensures most { IfOk result (λ status. status ≤ 3) }
    ensures asks { Draws request.now.image.now path.now request.now.is_forced
        (D.trace world.old) (D.trace world.new) }
    ensures means { (known : Option (List ℕ)) → IsTrue (D.map world.old).honest → Comes (MeansPicture
        request.now.image.now path.now (D.map world.old)) (exit_status result)
        (told_of_exit result) known known }
{
    let Ok(mut source) = open_image(world, request.image, None, request.most_input) else {
        return Err(unread(world, request.image));
    };
    let map = match map_of(world.alloc(), &mut source) {
        Ok(map) => map,
        Err(fault) => return Err(RequestFault::Unmapped(fault)),
    };
    if is_same_file(world, path, request.image) {
        let path = Printed(path.as_bytes());
        return Err(RequestFault::DrawsOverWhatIsRead(path));
    }
    match draw_unless_taken(world, request, path, &mut source, &map) {
        Ok(()) => end_of(map.fault),
        Err(fault) => Err(fault),
    }
}

// Only a file or a symbolic link is replaced, if that is requested.
fn draw_unless_taken<'a, D: World, S: Source>(
    world: &mut D,
    request: &MapRequest<'a>,
    path: &'a str,
    source: &mut S,
    map: &Map,
) -> Result<(), RequestFault<'a>>
    ensures fails { IfErr result (λ fault. request_status fault ≡ 3) }
    ensures asks { DrawsUnlessTaken path.now request.now.is_forced (D.trace world.old)
        (D.trace world.new) }
{
    if request.is_forced {
        return draw(world, request, path, source, map);
    }
    if is_taken(world, path) {
        return Err(RequestFault::Exists(Printed(path.as_bytes())));
    }
    draw(world, request, path, source, map)
}

// Devices and pipes are written to.
fn is_taken<D: World>(world: &mut D, path: &str) -> bool
    ensures { LooksTaken path.now result (D.trace world.old) (D.trace world.new) }
{
    match world.target_of(path) {
        Target::File => true,
        Target::Pipe => false,
        Target::Other => false,
        Target::Nothing => world.kind_at(path).is_something(),
    }
}

// Writes the picture to a new file beside its path first, if that is possible.
fn draw<'a, D: World, S: Source>(
    world: &mut D,
    request: &MapRequest<'a>,
    path: &'a str,
    source: &mut S,
    map: &Map,
) -> Result<(), RequestFault<'a>>
    ensures fails { IfErr result (λ fault. request_status fault ≡ 3) }
    ensures asks { DrawsTo path.now request.now.is_forced (D.trace world.old) (D.trace world.new) }
{
    match writing_of(world, world.alloc(), path) {
        Ok(Writing::Beside(file, safe)) => {
            let paths = (path, safe.new.as_str());
            let drawn = draw_into(world, request, paths, file, source, map);
            name_written(world, path, &safe, request.is_forced, drawn)
        }
        Ok(Writing::InPlace) => draw_in_place(world, request, path, source, map),
        Ok(Writing::Pipe) => draw_in_place(world, request, path, source, map),
        Ok(Writing::Nowhere(reason)) => Err(unwritten(path, reason)),
        Err(_) => Err(RequestFault::OutOfMemory),
    }
}

// Something exists at the path.
fn draw_in_place<'a, D: World, S: Source>(
    world: &mut D,
    request: &MapRequest<'a>,
    path: &'a str,
    source: &mut S,
    map: &Map,
) -> Result<(), RequestFault<'a>>
    ensures fails { IfErr result (λ fault. request_status fault ≡ 3) }
    ensures asks { Overwrites path.now (D.trace world.old) (D.trace world.new) }
{
    match world.create(path) {
        Ok(file) => draw_into(world, request, (path, path), file, source, map),
        Err(reason) => Err(unwritten(path, reason)),
    }
}

/// Moves a complete picture or report to its path. Removes one that is incomplete, or whose path is
/// taken meanwhile.
pub(crate) fn name_written<'a, D: World>(
    world: &mut D,
    path: &'a str,
    safe: &SafePath,
    is_forced: bool,
    drawn: Result<(), RequestFault<'a>>,
) -> Result<(), RequestFault<'a>>
    requires fails { IfErr drawn (λ fault. request_status fault ≡ 3) }
    ensures fails { IfErr result (λ fault. request_status fault ≡ 3) }
    ensures asks { NamesPicture (string_bytes safe.now.new) (string_bytes safe.now.whole) is_forced
        (D.trace world.old) (D.trace world.new) }
    ensures named { OnOk result (IsOk drawn.entry × GivesName (string_bytes safe.now.new)
        (string_bytes safe.now.whole) is_forced Done (D.trace world.old) (D.trace world.new)) }
{
    let (new, whole) = (safe.new.as_str(), safe.whole.as_str());
    match drawn {
        Ok(()) => match name_file(world, new, whole, is_forced) {
            Ok(()) => Ok(()),
            Err(reason) => {
                let _ = world.remove_file(new);
                Err(unwritten(path, reason))
            }
        },
        Err(fault) => {
            let _ = world.remove_file(new);
            Err(fault)
        }
    }
}

// Draws to an empty file at the second path, which is closed. A failed write is reported with the
// first.
fn draw_into<'a, D: World, S: Source>(
    world: &mut D,
    request: &MapRequest<'a>,
    paths: (&'a str, &str),
    file: D::File,
    source: &mut S,
    map: &Map,
) -> Result<(), RequestFault<'a>>
    ensures fails { IfErr result (λ fault. request_status fault ≡ 3) }
    ensures fills { Fills paths.entry.1.now (D.trace world.old) (D.trace world.new) }
{
    let (path, at) = paths;
    let alloc = world.alloc();
    let Ok(name) = format!(in alloc; "{}", Printed(request.image.as_bytes())) else {
        return Err(RequestFault::OutOfMemory);
    };
    let Ok(mut gathered) = BufWriter::new(alloc, file) else {
        return Err(RequestFault::OutOfMemory);
    };
    let put = put_picture(alloc, source, map, name.as_str(), &mut gathered);
    let flushed = gathered.flush();
    // A failed write leaves text in the buffer, which its drop would try to write again.
    let (file, _) = gathered.into_parts();
    let closed = world.close(at, file, false);
    match put {
        Ok(()) => {}
        Err(MapStop::Stopped(fault)) => return Err(RequestFault::Unmapped(fault)),
        Err(_) if flushed.is_ok() => return Err(unwritten(path, reason_of_code(None))),
        Err(_) => {}
    }
    match flushed.and(closed) {
        Ok(()) => Ok(()),
        Err(reason) => Err(unwritten(path, reason)),
    }
}

/// Returns why a picture or a report is not written.
pub(crate) fn unwritten<'a>(path: &'a str, reason: io::Error) -> RequestFault<'a>
    ensures { request_status result ≡ 3 }
{
    RequestFault::Unwritten(Printed(path.as_bytes()), reason)
}
