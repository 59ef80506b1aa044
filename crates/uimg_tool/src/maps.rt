//! Maps of an image's file, as lines.

ghost use Rattle.std.specs.Prelude.{◌≡◌, ◌≤◌, IfOk, IsTrue};
ghost use Rattle.uimg_base.specs.Honest.{IfHonest};
ghost use Rattle.uimg_tool.specs.{Answering.{Comes, OfFile}, Drawing.AsksToMap, FaultTexts.told_of_exit, Maps.{IsMapped, MeansMap, mapped_status, mapped_told}, Statuses.{exit_status, request_status}};
ghost use Rattle.uimg_world.specs.Deeds.{changes};

use crate::complaints::unread;
use crate::opening::open_image;
use crate::pictures::draw_map;
use crate::request_fault::{DONE, RequestFault};
use std::alloc::Global;
use std::io::Write;
use uimg_base::Source;
use uimg_cli::MapRequest;
use uimg_engine::Fault;
use uimg_map::{MapFault, MapStop, map_of, put_lines};
use uimg_world::World;

/// Writes the map of the requested image: lines on `out`, or a picture as a file that gets its name
/// when it is complete. A refused image has a map too.
pub(crate) fn map_image<'a, D: World, W: Write>(
    world: &mut D,
    request: &MapRequest<'a>,
    out: &mut W,
) -> Result<u8, RequestFault<'a>>
    ensures most { IfOk result (λ status. status ≤ 3) }
    ensures asks { AsksToMap request.now request.now.picture (D.trace world.old)
        (D.trace world.new) }
    ensures means { IsTrue (D.map world.old).honest → Comes (MeansMap request.now.image.now
        request.now.picture (D.map world.old)) (exit_status result) (told_of_exit result)
        (W.contents out.old) (W.contents out.new) }
{
    match request.picture {
        Some(path) => draw_map(world, request, path),
        None => print_map(world, request.image, request.most_input, out),
    }
}

fn print_map<'a, D: World, W: Write>(
    world: &mut D,
    path: &'a str,
    most_input: u64,
    out: &mut W,
) -> Result<u8, RequestFault<'a>>
    ensures most { IfOk result (λ status. status ≤ 3) }
    ensures reads { changes (D.trace world.new) ≡ changes (D.trace world.old) }
    ensures means { IsTrue (D.map world.old).honest → Comes (OfFile (D.map world.old) path.now
        IsMapped) (exit_status result) (told_of_exit result) (W.contents out.old)
        (W.contents out.new) }
{
    let Ok(mut source) = open_image(world, path, None, most_input) else {
        return Err(unread(world, path));
    };
    print_source(world.alloc(), &mut source, out)
}

fn print_source<'a, S: Source, W: Write>(
    alloc: Global,
    source: &mut S,
    out: &mut W,
) -> Result<u8, RequestFault<'a>>
    ensures most { IfOk result (λ status. status ≤ 3) }
    ensures means { IfHonest S.device source (λ file. Comes (IsMapped file) (exit_status result)
        (told_of_exit result) (W.contents out.old) (W.contents out.new)) }
{
    let map = match map_of(alloc, source) {
        Ok(map) => map,
        Err(fault) => return Err(RequestFault::Unmapped(fault)),
    };
    match put_lines(alloc, source, &map, out) {
        Ok(()) => end_of(map.fault),
        Err(stop) => Err(stopped(stop)),
    }
}

/// Returns how a command ends that wrote a map.
pub(crate) fn end_of<'a>(fault: Option<MapFault>) -> Result<u8, RequestFault<'a>>
    ensures most { IfOk result (λ status. status ≤ 3) }
    ensures status { exit_status result ≡ mapped_status fault }
    ensures told { told_of_exit result ≡ mapped_told fault }
{
    match fault {
        None => Ok(DONE),
        Some(fault) => Err(RequestFault::Mapped(fault)),
    }
}

/// Returns why a map was not written.
pub(crate) fn stopped<'a>(stop: MapStop) -> RequestFault<'a>
    ensures { request_status result ≡ 3 }
{
    match stop {
        MapStop::Closed => RequestFault::Closed,
        MapStop::Put => RequestFault::Stopped(Fault::Put),
        MapStop::Stopped(fault) => RequestFault::Unmapped(fault),
    }
}
