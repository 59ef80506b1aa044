//! The listing of an image.

ghost use Rattle.std.specs.Prelude.{◌≡◌, ◌++◌, List, Some, codes, length};
ghost use Rattle.uimg_blob_reading.specs.{Grammar.Siblings, Roles.in_images, Spots.{Spot, spots}};
ghost use Rattle.uimg_blob_reading.specs.LookUps.{NodeOf, images, configurations};
ghost use Rattle.uimg_fit_base.specs.Files.{root_own, cell};
ghost use Rattle.uimg_fit_reading.specs.Listing.{configurations_lines, image_lines, lists, list_of, numbered_lines};
ghost use Rattle.uimg_fit_reading.specs.ListingParts.{configurations_allowance, body_allowance, TellsWithin};
ghost use Rattle.uimg_fit_reading.specs.{Nodes.{AreFrom, HasNodes, InFile, Opened}, Telling.Lists};
ghost use Rattle.uimg_fit_reading.specs.{OpenFits.{file_of, InFit}, Puts.{Leaves, LeavesOrRefuses}};
ghost use Rattle.uimg_fit_reading.specs.{Work.list_work, Rooms.{Delivers, TellsOf}};

mod addresses;
mod fields;
mod heads;
mod hexadecimal;
mod listed_nodes;
mod lists;
mod names;
mod rows;
mod shows;
mod signing;
mod sums;
mod times;
mod titles;

use crate::images::first_image;
use crate::listing::heads::{put_default, put_head};
use crate::listing::listed_nodes::{Listed, put_listed_nodes};
use crate::nodes::{child_of, configurations_of, root_value, value_of};
use crate::open_fit::OpenFit;
use crate::places::cell;
use crate::tree::read_tree;
use std::alloc::Allocator;
use std::io::Write;
use uimg_base::{MoveFault, Out, Room, Source, Status};
use uimg_blob_reading::Key;
use uimg_fit_base::Fault;
use uimg_texts::Naming;

fn put_configurations<S: Source, A: Allocator, W: Write>(
    fit: &mut OpenFit<'_, S, A>,
    naming: Naming,
    out: &mut Out<W>,
) -> Result<(), MoveFault>
    requires { InFile (length (file_of S.device fit.old)) fit.old.blob fit.old.room.now.entries }
    ensures leaves { Leaves result S.device fit out }
    ensures told { (t : Siblings) → InFit S.device fit.old Opened t →
        Lists (configurations_allowance naming (configurations (spots t))) result S.device fit out
        (configurations_lines naming (configurations (spots t))) }
{
    let Some(node) = configurations_of(&fit.blob, fit.room) else {
        return Ok(());
    };
    let default = value_of(&fit.blob, fit.room, node, Key::Default);
    put_default(fit.source, fit.room, default, out)?;
    let first = child_of(&fit.blob, fit.room, node);
    put_listed_nodes(fit, Listed::Configuration(naming), first, out)
}

fn put_body<S: Source, A: Allocator, W: Write>(
    fit: &mut OpenFit<'_, S, A>,
    naming: Naming,
    time: Option<u32>,
    first: Option<usize>,
    out: &mut Out<W>,
) -> Result<(), MoveFault>
    requires { InFit S.device fit.old HasNodes first }
    ensures leaves { Leaves result S.device fit out }
    ensures told { (t : Siblings) → InFit S.device fit.old Opened t →
        (found : List (NodeOf Spot)) → AreFrom t in_images first found →
        Lists (body_allowance naming (spots t) (Some found)) result S.device fit out
        (numbered_lines (image_lines naming (file_of S.device fit.old) time) 0 found
        ++ configurations_lines naming (configurations (spots t))) }
{
    put_listed_nodes(fit, Listed::Image(naming, time), first, out)?;
    put_configurations(fit, naming, out)
}

// Writes the lines after the head lines, or returns `NoImages`.
fn list_body<S: Source, A: Allocator, W: Write>(
    fit: &mut OpenFit<'_, S, A>,
    naming: Naming,
    time: Option<u32>,
    out: &mut Out<W>,
) -> Result<Status, Fault>
    requires { InFile (length (file_of S.device fit.old)) fit.old.blob fit.old.room.now.entries }
    ensures leaves { LeavesOrRefuses result S.device fit out }
    ensures told { (t : Siblings) → InFit S.device fit.old Opened t →
        time ≡ cell (root_own (spots t)) (codes "timestamp") →
        TellsWithin (body_allowance naming (spots t) (images (spots t))) result S.device fit out
        (lists naming (file_of S.device fit.old) (spots t) (images (spots t))) }
{
    let first = first_image(&fit.blob, fit.room)?;
    put_body(fit, naming, time, first, out)?;
    Ok(Status::Done)
}

/// Writes the listing of the image, with the names of the profile.
///
/// Two head lines come first, then the lines of each image with those of its hash nodes, the
/// default configuration, and the lines of each configuration. No hash is checked and no payload is
/// read; a payload without a span has the size `unavailable`. Over an honest source a prefix of the
/// listing was written after `Read` or `Put`. Over such a source at most 60 bytes, 1024 for each
/// node and property, and 4 for each NOP and each byte of a text were requested.
///
/// - The faults of the blob: before the first line.
/// - `NoImages`: after the head lines.
/// - `OutOfMemory`: if and only if the room refused to grow.
pub fn list<S: Source, A: Allocator, W: Write>(
    source: &mut S,
    room: &mut Room<A>,
    out: &mut Out<W>,
) -> Result<Status, Fault>
    ensures delivers { Delivers (list_work Naming.Profile) result S.device source room out }
    ensures told { TellsOf (list_of Naming.Profile) result S.device source out }
{
    list_by(source, room, Naming::Profile, out)
}

/// Writes the listing of the image as `list` does, with the names of a set.
pub fn list_by<S: Source, A: Allocator, W: Write>(
    source: &mut S,
    room: &mut Room<A>,
    naming: Naming,
    out: &mut Out<W>,
) -> Result<Status, Fault>
    ensures delivers { Delivers (list_work naming) result S.device source room out }
    ensures told { TellsOf (list_of naming) result S.device source out }
{
    let blob = read_tree(source, room)?;
    let time = cell(source, root_value(&blob, room, Key::Timestamp))?;
    let description = root_value(&blob, room, Key::Description);
    put_head(source, room, description, time, out)?;
    let mut fit = OpenFit { source, blob, room };
    list_body(&mut fit, naming, time, out)
}
