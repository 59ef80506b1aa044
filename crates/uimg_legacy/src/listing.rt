//! The listing of an image.

ghost use Rattle.std.specs.Prelude.{◌≡◌, ◌+◌, ◌*◌, ◌≤◌, length, false};
ghost use Rattle.uimg_base.specs.{Device.RisesIf, Using.{Asks, UsesAtMost}};
ghost use Rattle.uimg_legacy.specs.{Commands.{Delivers, TellsOf}, Work.{table_work, list_work}};
ghost use Rattle.uimg_legacy.specs.{Listing.list_of, Reading.{Reports, TellsLines, tail_of}};
ghost use Rattle.uimg_legacy.specs.Faults.{is_read, is_put, is_of_making};

use crate::fault::{Fault, LegacyFault};
use crate::header::Header;
use crate::image::read_image;
use crate::lines::{put_head, put_part_line};
use crate::parts::{count_sizes, has_parts, size_at};
use std::alloc::Allocator;
use std::io::Write;
use uimg_base::{Out, Room, Source, Status, up4};
use uimg_texts::Naming;

// Writes the lines of the parts, up to the first that ends after the data.
fn list_parts<S: Source, W: Write>(
    source: &mut S,
    size: u32,
    count: u32,
    out: &mut Out<W>,
) -> Result<Status, Fault>
    requires data { 64 + size ≤ length (S.device source.old).bytes }
    requires table { 4 * (count + 1) ≤ size }
    ensures uses { Asks (4 * count) (is_read result) (S.device source.old) (S.device source.new) }
    ensures faults { RisesIf (is_put result) out.old.faults out.new.faults }
    ensures no_making { is_of_making result ≡ false }
    ensures told { TellsLines size count result S.device source out }
{
    let mut start = 4 * (count as u64 + 1);
    for i in 0..count {
        let len = size_at(source, i)?;
        if start + len as u64 > size as u64 {
            return Err(Fault::Legacy(LegacyFault::PartOutside));
        }
        put_part_line(i, len, out)?;
        let rounded = up4(len as u64);
        start += rounded;
    }
    Ok(Status::Done)
}

// Writes what follows the six lines: `Contents:` and the parts' lines, for a type with parts.
fn list_tail<S: Source, A: Allocator, W: Write>(
    source: &mut S,
    room: &mut Room<A>,
    header: &Header,
    out: &mut Out<W>,
) -> Result<Status, Fault>
    requires { 64 + header.now.size ≤ length (S.device source.old).bytes }
    ensures { Reports UsesAtMost (table_work header.now) (tail_of header.now) result
        S.device source room out }
{
    if !has_parts(header.kind) {
        return Ok(Status::Done);
    }
    let count = count_sizes(source, room, header.size)?;
    out.put_all(b"Contents:\n")?;
    list_parts(source, header.size, count, out)
}

/// Writes the listing of the image, with the names of the profile: six lines, and for the types
/// multi and script `Contents:` and a line for each part.
///
/// Over an honest source a prefix of the listing was written after `Read` or `Put`. At most 76
/// bytes, the data and 16 for each size in the table were requested of it. The room is only
/// cleared.
///
/// - `TooShort`, `BadMagic`, `BadHeaderCrc`, `Truncated`, `BadDataCrc`: before the first line, in
///   this order.
/// - `NoTableEnd`: after six lines.
/// - `PartOutside`: before the line of its part.
pub fn list<S: Source, A: Allocator, W: Write>(
    source: &mut S,
    room: &mut Room<A>,
    out: &mut Out<W>,
) -> Result<Status, Fault>
    ensures delivers { Delivers list_work result S.device source room out }
    ensures told { TellsOf (list_of Naming.Profile) result S.device source out }
{
    list_by(source, room, Naming::Profile, out)
}

/// Writes the listing of the image as `list` does, with the names of a set.
pub fn list_by<S: Source, A: Allocator, W: Write>(
    source: &mut S,
    room: &mut Room<A>,
    naming: Naming,
    out: &mut Out<W>,
) -> Result<Status, Fault>
    ensures delivers { Delivers list_work result S.device source room out }
    ensures told { TellsOf (list_of naming) result S.device source out }
{
    room.clear();
    let header = read_image(source, room)?;
    put_head(&header, naming, out)?;
    list_tail(source, room, &header, out)
}
