//! Whether an image and its parts are whole and its checksums right, without a report.

ghost use Rattle.std.specs.Prelude.{◌≡◌, ◌+◌, ◌≤◌, length, true};
ghost use Rattle.uimg_base.specs.{Honest.IfHonest, Using.UsesAtMost};
ghost use Rattle.uimg_legacy.specs.{Checking.{Checks, ChecksParts, ChecksTable}, Commands.Inspects};
ghost use Rattle.uimg_legacy.specs.{Parts.has_parts, Reading.Reads, Work.{check_work, table_work}};

use crate::fault::{Fault, LegacyFault};
use crate::header::{Header, read_header};
use crate::image::has_right_data;
use crate::parts::{count_sizes, has_parts, listed_part};
use std::alloc::Allocator;
use uimg_base::{Room, Source};

// Refuses a table whose parts do not all end inside the data. The last part ends last.
fn check_table<S: Source, A: Allocator>(
    source: &mut S,
    room: &mut Room<A>,
    header: &Header,
) -> Result<(), Fault>
    requires data { 64 + header.now.size ≤ length (S.device source.old).bytes }
    requires kind { has_parts header.now.kind ≡ true }
    ensures { Reads UsesAtMost (table_work header.now) (ChecksTable header.now) result
        S.device source room }
{
    let count = count_sizes(source, room, header.size)?;
    if count == 0 {
        return Ok(());
    }
    match listed_part(source, room, header.size, count, count - 1) {
        Ok(_) => Ok(()),
        Err(fault) => Err(fault),
    }
}

// Refuses an image with this header that lacks data or a part.
fn check_parts<S: Source, A: Allocator>(
    source: &mut S,
    room: &mut Room<A>,
    header: &Header,
) -> Result<(), Fault>
    ensures { Reads UsesAtMost (table_work header.now) (ChecksParts header.now) result
        S.device source room }
{
    if source.size()? < 64 + header.size as u64 {
        return Err(Fault::Legacy(LegacyFault::Truncated));
    }
    if !has_parts(header.kind) {
        return Ok(());
    }
    check_table(source, room, header)
}

fn is_right<S: Source, A: Allocator>(source: &mut S, room: &mut Room<A>) -> Result<bool, Fault>
    ensures { Reads UsesAtMost check_work Checks result S.device source room }
{
    let header = read_header(source)?;
    check_parts(source, room, &header)?;
    has_right_data(source, room, &header)
}

/// Returns whether the checksum of the image's data is right. Requests no more than a listing, also
/// of an image that a listing refuses. Only clears the room.
///
/// Returns the first of these faults:
/// - `TooShort`, `BadMagic`, `BadHeaderCrc`.
/// - Those of `locate_parts`, before the data are read.
pub fn check<S: Source, A: Allocator>(source: &mut S, room: &mut Room<A>) -> Result<bool, Fault>
    ensures inspects { Inspects check_work result S.device source room }
    ensures told { IfHonest S.device source (λ file. Checks file result) }
{
    room.clear();
    is_right(source, room)
}
