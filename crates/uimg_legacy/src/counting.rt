//! How many parts an image has.

ghost use Rattle.std.specs.Prelude.{◌+◌, ◌≤◌, length};
ghost use Rattle.uimg_base.specs.{Honest.IfHonest, Using.UsesAtMost};
ghost use Rattle.uimg_legacy.specs.{Counting.{CountsIn, CountsOf}, Commands.Inspects};
ghost use Rattle.uimg_legacy.specs.{Reading.Reads, Work.{list_work, table_work}};

use crate::fault::Fault;
use crate::header::Header;
use crate::image::read_image;
use crate::parts::{count_sizes, has_parts};
use std::alloc::Allocator;
use uimg_base::{Room, Source};

// Counts the parts of an image that has this header and all its data.
fn count_in_data<S: Source, A: Allocator>(
    source: &mut S,
    room: &mut Room<A>,
    header: &Header,
) -> Result<u32, Fault>
    requires { 64 + header.now.size ≤ length (S.device source.old).bytes }
    ensures { Reads UsesAtMost (table_work header.now) (CountsIn header.now) result
        S.device source room }
{
    if !has_parts(header.kind) {
        return Ok(1);
    }
    let count = count_sizes(source, room, header.size)?;
    Ok(count)
}

// Counts the parts of an image whose checksums are right.
fn count_in_image<S: Source, A: Allocator>(source: &mut S, room: &mut Room<A>) -> Result<u32, Fault>
    ensures { Reads UsesAtMost list_work CountsOf result S.device source room }
{
    let header = read_image(source, room)?;
    count_in_data(source, room, &header)
}

/// Counts the parts of an image: the sizes in its table for the types multi and script, else one. A
/// part that ends after the data is counted too. Returns the first fault of `TooShort`, `BadMagic`,
/// `BadHeaderCrc`, `Truncated`, `BadDataCrc` and `NoTableEnd`. Requests no more than a listing.
/// Only clears the room.
pub fn count_parts<S: Source, A: Allocator>(
    source: &mut S,
    room: &mut Room<A>,
) -> Result<u32, Fault>
    ensures inspects { Inspects list_work result S.device source room }
    ensures told { IfHonest S.device source (λ file. CountsOf file result) }
{
    room.clear();
    count_in_image(source, room)
}
