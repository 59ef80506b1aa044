//! How many bytes of the strings block a signature signs.

ghost use Rattle.std.specs.Prelude.{◌≡◌, ◌+◌, ◌^◌, ◌<◌, ◌≤◌, List, length, is_err, IfOk};
ghost use Rattle.uimg_base.specs.{Honest.HonestSource, Using.{Asks, Uses}};
ghost use Rattle.uimg_texts.specs.{Numbers.be32, Slices.slice};
ghost use Rattle.uimg_blob_reading.specs.Properties.{places_of};
ghost use Rattle.uimg_signing.specs.{Faults.{is_unread, Decides}, Listing.OfTreeRead, Refusing.names_size};
ghost use Rattle.uimg_signing.specs.Strings.{cells_in, strings_of};

use crate::faults::SigningFault;
use crate::properties::value_named;
use std::alloc::{Allocator, Global};
use uimg_base::{Room, Source, SourceFault, Span, be32_at, first_nul};
use uimg_blob_reading::{Blob, extent_again, properties_of};

// Reads the size in the value of `hashed-strings`, in a strings block of `most` bytes.
fn read_cells<S: Source>(source: &mut S, value: Span, most: u64) -> Result<u64, SigningFault>
    requires inside { value.place + value.length ≤ length (S.device source.old).bytes }
    ensures uses { Asks 8 (is_unread result) (S.device source.old) (S.device source.new) }
    ensures told { HonestSource S.device source →
        Decides (cells_in (S.device source.old).bytes most value) result }
{
    if value.length != 8 {
        return Err(SigningFault::BadStrings);
    }
    let mut cells = [0; 8];
    if source.fill_at(value.place, &mut cells).is_err() {
        return Err(SigningFault::Read);
    }
    if be32_at(&cells, 0) != 0 {
        return Err(SigningFault::StringsOffset);
    }
    let size = be32_at(&cells, 4) as u64;
    if size > most {
        return Err(SigningFault::StringsOutside);
    }
    Ok(size)
}

/// Returns how many of so many bytes at the start of the strings block hold whole names: all of them,
/// if the last one is a NUL, else none.
pub(crate) fn names_size<S: Source>(
    source: &mut S,
    start: u64,
    strings: u64,
) -> Result<u64, SourceFault>
    requires inside { start + strings ≤ length (S.device source.old).bytes }
    requires short { start + strings < 2 ^ 64 }
    ensures uses { Asks 1 (is_err result) (S.device source.old) (S.device source.new) }
    ensures told { HonestSource S.device source → IfOk result (λ it.
        it ≡ names_size (S.device source.old).bytes start strings) }
{
    if strings == 0 {
        return Ok(0);
    }
    let mut last = [0; 1];
    if source.fill_at(start + strings - 1, &mut last).is_err() {
        return Err(SourceFault);
    }
    match first_nul(&last) {
        Some(_) => Ok(strings),
        None => Ok(0),
    }
}

/// Returns how many bytes at the start of the strings block a signature node says that it signs: the
/// second cell of its property `hashed-strings`, or 0 if it has none.
///
/// Blob and room must be as `index` left them, and the node's number below the count of entries.
/// Only the room's window changes.
///
/// - `Read`: if and only if a read failed.
/// - `OutOfMemory`: only if memory was refused.
/// - `BadStrings`: the value has not 8 bytes.
/// - `StringsOffset`: the first cell, an offset in the strings block, is not 0. U-Boot ignores it.
/// - `StringsOutside`: the strings block has fewer bytes.
/// - `Changed`: only if the source does not have the blob that was indexed.
pub fn strings_size<S: Source, A: Allocator>(
    alloc: Global,
    source: &mut S,
    blob: &Blob,
    room: &mut Room<A>,
    node: usize,
) -> Result<u64, SigningFault>
    requires { node < length room.old.entries }
    ensures uses { Uses (is_unread result) (S.device source.old) (S.device source.new) }
    ensures room { room.new ≡ room.old }
    ensures told { OfTreeRead (S.device source.old) blob.now room.old.entries node (λ rows row.
        Decides (strings_of (S.device source.old).bytes (places_of row)) result) }
{
    let places = match properties_of(alloc, source, blob, room, node) {
        Ok(places) => places,
        Err(fault) => return Err(SigningFault::from(fault)),
    };
    let extent = match extent_again(source, blob.totalsize()) {
        Ok(extent) => extent,
        Err(fault) => return Err(SigningFault::from(fault)),
    };
    let Ok(found) = value_named(source, &places, b"hashed-strings".as_slice()) else {
        return Err(SigningFault::Read);
    };
    match found {
        Some(value) => read_cells(source, value, extent.strings_size),
        None => Ok(0),
    }
}
