//! The reservation block of a blob.

ghost use Rattle.std.specs.Prelude.{◌≡◌, ◌+◌, ◌≤◌, Some, length, drop, IfOk};
ghost use Rattle.uimg_base.specs.{Device.SameDevice, Honest.HonestSource};
ghost use Rattle.uimg_texts.specs.Numbers.{be32};
ghost use Rattle.uimg_fit_updating.specs.Reservations.{reservation_at, ends_list, items_in, entries_in, block_end, reservations_of};

use crate::fault::UpdateFault;
use crate::reading::values::read_span;
use byteorder::{BigEndian, ByteOrder};
use std::alloc::{AllocError, Allocator, Global};
use uimg_base::{Room, Source, SourceFault, Span, be32_at};
use uimg_blob_writing::Reservation;

// The offsets in the header of the offsets of the structure block and the reservation block
// (Devicetree Specification, section 5.2).
const STRUCTURE_OFFSET: u64 = 8;

const BLOCK_OFFSET: u64 = 16;

// The size of the header in bytes.
const HEADER: u32 = 40;

// The size of an entry in bytes.
const ENTRY: usize = 16;

// The most bytes of a block that are read.
const MOST: u32 = 65536;

fn word_at<S: Source>(source: &mut S, at: u64) -> Result<u32, SourceFault>
    requires { at + 4 ≤ length (S.device source.old).bytes }
    ensures same { SameDevice (S.device source.old) (S.device source.new) }
    ensures told { HonestSource S.device source → IfOk result (λ word.
        word ≡ be32 (S.device source.old).bytes at) }
{
    let mut word = [0; 4];
    source.fill_at(at, &mut word)?;
    Ok(be32_at(&word, 0))
}

fn entry_of(bytes: &[u8]) -> Reservation
    requires { 16 ≤ length bytes.now }
    ensures { result ≡ reservation_at bytes.now }
{
    Reservation {
        address: BigEndian::read_u64(&bytes[..8]),
        size: BigEndian::read_u64(&bytes[8..16]),
    }
}

// Returns whether an entry ends the list, as it does for libfdt.
fn is_end(entry: Reservation) -> bool
    ensures { result ≡ ends_list entry }
{
    entry.size == 0
}

fn behind(bytes: &[u8]) -> &[u8]
    requires { 16 ≤ length bytes.now }
    ensures { result.now ≡ drop 16 bytes.now }
{
    &bytes[ENTRY..]
}

// Returns none without an entry that ends the list.
fn entries_in(alloc: Global, bytes: &[u8]) -> Result<Option<Vec<Reservation>>, AllocError>
    ensures { IfOk result (λ found. items_in found ≡ entries_in bytes.now) }
{
    let mut entries = Vec::new(alloc);
    let mut rest = bytes;
    while rest.len() >= ENTRY {
        let entry = entry_of(rest);
        if is_end(entry) {
            return Ok(Some(entries));
        }
        entries.push(entry)?;
        rest = behind(rest);
    }
    Ok(None)
}

fn block_end(place: u32, structure: u32, totalsize: u32) -> u32
    ensures { result ≡ block_end place structure totalsize }
{
    if place < structure {
        u32::min(structure, totalsize)
    } else {
        totalsize
    }
}

/// Reads the entries through the room's window. Returns `Endless` if the block begins within the
/// header, or no entry of size 0 ends it before the structure block or the blob's end, and within
/// 65536 bytes.
pub(crate) fn read_reservations<S: Source, A: Allocator>(
    alloc: Global,
    source: &mut S,
    room: &mut Room<A>,
    totalsize: u32,
) -> Result<Vec<Reservation>, UpdateFault>
    requires { totalsize ≤ length (S.device source.old).bytes }
    ensures same { SameDevice (S.device source.old) (S.device source.new) }
    ensures room { room.new ≡ room.old }
    ensures told { HonestSource S.device source →
        totalsize ≡ be32 (S.device source.old).bytes 4 →
        IfOk result (λ found.
        reservations_of (S.device source.old).bytes ≡ Some found.items) }
{
    if totalsize < 20 {
        return Err(UpdateFault::Endless);
    }
    let place = word_at(source, BLOCK_OFFSET)?;
    let structure = word_at(source, STRUCTURE_OFFSET)?;
    let end = block_end(place, structure, totalsize);
    if place < HEADER || place >= end {
        return Err(UpdateFault::Endless);
    }
    let span = Span {
        place: place as u64,
        length: u32::min(MOST, end - place) as u64,
    };
    let bytes = read_span(alloc, source, room, span)?;
    match entries_in(alloc, bytes.items())? {
        Some(found) => Ok(found),
        None => Err(UpdateFault::Endless),
    }
}
