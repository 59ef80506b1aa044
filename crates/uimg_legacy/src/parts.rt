//! The parts of the types multi and script: how many, and where each is.

ghost use Rattle.std.specs.Prelude.{◌≡◌, ◌+◌, ◌*◌, ◌≤◌, ◌<◌, length, IfOk, is_err};
ghost use Rattle.uimg_base.specs.{Honest.IfHonest, Using.{Asks, UsesAtMost}};
ghost use Rattle.uimg_legacy.specs.Placing.{ListsSpan, FindsSpan};
ghost use Rattle.uimg_legacy.specs.{Parts.has_parts, Work.table_work, Tables.{Counts, sizes_work}};
ghost use Rattle.uimg_legacy.specs.Reading.{Reads, FindsPart, ListsPart, IsWordAt};

use crate::fault::{Fault, LegacyFault};
use crate::header::Header;
use crate::table::{count_window, sum_first};
use std::alloc::Allocator;
use uimg_base::{MULTI, Room, SCRIPT, Source, SourceFault, Span, be32_at};

/// Returns whether an image of this type has parts: multi (4) and script (6) do.
#[tactic(auto, unfolding(crate::specs::Parts::has_parts))]
pub fn has_parts(kind: u8) -> bool
    ensures { result ≡ has_parts kind }
{
    kind == MULTI || kind == SCRIPT
}

// Sizes are counted from 0.
#[tactic(auto, unfolding(uimg_texts::specs::Numbers::be32))]
pub(crate) fn size_at<S: Source>(source: &mut S, i: u32) -> Result<u32, SourceFault>
    requires { 64 + 4 * (i + 1) ≤ length (S.device source.old).bytes }
    ensures uses { Asks 4 (is_err result) (S.device source.old) (S.device source.new) }
    ensures size { IfHonest S.device source (λ file. IsWordAt (64 + 4 * i) file result) }
{
    let mut word = [0; 4];
    source.fill_at(64 + 4 * i as u64, &mut word)?;
    Ok(be32_at(&word, 0))
}

// Counts the sizes before the zero word that ends the table. A window has at most one word more
// than were read before it, so little after the zero word is read.
pub(crate) fn count_sizes<S: Source, A: Allocator>(
    source: &mut S,
    room: &mut Room<A>,
    size: u32,
) -> Result<u32, Fault>
    requires { 64 + size ≤ length (S.device source.old).bytes }
    ensures reads { Reads UsesAtMost (sizes_work size) (Counts size) result S.device source room }
    ensures inside { IfOk result (λ n. 4 * (n + 1) ≤ size) }
{
    let words = size / 4;
    let mut counted = 0;
    while counted < words {
        let next = u32::min(u32::min(counted + 1, 2048), words - counted);
        let found = count_window(source, room, counted, next)?;
        counted += found;
        if found < next {
            return Ok(counted);
        }
    }
    Err(Fault::Legacy(LegacyFault::NoTableEnd))
}

pub(crate) fn listed_part<S: Source, A: Allocator>(
    source: &mut S,
    room: &mut Room<A>,
    size: u32,
    count: u32,
    position: u32,
) -> Result<Span, Fault>
    requires data { 64 + size ≤ length (S.device source.old).bytes }
    requires table { 4 * (count + 1) ≤ size }
    requires position { position < count }
    ensures reads { Reads Asks (λ _. 4 * (position + 1)) (ListsPart size count position) result
        S.device source room }
    ensures inside { IfOk result (λ span. span.place + span.length ≤ 64 + size) }
    ensures span { IfHonest S.device source (λ file. ListsSpan size count position file result) }
{
    let start = 4 * (count as u64 + 1) + sum_first(source, room, position)?;
    let len = size_at(source, position)?;
    if start + len as u64 > size as u64 {
        return Err(Fault::Legacy(LegacyFault::PartOutside));
    }
    Ok(Span {
        place: 64 + start,
        length: len as u64,
    })
}

// Finds the part at a position: one of the table, or the data of a single file.
#[tactic(auto, unfolding(crate::specs::Extraction::single))]
pub(crate) fn find_part<S: Source, A: Allocator>(
    source: &mut S,
    room: &mut Room<A>,
    header: &Header,
    position: u32,
) -> Result<Span, Fault>
    requires { 64 + header.now.size ≤ length (S.device source.old).bytes }
    ensures reads { Reads UsesAtMost (table_work header.now) (FindsPart header.now position) result
        S.device source room }
    ensures inside { IfOk result (λ span. span.place + span.length ≤ 64 + header.now.size) }
    ensures span { IfHonest S.device source (λ file. FindsSpan header.now position file result) }
{
    if !has_parts(header.kind) {
        if position != 0 {
            return Err(Fault::Legacy(LegacyFault::NoSuchPart));
        }
        return Ok(Span {
            place: 64,
            length: header.size as u64,
        });
    }
    let count = count_sizes(source, room, header.size)?;
    if position >= count {
        return Err(Fault::Legacy(LegacyFault::NoSuchPart));
    }
    listed_part(source, room, header.size, count, position)
}
