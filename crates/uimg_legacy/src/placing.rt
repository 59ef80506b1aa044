//! Where all parts of an image are.

ghost use Rattle.std.specs.Prelude.{◌≡◌, ◌+◌, ◌*◌, ◌≤◌, [], ◌∷◌, ◌++◌, length, IfOk, OnOk};
ghost use Rattle.uimg_base.specs.{Honest.HonestSource, Using.{Asks, UsesWithin}};
ghost use Rattle.uimg_legacy.specs.Placing.{spans_of_parts, is_unread, GivesPlaces, TellsSpans};
ghost use Rattle.uimg_legacy.specs.Work.{table_work};

use crate::fault::{Fault, LegacyFault};
use crate::header::Header;
use crate::parts::{count_sizes, has_parts, size_at};
use std::alloc::{AllocError, Allocator, Global};
use thiserror::Error;
use uimg_base::{Room, Source, SourceFault, Span, up4};

/// Why the parts of an image are not returned. Its text is the line that the program prints.
#[derive(Clone, Copy, Debug, PartialEq, Eq, Error)]
pub enum PartsFault {
    /// The image is refused, or a read failed.
    #[error("{0}")]
    Stopped(Fault),
    /// Memory for the spans was refused.
    #[error("out of memory")]
    OutOfMemory,
}

impl From<Fault> for PartsFault {
    ghost use Rattle.std.specs.Prelude.{◌≡◌};
    ghost use Rattle.uimg_legacy.specs.declared.placing.PartsFault.TheVariants.{Stopped};

    ghost from_gives = { λ f e. e ≡ Stopped f };

    fn from(fault: Fault) -> PartsFault {
        PartsFault::Stopped(fault)
    }
}

impl From<SourceFault> for PartsFault {
    ghost use Rattle.std.specs.Prelude.{◌≡◌};
    ghost use Rattle.uimg_legacy.specs.declared.fault.Fault.TheVariants.{Read};
    ghost use Rattle.uimg_legacy.specs.declared.placing.PartsFault.TheVariants.{Stopped};

    ghost from_gives = { λ _ e. e ≡ Stopped Read };

    fn from(_fault: SourceFault) -> PartsFault {
        PartsFault::Stopped(Fault::Read)
    }
}

impl From<AllocError> for PartsFault {
    ghost use Rattle.std.specs.Prelude.{◌≡◌};
    ghost use Rattle.uimg_legacy.specs.declared.placing.PartsFault.TheVariants.{OutOfMemory};

    ghost from_gives = { λ _ e. e ≡ OutOfMemory };

    fn from(_fault: AllocError) -> PartsFault {
        PartsFault::OutOfMemory
    }
}

fn push_part(parts: &mut Vec<Span>, part: Span) -> Result<(), AllocError>
    ensures { OnOk result (parts.new.items ≡ parts.old.items ++ part ∷ []) }
{
    parts.push(part)?;
    Ok(())
}

// Stops at the first part that ends after the data.
fn place_parts<S: Source>(
    alloc: Global,
    source: &mut S,
    size: u32,
    count: u32,
) -> Result<Vec<Span>, PartsFault>
    requires data { 64 + size ≤ length (S.device source.old).bytes }
    requires table { 4 * (count + 1) ≤ size }
    ensures uses { Asks (4 * count) (is_unread result) (S.device source.old) (S.device source.new) }
    ensures told { TellsSpans (λ parts. parts.items) size count result S.device source }
{
    let mut parts = Vec::new(alloc);
    let mut start = 4 * (count as u64 + 1);
    for i in 0..count {
        let len = size_at(source, i)?;
        if start + len as u64 > size as u64 {
            return Err(PartsFault::Stopped(Fault::Legacy(LegacyFault::PartOutside)));
        }
        let part = Span {
            place: 64 + start,
            length: len as u64,
        };
        push_part(&mut parts, part)?;
        let rounded = up4(len as u64);
        start += rounded;
    }
    Ok(parts)
}

fn only_part(alloc: Global, size: u32) -> Result<Vec<Span>, AllocError>
    ensures { IfOk result (λ parts. parts.items ≡ record { place = 64; length = size } ∷ []) }
{
    let mut parts = Vec::new(alloc);
    parts.push(Span {
        place: 64,
        length: size as u64,
    })?;
    Ok(parts)
}

/// Finds the parts of an image with this header: those of its table for the types multi and script,
/// else the data. The checksum of the data is not checked. Returns their spans. Of an honest source
/// at most 12 bytes for each size in the table and 12 more are requested. Of the room only the
/// window changes.
///
/// - `Truncated`, `NoTableEnd`, `PartOutside`: the first of these.
/// - `Read`: if and only if a read failed.
/// - `OutOfMemory`: memory for the spans was refused, 16 bytes for each.
#[tactic(auto, unfolding(crate::specs::Placing::spans_of_parts))]
pub fn locate_parts<S: Source, A: Allocator>(
    alloc: Global,
    source: &mut S,
    room: &mut Room<A>,
    header: &Header,
) -> Result<Vec<Span>, PartsFault>
    ensures uses { UsesWithin (table_work header.now) (is_unread result) S.device source }
    ensures room { room.new ≡ room.old }
    ensures told { HonestSource S.device source → GivesPlaces (λ parts. parts.items) result
        (spans_of_parts (S.device source.old).bytes header.now) }
{
    if source.size()? < 64 + header.size as u64 {
        return Err(PartsFault::Stopped(Fault::Legacy(LegacyFault::Truncated)));
    }
    if !has_parts(header.kind) {
        return Ok(only_part(alloc, header.size)?);
    }
    let count = count_sizes(source, room, header.size)?;
    place_parts(alloc, source, header.size, count)
}
