//! Where the payload of an image is.

ghost use Rattle.std.specs.Prelude.{◌≡◌, false, ◌+◌, ◌<◌, ◌≤◌, ◌^◌, length, is_err, Ok, IfOk, IfSome, IfErr};
ghost use Rattle.uimg_base.specs.{Honest.HonestSource, Using.Asks};
ghost use Rattle.uimg_blob_reading.specs.{LookUps.NodeOf, Grammar.Siblings, Roles.in_images};
ghost use Rattle.uimg_blob_reading.specs.Spots.{Spot};
ghost use Rattle.uimg_fit_base.specs.{Faults.{is_read, of_making}, Files.number_in};
ghost use Rattle.uimg_fit_base.specs.Places.{external, or_else, embedded, place, TellsPlace};
ghost use Rattle.uimg_fit_reading.specs.Nodes.{IsRead, IsNode, HasNode, AtLevel, InAnyFile};
ghost use Rattle.uimg_fit_reading.specs.Puts.{OnlyReadFaults};
ghost use Rattle.uimg_fit_reading.specs.PayloadPlaces.{place_said, payload_said, read_payload, PayloadInside, Ends, PlaceOrFault};

use crate::nodes::value_of;
use std::alloc::Allocator;
use uimg_base::{Room, Source, SourceFault, Span, be32_at, up4};
use uimg_blob_reading::{Blob, Key};
use uimg_fit_base::{Fault, FitFault};

/// The properties of an image that say where its payload is.
#[derive(Clone, Copy, Debug, PartialEq, Eq)]
pub struct PayloadFacts {
    /// `data`: the payload itself.
    pub embedded: Option<Span>,
    /// `data-size`: the length of the payload, a cell.
    pub size: Option<Span>,
    /// `data-offset`: its offset from the end of the blob, a cell.
    pub offset: Option<Span>,
    /// `data-position`: its offset in the file, a cell.
    pub position: Option<Span>,
}

/// Finds the properties of an image that say where its payload is.
pub fn payload_facts<A: Allocator>(blob: &Blob, room: &Room<A>, image: usize) -> PayloadFacts
    requires { image < length room.now.entries }
    ensures inside { InAnyFile blob.now room.now (λ size. PayloadInside size result) }
    ensures said { AtLevel blob.now room.now in_images image
        (λ file found. read_payload file result ≡ payload_said found) }
{
    PayloadFacts {
        embedded: value_of(blob, room, image, Key::Data),
        size: value_of(blob, room, image, Key::DataSize),
        offset: value_of(blob, room, image, Key::DataOffset),
        position: value_of(blob, room, image, Key::DataPosition),
    }
}

// Reads a value as a number, if it is present and has four bytes.
pub(crate) fn cell<S: Source>(
    source: &mut S,
    value: Option<Span>,
) -> Result<Option<u32>, SourceFault>
    requires { Ends (length (S.device source.old).bytes) value }
    ensures uses { Asks 4 (is_err result) (S.device source.old) (S.device source.new) }
    ensures number { HonestSource S.device source →
        IfOk result (λ found. found ≡ number_in (S.device source.old).bytes value) }
{
    let Some(span) = value else {
        return Ok(None);
    };
    if span.length != 4 {
        return Ok(None);
    }
    let mut bytes = [0; 4];
    source.fill_at(span.place, &mut bytes)?;
    Ok(Some(be32_at(&bytes, 0)))
}

// Returns the span of a payload by the cells of its image and its value `data`, or `NoData`.
pub(crate) fn decide(
    base: u64,
    size: Option<u32>,
    position: Option<u32>,
    offset: Option<u32>,
    payload: Option<Span>,
) -> Result<Span, FitFault>
    requires { base < 2 ^ 40 }
    ensures place { result ≡ or_else (external 0 position size) (external base offset size)
        (embedded payload) }
    ensures no_making { IfErr result (λ fault. of_making fault ≡ false) }
    ensures small { IfSome payload (λ s. (s.place < 2 ^ 40) × (s.length < 2 ^ 32)) →
        IfOk result (λ p. (p.place < 2 ^ 41) × (p.length < 2 ^ 32)) }
{
    if let (Some(at), Some(size)) = (position, size) {
        return Ok(Span {
            place: at as u64,
            length: size as u64,
        });
    }
    if let (Some(at), Some(size)) = (offset, size) {
        return Ok(Span {
            place: base + at as u64,
            length: size as u64,
        });
    }
    payload.ok_or(FitFault::NoData)
}

/// Finds the payload of an image in a file whose blob has this total size. These are tried in
/// order: its `data-position` from the file's start; its `data-offset` from the blob's end, rounded
/// up to a multiple of 4; the span of its `data`. The first two need a `data-size`. A cell without
/// four bytes counts as missing.
///
/// Returns `NoData` if nothing of this is present. The returned span may be outside the file.
/// Requests at most 12 bytes.
pub fn find_payload<S: Source>(
    source: &mut S,
    totalsize: u32,
    facts: &PayloadFacts,
) -> Result<Result<Span, FitFault>, SourceFault>
    requires values { PayloadInside totalsize facts.now }
    requires blob { totalsize ≤ length (S.device source.old).bytes }
    ensures uses { Asks 12 (is_err result) (S.device source.old) (S.device source.new) }
    ensures found { IfOk result PlaceOrFault }
    ensures place { HonestSource S.device source → IfOk result (λ p.
        p ≡ place_said totalsize (read_payload (S.device source.old).bytes facts.now)) }
{
    let size = cell(source, facts.size)?;
    let position = cell(source, facts.position)?;
    let offset = cell(source, facts.offset)?;
    Ok(decide(
        up4(totalsize as u64),
        size,
        position,
        offset,
        facts.embedded,
    ))
}

pub(crate) fn find_place<S: Source, A: Allocator>(
    source: &mut S,
    blob: &Blob,
    room: &Room<A>,
    image: usize,
) -> Result<Result<Span, FitFault>, SourceFault>
    requires { HasNode (S.device source.old) blob.now room.now image }
    ensures uses { Asks 12 (is_err result) (S.device source.old) (S.device source.new) }
    ensures found { IfOk result PlaceOrFault }
    ensures place { HonestSource S.device source → (t : Siblings) →
        IsRead (S.device source.old).bytes blob.now room.now.entries t → (found : NodeOf Spot) →
        IsNode t in_images image found →
        IfOk result (λ p. p ≡ place (S.device source.old).bytes found) }
{
    let facts = payload_facts(blob, room, image);
    find_payload(source, blob.totalsize(), &facts)
}

/// Finds the payload of an image.
///
/// - `NoData`: the image has none.
/// - `DataOutside`: the payload ends after the source.
pub fn payload_place<S: Source, A: Allocator>(
    source: &mut S,
    blob: &Blob,
    room: &Room<A>,
    image: usize,
) -> Result<Span, Fault>
    requires { HasNode (S.device source.old) blob.now room.now image }
    ensures uses { Asks 12 (is_read result) (S.device source.old) (S.device source.new) }
    ensures only { OnlyReadFaults result }
    ensures inside { IfOk result (λ p. p.place + p.length ≤ length (S.device source.old).bytes) }
    ensures told { HonestSource S.device source → (t : Siblings) →
        IsRead (S.device source.old).bytes blob.now room.now.entries t → (found : NodeOf Spot) →
        IsNode t in_images image found → TellsPlace (S.device source.old).bytes found result }
    ensures place { HonestSource S.device source → (t : Siblings) →
        IsRead (S.device source.old).bytes blob.now room.now.entries t → (found : NodeOf Spot) →
        IsNode t in_images image found →
        IfOk result (λ p. place (S.device source.old).bytes found ≡ Ok p) }
{
    let span = find_place(source, blob, room, image)??;
    if span.place + span.length > source.size()? {
        return Err(Fault::Fit(FitFault::DataOutside));
    }
    Ok(span)
}
