//! Strict checks of the order of payloads after the tree.

ghost use Rattle.std.specs.Prelude.{◌≡◌, ◌+◌, ◌<◌, ◌^◌, ℕ, List, is_err, IfOk, IfSome};
ghost use Rattle.uimg_base.specs.Using.{Uses};
ghost use Rattle.uimg_blob_reading.specs.Roles.{in_images};
ghost use Rattle.uimg_fit_checking.specs.SurveyParts.{IsOwn, is_unread};
ghost use Rattle.uimg_fit_reading.specs.Nodes.{HasNode, HasNodes, OfNode, OfNodes};
ghost use Rattle.uimg_texts.specs.Numbers.{be32};
ghost use Rattle.uimg_strict.specs.Looseness.{external_place, end_after, first_misplaced};
ghost use Rattle.uimg_strict.specs.Telling.{TellsLoose};

use crate::images::in_image;
use crate::loose::{Loose, Looseness};
use std::alloc::{Allocator, Global};
use uimg_base::{Room, Source, SourceFault, Span};
use uimg_blob_reading::Blob;
use uimg_fit_checking::SurveyFault;
use uimg_fit_reading::nodes::next_of;
use uimg_fit_reading::{find_payload, payload_facts};

// Returns `None` for a payload in the tree, or one that is not found.
fn external_place<S: Source, A: Allocator>(
    source: &mut S,
    blob: &Blob,
    room: &Room<A>,
    image: usize,
) -> Result<Option<Span>, SourceFault>
    requires { HasNode (S.device source.old) blob.now room.now image }
    ensures uses { Uses (is_err result) (S.device source.old) (S.device source.new) }
    ensures small { IfOk result (λ found. IfSome found (λ p.
        (p.place < 2 ^ 41) × (p.length < 2 ^ 32))) }
    ensures told { OfNode (S.device source.old) blob.now room.now in_images image (λ found.
        IfOk result (λ p. p ≡ external_place (S.device source.old).bytes found)) }
{
    let facts = payload_facts(blob, room, image);
    if facts.size.is_none() {
        return Ok(None);
    }
    match find_payload(source, blob.totalsize(), &facts)? {
        Ok(place) => Ok(Some(place)),
        Err(_fault) => Ok(None),
    }
}

// Returns where the next payload may begin after one that may begin at `end`, or none if it begins
// before.
fn end_after(place: Option<Span>, end: u64) -> Option<u64>
    requires { IfSome place (λ p. (p.place < 2 ^ 41) × (p.length < 2 ^ 32)) }
    ensures { result ≡ end_after place end }
{
    let Some(place) = place else {
        return Some(end);
    };
    if place.place < end {
        return None;
    }
    Some(place.place + place.length)
}

/// Returns the first image, from one on, whose payload begins before the end of the blob or of an
/// earlier payload.
pub(crate) fn first_misplaced<S: Source, A: Allocator>(
    alloc: Global,
    source: &mut S,
    blob: &Blob,
    room: &Room<A>,
    first: Option<usize>,
) -> Result<Option<Loose>, SurveyFault>
    requires { HasNodes (S.device source.old) blob.now room.now first }
    ensures uses { Uses (is_unread result) (S.device source.old) (S.device source.new) }
    ensures own { IsOwn result }
    ensures told { OfNodes (S.device source.old) blob.now room.now in_images first (λ found.
        TellsLoose (first_misplaced (S.device source.old).bytes
        (be32 (S.device source.old).bytes 4) found) result) }
{
    let mut end = blob.totalsize() as u64;
    let mut next = first;
    while let Some(image) = next {
        let place = external_place(source, blob, room, image)?;
        match end_after(place, end) {
            Some(later) => end = later,
            None => return in_image(alloc, source, blob, room, image, Looseness::Misplaced),
        }
        next = next_of(blob, room, image);
    }
    Ok(None)
}
