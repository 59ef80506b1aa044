//! Compares the hash nodes of one image with its payload.

ghost use Rattle.std.specs.Prelude.{◌≡◌, ◌+◌, ◌≤◌, length, is_err, IfOk, if◌then◌else◌};
ghost use Rattle.uimg_base.specs.Using.{Uses};
ghost use Rattle.uimg_blob_reading.specs.Roles.{in_images};
ghost use Rattle.uimg_fit_base.specs.AlgoSets.{is_empty};
ghost use Rattle.uimg_fit_checking.specs.CheckParts.{StaysInside, ChecksPayload};
ghost use Rattle.uimg_fit_reading.specs.Nodes.{OfNode, HasNode};

use crate::checking::Finding;
use crate::vouching::lacks;
use crate::wrong_hashes::first_wrong;
use std::alloc::Allocator;
use uimg_base::{Algo, Room, Source, SourceFault, Span};
use uimg_blob_reading::Blob;
use uimg_fit_base::AlgoSet;
use uimg_fit_reading::nodes::{first_hash, name_of};
use uimg_fit_reading::{compared_algos, payload_digests};
use uimg_texts::Naming;

/// The result of checking an image.
#[derive(Clone, Copy, Debug, PartialEq, Eq)]
pub(crate) enum Checked {
    // It is in order, and this many bytes may still be read.
    On(u64),
    // The finding about it.
    Ended(Finding<Span>),
}

/// An image and the span of its payload.
#[derive(Clone, Copy)]
pub(crate) struct Payload {
    // The number of the image.
    pub(crate) image: usize,
    // Where the payload is.
    pub(crate) span: Span,
}

fn read_size(set: AlgoSet, span: Span) -> u64
    ensures { result ≡ (if is_empty set then 0 else span.length) }
{
    if set.is_empty() { 0 } else { span.length }
}

// At most `left` bytes of the payload may be read.
pub(crate) fn check_payload<S: Source, A: Allocator>(
    source: &mut S,
    blob: &Blob,
    room: &mut Room<A>,
    payload: Payload,
    need: Option<Algo>,
    left: u64,
) -> Result<Checked, SourceFault>
    requires node { HasNode (S.device source.old) blob.now room.old payload.image }
    requires payload { payload.span.place + payload.span.length
        ≤ length (S.device source.old).bytes }
    ensures uses { Uses (is_err result) (S.device source.old) (S.device source.new) }
    ensures room { room.new ≡ room.old }
    ensures inside { IfOk result (StaysInside (length (S.device source.old).bytes)) }
    ensures told { OfNode (S.device source.old) blob.now room.old in_images payload.image
        (λ found. ChecksPayload need left found payload.span result S.device source) }
{
    let name = name_of(blob, room, payload.image);
    let first = first_hash(blob, room, payload.image);
    let set = compared_algos(source, blob, room, Naming::All, first)?;
    let size = read_size(set, payload.span);
    if size > left {
        return Ok(Checked::Ended(Finding::Overlapping(name)));
    }
    let digests = payload_digests(source, room, set, payload.span)?;
    if let Some(wrong) = first_wrong(source, blob, room, first, &digests)? {
        return Ok(Checked::Ended(wrong.finding(name)));
    }
    if lacks(set, need) {
        return Ok(Checked::Ended(Finding::Weak(name)));
    }
    Ok(Checked::On(left - size))
}
