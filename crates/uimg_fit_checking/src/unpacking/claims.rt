//! Checks, before any payload is taken, that the payloads of all requested images are present and
//! have at most the file's length together.

ghost use Rattle.std.specs.Prelude.{◌≡◌, ◌++◌, IfOk, IsTrue};
ghost use Rattle.uimg_blob_reading.specs.Roles.{in_images};
ghost use Rattle.uimg_fit_reading.specs.Nodes.{OfNodes, HasNodes};
ghost use Rattle.uimg_fit_checking.specs.{Unpacking.which, Claiming.claim_of};
ghost use Rattle.uimg_fit_checking.specs.UnpackingParts.{LeavesImage, Claims, ClaimsImages};

use crate::unpacking::node_names::NodeName;
use crate::unpacking::requested::{Requested, find_requested};
use crate::unpacking::taker::Taker;
use crate::unpacking::wanted::Wanted;
use std::alloc::Allocator;
use uimg_base::{PutFault, Room, Source};
use uimg_blob_reading::Blob;
use uimg_fit_base::Fault;
use uimg_fit_reading::nodes::next_of;

/// The result of claiming a payload.
#[derive(Clone, Copy, Debug)]
enum Claim {
    // This many bytes may still be read.
    Fits(u64),
    // It is longer than the bytes that may still be read; the name is that of its image.
    Overlaps(NodeName),
}

// Claims a payload, if one was found; at most `left` bytes of it may be read.
fn claim_requested<T: Taker>(
    found: Option<Requested>,
    left: u64,
    taker: &mut T,
) -> Result<Claim, PutFault>
    ensures place { T.place taker.new ≡ T.place taker.old }
    ensures none_begun { T.begun taker.new ≡ T.begun taker.old }
    ensures none_given { IsTrue T.honest → T.takes taker.new ≡ T.takes taker.old }
    ensures told { IfOk result (Claims left found) }
    ensures claimed { IsTrue T.notes →
        T.claimed taker.new ≡ T.claimed taker.old ++ claim_of left found }
{
    let Some(payload) = found else {
        return Ok(Claim::Fits(left));
    };
    if payload.span.length > left {
        return Ok(Claim::Overlaps(payload.name));
    }
    taker.claim(&payload.name, payload.span.length)?;
    Ok(Claim::Fits(left - payload.span.length))
}

// Claims the requested images from one on; of their payloads as many bytes may be read as the
// source has. Returns the name of the first one that exceeds this.
pub(super) fn claim_images<S: Source, A: Allocator, T: Taker>(
    source: &mut S,
    blob: &Blob,
    room: &mut Room<A>,
    first: Option<usize>,
    only: Wanted<'_>,
    taker: &mut T,
) -> Result<Option<NodeName>, Fault>
    requires { HasNodes (S.device source.old) blob.now room.old first }
    ensures leaves { LeavesImage result S.device source room }
    ensures place { T.place taker.new ≡ T.place taker.old }
    ensures none_begun { T.begun taker.new ≡ T.begun taker.old }
    ensures none_given { IsTrue T.honest → T.takes taker.new ≡ T.takes taker.old }
    ensures told { OfNodes (S.device source.old) blob.now room.old in_images first
        (λ found. ClaimsImages (which only.entry) found result S.device source
        T.notes T.claimed taker) }
{
    let mut left = source.size()?;
    let mut next = first;
    while let Some(image) = next {
        let found = find_requested(source, blob, room, image, only)?;
        match claim_requested(found, left, taker)? {
            Claim::Fits(rest) => left = rest,
            Claim::Overlaps(name) => return Ok(Some(name)),
        }
        next = next_of(blob, room, image);
    }
    Ok(None)
}
