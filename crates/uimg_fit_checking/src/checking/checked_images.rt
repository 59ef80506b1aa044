//! Checks images one after the other, up to the first finding.

ghost use Rattle.std.specs.Prelude.{length, IfOk, IfSome};
ghost use Rattle.uimg_blob_reading.specs.Roles.{in_images};
ghost use Rattle.uimg_fit_checking.specs.Checks.{EndsInside};
ghost use Rattle.uimg_fit_checking.specs.CheckParts.{StaysInside, ChecksImage, ChecksImages};
ghost use Rattle.uimg_fit_reading.specs.Nodes.{OfNode, OfNodes, HasNode, HasNodes};
ghost use Rattle.uimg_fit_checking.specs.UnpackingParts.{ReadsOrRefuses};

use crate::checking::Finding;
use crate::checking::checked_payloads::{Checked, Payload, check_payload};
use std::alloc::Allocator;
use uimg_base::{Algo, Room, Source, Span};
use uimg_blob_reading::Blob;
use uimg_fit_base::Fault;
use uimg_fit_reading::nodes::next_of;
use uimg_fit_reading::payload_place;

// At most `left` bytes of the payload may be read.
fn check_image<S: Source, A: Allocator>(
    source: &mut S,
    blob: &Blob,
    room: &mut Room<A>,
    image: usize,
    need: Option<Algo>,
    left: u64,
) -> Result<Checked, Fault>
    requires { HasNode (S.device source.old) blob.now room.old image }
    ensures leaves { ReadsOrRefuses result S.device source room }
    ensures inside { IfOk result (StaysInside (length (S.device source.old).bytes)) }
    ensures told { OfNode (S.device source.old) blob.now room.old in_images image
        (λ found. ChecksImage need left found result S.device source) }
{
    let span = payload_place(source, blob, room, image)?;
    let payload = Payload { image, span };
    Ok(check_payload(source, blob, room, payload, need, left)?)
}

// As many bytes may be read as the source has.
pub(crate) fn first_finding<S: Source, A: Allocator>(
    source: &mut S,
    blob: &Blob,
    room: &mut Room<A>,
    first: Option<usize>,
    need: Option<Algo>,
) -> Result<Option<Finding<Span>>, Fault>
    requires { HasNodes (S.device source.old) blob.now room.old first }
    ensures leaves { ReadsOrRefuses result S.device source room }
    ensures inside { IfOk result (λ found. IfSome found
        (EndsInside (length (S.device source.old).bytes))) }
    ensures told { OfNodes (S.device source.old) blob.now room.old in_images first
        (λ found. ChecksImages need found result S.device source) }
{
    let mut left = source.size()?;
    let mut next = first;
    while let Some(image) = next {
        match check_image(source, blob, room, image, need, left)? {
            Checked::On(rest) => left = rest,
            Checked::Ended(finding) => return Ok(Some(finding)),
        }
        next = next_of(blob, room, image);
    }
    Ok(None)
}
