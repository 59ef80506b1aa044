//! Which payloads are requested: those of all images, or of the images of one name.

ghost use Rattle.std.specs.Prelude.{◌≡◌, length, IfOk, IfSome};
ghost use Rattle.std.specs.Option.{option_map};
ghost use Rattle.uimg_base.specs.Using.{Asks};
ghost use Rattle.uimg_blob_reading.specs.Roles.{in_images};
ghost use Rattle.uimg_fit_base.specs.Faults.{is_read};
ghost use Rattle.uimg_fit_reading.specs.Nodes.{OfNode, HasNode};
ghost use Rattle.uimg_fit_reading.specs.Puts.{OnlyReadFaults};
ghost use Rattle.uimg_fit_checking.specs.Unpacking.{which};
ghost use Rattle.uimg_fit_checking.specs.UnpackingParts.{IsPayloadOf, TellsFound};

use crate::unpacking::node_names::{NodeName, read_name};
use crate::unpacking::wanted::{Wanted, is_asked};
use std::alloc::Allocator;
use uimg_base::{Algo, Room, Source, Span};
use uimg_blob_reading::Blob;
use uimg_fit_base::Fault;
use uimg_fit_reading::nodes::name_of;
use uimg_fit_reading::payload_place;

/// Which payloads are requested, and what must vouch for them.
#[derive(Clone, Copy)]
pub(super) struct Request<'a> {
    // The requested images.
    pub(super) only: Wanted<'a>,
    // The needed strength, if one is needed.
    pub(super) need: Option<Algo>,
}

/// A requested payload.
#[derive(Clone, Copy)]
pub(super) struct Requested {
    // The number of its image.
    pub(super) image: usize,
    // The name of its image.
    pub(super) name: NodeName,
    // Where it is.
    pub(super) span: Span,
}

pub(super) fn find_requested<S: Source, A: Allocator>(
    source: &mut S,
    blob: &Blob,
    room: &Room<A>,
    image: usize,
    only: Wanted<'_>,
) -> Result<Option<Requested>, Fault>
    requires { HasNode (S.device source.old) blob.now room.now image }
    ensures uses { Asks 267 (is_read result) (S.device source.old) (S.device source.new) }
    ensures only { OnlyReadFaults result }
    ensures its { IfOk result (λ found. IfSome found
        (IsPayloadOf image (length (S.device source.old).bytes))) }
    ensures told { OfNode (S.device source.old) blob.now room.now in_images image
        (λ found. TellsFound (which only.entry) (S.device source.old).bytes found result) }
{
    let name = read_name(source, name_of(blob, room, image))?;
    if !is_asked(only, &name) {
        return Ok(None);
    }
    let span = payload_place(source, blob, room, image)?;
    Ok(Some(Requested { image, name, span }))
}
