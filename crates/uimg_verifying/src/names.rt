//! The names of nodes.

ghost use Rattle.std.specs.Prelude.{◌≡◌, ◌<◌, length, IfOk};
ghost use Rattle.uimg_base.specs.{Honest.HonestSource, Using.Uses};
ghost use Rattle.uimg_fit_checking.specs.SurveyParts.{IsOwn, is_unread};
ghost use Rattle.uimg_fit_reading.specs.Nodes.{InFile};
ghost use Rattle.uimg_signing.specs.Listing.{name_in};
ghost use Rattle.uimg_verifying.specs.Configurations.{OfNode};

use std::alloc::{Allocator, Global};
use uimg_base::{Room, Source};
use uimg_blob_reading::Blob;
use uimg_fit_checking::{SurveyFault, read_bytes};

/// Reads the name of a node.
pub(crate) fn read_name<S: Source, A: Allocator>(
    alloc: Global,
    source: &mut S,
    blob: &Blob,
    room: &Room<A>,
    node: usize,
) -> Result<Vec<u8>, SurveyFault>
    requires node { node < length room.now.entries }
    requires file { InFile (length (S.device source.old).bytes) blob.now room.now.entries }
    ensures uses { Uses (is_unread result) (S.device source.old) (S.device source.new) }
    ensures own { IsOwn result }
    ensures told { HonestSource S.device source → OfNode blob.now room.now node (λ row. IfOk result
        (λ name. name.items ≡ name_in (S.device source.old).bytes row)) }
{
    read_bytes(alloc, source, blob.name(room, node))
}
