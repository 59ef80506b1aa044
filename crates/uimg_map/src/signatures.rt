//! Which configuration's signature covers the payload of an image.

ghost use Rattle.std.specs.Prelude.{◌≡◌, ◌+◌, ◌<◌, ◌≤◌, length, IfOk, Some};
ghost use Rattle.std.specs.List.{All, slice_get};
ghost use Rattle.uimg_base.specs.Using.{Uses};
ghost use Rattle.uimg_blob_reading.specs.{Counts.nops_met, Rows.Row};
ghost use Rattle.uimg_fit_base.specs.Files.{bytes_in};
ghost use Rattle.uimg_fit_checking.specs.SurveyParts.{IsOwn, is_unread};
ghost use Rattle.uimg_map.specs.Signatures.{covered_by, covering_cost, stop_of};
ghost use Rattle.uimg_signing.specs.{ImageNaming.{names_image, naming_cost}, Listing.{OfTreeRead, name_in}};
ghost use Rattle.uimg_signing.specs.SignatureNodes.{IsBelow};

use std::alloc::{Allocator, Global};
use uimg_base::{Room, Source, Span};
use uimg_blob_reading::Blob;
use uimg_fit_base::Fault;
use uimg_fit_checking::SurveyFault;
use uimg_signing::{SignatureNode, SigningFault, names_image};

fn stop_of(fault: SigningFault) -> Option<SurveyFault>
    ensures { result ≡ stop_of fault }
{
    match fault {
        SigningFault::Read => Some(SurveyFault::Stopped(Fault::Read)),
        SigningFault::OutOfMemory => Some(SurveyFault::OutOfMemory),
        _ => None,
    }
}

// Returns whether the configuration of a signature node names an image.
fn names<S: Source, A: Allocator>(
    alloc: Global,
    source: &mut S,
    blob: &Blob,
    room: &mut Room<A>,
    signature: &SignatureNode,
    image: usize,
) -> Result<bool, SurveyFault>
    requires signature { IsBelow (length room.old.entries) signature.now }
    requires image { image < length room.old.entries }
    ensures uses { Uses (is_unread result) (S.device source.old) (S.device source.new) }
    ensures room { room.new ≡ room.old }
    ensures own { IsOwn result }
    ensures asked { OfTreeRead (S.device source.old) blob.now room.old.entries signature.now.configuration
        (λ rows its. (S.device source.new).asked ≤ (S.device source.old).asked
        + naming_cost (length its.own) (nops_met (S.device source.old).bytes)) }
    ensures told { OfTreeRead (S.device source.old) blob.now room.old.entries signature.now.configuration
        (λ rows its. (row : Row) → slice_get rows image ≡ Some row → IfOk result (λ it.
        it ≡ names_image (S.device source.old).bytes its row)) }
{
    match names_image(alloc, source, blob, room, signature.configuration, image) {
        Ok(it) => Ok(it),
        Err(fault) => match stop_of(fault) {
            Some(fault) => Err(fault),
            None => Ok(false),
        },
    }
}

/// Returns the name of the first configuration with one of these signature nodes that names an
/// image.
///
/// - `Stopped` with `Read`: if and only if a read failed.
/// - `OutOfMemory`: memory for the properties of a configuration was refused.
pub(crate) fn covered_by<S: Source, A: Allocator>(
    alloc: Global,
    source: &mut S,
    blob: &Blob,
    room: &mut Room<A>,
    signatures: &[SignatureNode],
    image: usize,
) -> Result<Option<Span>, SurveyFault>
    requires signatures { All (IsBelow (length room.old.entries)) signatures.now }
    requires image { image < length room.old.entries }
    ensures uses { Uses (is_unread result) (S.device source.old) (S.device source.new) }
    ensures room { room.new ≡ room.old }
    ensures own { IsOwn result }
    ensures asked { OfTreeRead (S.device source.old) blob.now room.old.entries image
        (λ rows row. (S.device source.new).asked ≤ (S.device source.old).asked
        + covering_cost (S.device source.old).bytes rows signatures.now) }
    ensures told { OfTreeRead (S.device source.old) blob.now room.old.entries image
        (λ rows row. IfOk result (λ it. bytes_in (S.device source.old).bytes it
        ≡ covered_by (S.device source.old).bytes rows (name_in (S.device source.old).bytes row)
        signatures.now)) }
{
    for signature in signatures {
        if names(alloc, source, blob, room, signature, image)? {
            return Ok(Some(blob.name(room, signature.configuration)));
        }
    }
    Ok(None)
}
