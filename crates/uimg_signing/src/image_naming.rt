//! Whether a configuration names an image, so that its signature covers it.

ghost use Rattle.std.specs.Prelude.{◌≡◌, ◌+◌, ◌<◌, ◌≤◌, length, IfOk, None, Some};
ghost use Rattle.std.specs.List.{slice_get};
ghost use Rattle.uimg_base.specs.Using.{Uses};
ghost use Rattle.uimg_blob_reading.specs.{Counts.nops_met, Rows.Row};
ghost use Rattle.uimg_signing.specs.{Faults.{is_unread, Refuses}, ImageNaming.{names_image, naming_cost}, Listing.OfTreeRead};

use crate::faults::SigningFault;
use crate::listing::is_named;
use crate::naming::has_long;
use std::alloc::{Allocator, Global};
use uimg_base::{Room, Source};
use uimg_blob_reading::{Blob, PropertiesFault, properties_of};

/// Returns whether a configuration names an image, both given by their numbers. A configuration with a
/// value of more than 8192 bytes names none, as each signature of it is refused.
///
/// Blob and room must be as `index` left them, and the numbers below the count of entries. Of an honest
/// source it requests at most what `naming_cost` says. Only the room's window changes.
///
/// - `Read`: if and only if a read failed.
/// - `OutOfMemory`: only if memory was refused.
/// - `Changed`: only if the source does not have the blob that was indexed.
pub fn names_image<S: Source, A: Allocator>(
    alloc: Global,
    source: &mut S,
    blob: &Blob,
    room: &mut Room<A>,
    configuration: usize,
    image: usize,
) -> Result<bool, SigningFault>
    requires configuration { configuration < length room.old.entries }
    requires image { image < length room.old.entries }
    ensures uses { Uses (is_unread result) (S.device source.old) (S.device source.new) }
    ensures room { room.new ≡ room.old }
    ensures asked { OfTreeRead (S.device source.old) blob.now room.old.entries configuration
        (λ rows its. (S.device source.new).asked ≤ (S.device source.old).asked
        + naming_cost (length its.own) (nops_met (S.device source.old).bytes)) }
    ensures refused { OfTreeRead (S.device source.old) blob.now room.old.entries configuration
        (λ rows its. Refuses None result) }
    ensures told { OfTreeRead (S.device source.old) blob.now room.old.entries configuration
        (λ rows its. (row : Row) → slice_get rows image ≡ Some row → IfOk result (λ it.
        it ≡ names_image (S.device source.old).bytes its row)) }
{
    let places = match properties_of(alloc, source, blob, room, configuration) {
        Ok(places) => places,
        Err(PropertiesFault::Read) => return Err(SigningFault::Read),
        Err(PropertiesFault::OutOfMemory) => return Err(SigningFault::OutOfMemory),
        Err(PropertiesFault::Changed) => return Err(SigningFault::Changed),
    };
    if has_long(&places) {
        return Ok(false);
    }
    is_named(source, blob, room, &places, image)
}
