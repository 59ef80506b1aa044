//! The message that a signature signs.

ghost use Rattle.std.specs.Prelude.{◌≡◌, ◌+◌, ◌*◌, ◌<◌, ◌≤◌, List, length, OnOk};
ghost use Rattle.uimg_base.specs.{Using.Uses};
ghost use Rattle.uimg_signing.specs.{Covering.is_marked, Faults.is_unread};
ghost use Rattle.uimg_signing.specs.Message.{FeedsMessage, RefusesMessage};

use crate::faults::SigningFault;
use crate::strings::names_size;
use crate::walking::feed_tokens;
use std::alloc::Allocator;
use uimg_base::{Room, Source, Sums, feed_through};
use uimg_blob_reading::{Blob, extent_again};

/// Feeds to a sum the message of a signature: the bytes of the tokens that the listed nodes cover
/// (Devicetree Specification, section 5.4), then the first `strings` bytes of the strings block.
///
/// `marks` has the offsets of the listed nodes, as `list_nodes` returns them, and `strings` is what
/// `strings_size` returns. Of a listed node all is covered except the properties `data`, `data-size`,
/// `data-position` and `data-offset`; of its children the tokens that begin and end them. FDT_END is
/// always covered.
///
/// The blob must be as `index` left it. The message is read once, through the room's window, and not
/// kept. Over any source at most 313 bytes are requested, and 69 for each byte of the source. At a
/// fault part of the message may have been fed.
///
/// - `Read`: if and only if a read failed.
/// - `StringsOutside`: if and only if the strings block has fewer than `strings` bytes.
/// - `TooDeep`, `NameUnsigned`, `EarlyEnd`: otherwise, if and only if this is the fault of the first
///   token that has one. It begins a node inside 32 others; it is a covered property, and the signed
///   strings end before its name does, or without a NUL; or it is FDT_END, and the structure block
///   goes on behind it.
/// - `Changed`: only if the source does not have the blob that was indexed.
pub fn feed_message<S: Source, A: Allocator, M: Sums>(
    source: &mut S,
    blob: &Blob,
    room: &mut Room<A>,
    marks: &[u64],
    strings: u64,
    sums: &mut M,
) -> Result<(), SigningFault>
    ensures uses { Uses (is_unread result) (S.device source.old) (S.device source.new) }
    ensures room { room.new ≡ room.old }
    ensures asked { (S.device source.new).asked ≤ (S.device source.old).asked + 313
        + 69 * length (S.device source.old).bytes }
    ensures refused { RefusesMessage (is_marked marks.now) strings blob.now.totalsize result (S.device source.old) }
    ensures fed { FeedsMessage M.fed (is_marked marks.now) strings blob.now.totalsize result
        (S.device source.old) sums.old sums.new }
{
    let extent = match extent_again(source, blob.totalsize()) {
        Ok(extent) => extent,
        Err(fault) => return Err(SigningFault::from(fault)),
    };
    if strings > extent.strings_size {
        return Err(SigningFault::StringsOutside);
    }
    let Ok(names) = names_size(source, extent.strings, strings) else {
        return Err(SigningFault::Read);
    };
    match feed_tokens(source, room, sums, extent, marks, names) {
        Ok(()) => {}
        Err(fault) => return Err(fault),
    }
    match feed_through(sums, source, room.window(), extent.strings, strings) {
        Ok(()) => Ok(()),
        Err(_) => Err(SigningFault::Read),
    }
}
