//! Unpacks the payloads of a FIT image: each is summed while it is written, kept if it is right.

ghost use Rattle.std.specs.Prelude.{◌≡◌, IfOk, IsTrue};
ghost use Rattle.uimg_base.specs.Honest.{IfHonest};
ghost use Rattle.uimg_fit_checking.specs.Unpacking.{Unpacks, EndsAs, Gives, which};
ghost use Rattle.uimg_fit_checking.specs.Unpacking.{unpack_of, unpack_work};
ghost use Rattle.uimg_fit_checking.specs.Claiming.{ClaimsTo, claims_of};
ghost use Rattle.uimg_fit_reading.specs.Rooms.{TakesOut};

mod claims;
mod copies;
mod mem_taker;
mod node_names;
mod refusals;
mod requested;
mod taker;
mod takes;
mod wanted;

use crate::unpacking::claims::claim_images;
use crate::unpacking::requested::Request;
use crate::unpacking::takes::take_images;
pub use mem_taker::{MemTake, MemTaker};
pub use node_names::NodeName;
use std::alloc::Allocator;
pub use taker::{Refusal, Taker, Vouched};
use uimg_base::{Algo, Room, Source};
use uimg_fit_base::Fault;
use uimg_fit_reading::images::first_image;
use uimg_fit_reading::read_tree;
pub use wanted::Wanted;

/// The result of unpacking a FIT image.
#[derive(Clone, Copy, Debug)]
pub enum Unpacked {
    /// Each requested payload was given. True if all are kept.
    Taken(bool),
    /// With the payload of the image of this name, the requested ones have more bytes together than
    /// the file, so some of them overlap. Nothing was given.
    Overlapping(NodeName),
}

/// Unpacks the payloads of a FIT image in their order: those of all images, or of those that are
/// requested.
///
/// Each payload is written to a shelf of the taker while it is summed, by the algorithms of its
/// image's hash nodes. It is kept if each hash node is right. If a strength is needed, one of them
/// must be compared by that algorithm or a stronger one, in the order of `Algo`. Otherwise the
/// payload is refused, and the next one follows. Each byte of a payload is requested once. So what
/// an honest taker keeps has the digest that is given with it, even if the source changes between
/// reads.
///
/// Over an honest source at most the file's length is requested beside metadata. Over such a source
/// an honest taker is given exactly what the definition says of each payload, and the result is
/// that of the definition, for any taker, unless memory is refused or a device fails. Over any
/// source, `Taken(true)` means that an honest taker was given no refused payload in this call.
///
/// - The faults of the blob, then `NoImages`, then `NoData` and `DataOutside` of the images in
///   their order: all before anything is given. Nothing is given either if payloads overlap.
/// - `OutOfMemory`: if and only if the room refused to grow.
/// - `Read`: if and only if a read failed.
/// - `Put`: the taker or one of its shelves failed.
///
/// What was given before a fault stays given.
pub fn unpack<S: Source, A: Allocator, T: Taker>(
    only: Wanted<'_>,
    need: Option<Algo>,
    source: &mut S,
    room: &mut Room<A>,
    taker: &mut T,
) -> Result<Unpacked, Fault>
    ensures takes { TakesOut unpack_work result S.device source room }
    ensures place { T.place taker.new ≡ T.place taker.old }
    ensures told { IfHonest S.device source (λ file. IsTrue T.honest → Unpacks T.seen result
        (unpack_of need (which only.entry) file) (T.takes taker.old) (T.takes taker.new)) }
    ensures given { IsTrue T.honest → IfOk result
        (λ found. Gives T.seen found (T.takes taker.old) (T.takes taker.new)) }
    ensures ended { IfHonest S.device source (λ file.
        EndsAs result (unpack_of need (which only.entry) file)
        (T.begun taker.old) (T.begun taker.new)) }
    ensures claimed { IfHonest S.device source (λ file. IsTrue T.notes → ClaimsTo
        (claims_of (which only.entry) file) result (T.claimed taker.old)
        (T.claimed taker.new)) }
{
    let blob = read_tree(source, room)?;
    let first = first_image(&blob, room)?;
    if let Some(name) = claim_images(source, &blob, room, first, only, taker)? {
        return Ok(Unpacked::Overlapping(name));
    }
    let all = take_images(source, &blob, room, first, Request { only, need }, taker)?;
    Ok(Unpacked::Taken(all))
}
