//! Unpacking: parts are written while the image's data are summed.

ghost use Rattle.std.specs.Prelude.{◌≡◌, [], IfOk, IsTrue};
ghost use Rattle.uimg_base.specs.Honest.{IfHonest};
ghost use Rattle.uimg_legacy.specs.{Commands.TakesOut, UnpackingSteps.{Settles, unpack_work}};
ghost use Rattle.uimg_legacy.specs.Unpacking.{AreRight, Unpacks, EndsAs, KeepsRight, Extracts, unpack_of};
ghost use Rattle.uimg_legacy.specs.Told.{TellsAll, Tells, settling};

mod mem_parts;
mod part_taker;
mod tables;
mod taken_data;
mod takes;

use crate::fault::{Fault, LegacyFault};
use crate::header::read_header;
use crate::unpacking::taken_data::take_data;
pub use mem_parts::{MemPart, MemParts};
pub use part_taker::PartTaker;
use std::alloc::Allocator;
use uimg_base::{PutFault, Room, Source};

// Keeps the held parts if the data's CRC is right, else discards them. Returns whether it is.
fn settle<T: PartTaker>(right: bool, dcrc: u32, taker: &mut T) -> Result<bool, PutFault>
    requires { IsTrue right → IsTrue T.honest → AreRight dcrc (T.held taker.old) }
    ensures is { IfOk result (λ kept. kept ≡ right) }
    ensures kept { Settles right result T.honest T.held T.kept taker }
    ensures stays { T.place taker.new ≡ T.place taker.old }
    ensures told { Tells (settling right dcrc) result T.notes T.told taker }
{
    if right {
        taker.keep(dcrc)?;
    } else {
        taker.refuse()?;
    }
    Ok(right)
}

/// Unpacks the parts of an image in their order: all, or the one of a number. For the types multi
/// and script they are its parts, for another type its data as part 0.
///
/// Checks the header, whose checksum must be right. Each part is written to a shelf of the taker
/// while the data are summed, from the table of sizes to the last byte. If their checksum is that
/// in the header, the taker keeps the parts; otherwise it refuses them. Returns whether they are
/// kept. The sizes are read twice, to be summed and to cut the parts; unless both readings have the
/// same sum, nothing is kept.
///
/// So an honest taker keeps the parts of some image with right checksums, whatever the source
/// returns, or nothing. Over an honest source that image is the source's, and each part is what an
/// extraction from its position writes. Such a source is read for at most its header, the length of
/// the data, 8 bytes for each size in the table and 8 more. The room is only cleared.
///
/// A wrong checksum of the data is found last, as they are summed while they are written; it is the
/// result `false`, no fault. If the taker fails as it keeps the parts, it keeps all or none.
///
/// - `TooShort`, `BadMagic`, `BadHeaderCrc`, `Truncated`, `NoTableEnd`, `NoSuchPart`: the first of
///   these, before the taker is called.
/// - `PartOutside`: when that part is reached.
/// - `BadDataCrc`: a size of the table is 0 when it is read again.
/// - `Read`: if and only if a read failed.
/// - `Put`: the taker or one of its shelves failed.
pub fn unpack<S: Source, A: Allocator, T: PartTaker>(
    only: Option<u32>,
    source: &mut S,
    room: &mut Room<A>,
    taker: &mut T,
) -> Result<bool, Fault>
    requires { IsTrue T.honest → T.held taker.old ≡ [] }
    ensures takes { TakesOut unpack_work result S.device source room }
    ensures right { KeepsRight only result T.honest T.kept taker }
    ensures told { Unpacks only result S.device source T.honest T.kept taker }
    ensures ends { IfHonest S.device source (λ file. EndsAs result (unpack_of only file)) }
    ensures extracts { Extracts result S.device source T.honest T.kept taker }
    ensures stays { T.place taker.new ≡ T.place taker.old }
    ensures tells { TellsAll only result T.notes T.told taker }
{
    room.clear();
    let header = read_header(source)?;
    if source.size()? < 64 + header.size as u64 {
        return Err(Fault::Legacy(LegacyFault::Truncated));
    }
    let right = take_data(source, room, &header, only, taker)?;
    Ok(settle(right, header.dcrc, taker)?)
}
