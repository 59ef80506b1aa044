//! Extraction: finds a part and writes it.

ghost use Rattle.std.specs.Prelude.{◌≡◌, IsTrue};
ghost use Rattle.uimg_base.specs.{Honest.IfHonest, Using.UsesAtMost};
ghost use Rattle.uimg_legacy.specs.{Extraction.extract_of, Work.{list_work, extract_work}};
ghost use Rattle.uimg_legacy.specs.{Reading.{Reads, LocatesPart, EndsInFile}, Faults.is_refused};
ghost use Rattle.uimg_legacy.specs.Placing.{LocatesSpan};
ghost use Rattle.uimg_legacy.specs.Commands.{Inspects, Delivers, TellsOf, KeepsAhead};

use crate::fault::Fault;
use crate::image::read_image;
use crate::parts::find_part;
use std::alloc::Allocator;
use std::io::Write;
use uimg_base::{Out, Room, Source, Span, Status, copy_range};

fn locate_part<S: Source, A: Allocator>(
    source: &mut S,
    room: &mut Room<A>,
    position: u32,
) -> Result<Span, Fault>
    ensures reads { Reads UsesAtMost list_work (LocatesPart position) result S.device source room }
    ensures inside { EndsInFile result S.device source }
    ensures span { IfHonest S.device source (λ file. LocatesSpan position file result) }
{
    let header = read_image(source, room)?;
    find_part(source, room, &header, position)
}

/// Finds the bytes that `extract` writes: the part of type multi or script at a position, counted
/// from 0, or the data of any other type at position 0. Returns their span, which ends inside the
/// file whatever the source returns, or a fault of `extract`, in the same order. Requests no more
/// than a listing. Only clears the room.
pub fn locate<S: Source, A: Allocator>(
    position: u32,
    source: &mut S,
    room: &mut Room<A>,
) -> Result<Span, Fault>
    ensures inspects { Inspects list_work result S.device source room }
    ensures inside { EndsInFile result S.device source }
    ensures told { IfHonest S.device source (λ file. LocatesPart position file result) }
    ensures span { IfHonest S.device source (λ file. LocatesSpan position file result) }
{
    room.clear();
    locate_part(source, room, position)
}

/// Writes the part of the image at a position, counted from 0: a part of type multi or script, or
/// the data of any other type at position 0.
///
/// Over an honest source a prefix of the part was written after `Read` or `Put`, and at every exit
/// at most as many bytes were requested as for a listing, those that were written and 8192. The
/// room is only cleared.
///
/// Refusals come before the first byte, in this order: `TooShort`, `BadMagic`, `BadHeaderCrc`,
/// `Truncated`, `BadDataCrc`, `NoTableEnd`, `NoSuchPart`, and `PartOutside` of the part at that
/// position.
pub fn extract<S: Source, A: Allocator, W: Write>(
    position: u32,
    source: &mut S,
    room: &mut Room<A>,
    out: &mut Out<W>,
) -> Result<Status, Fault>
    ensures delivers { Delivers (λ image. extract_work image position) result
        S.device source room out }
    ensures ahead { KeepsAhead list_work (λ image. extract_of image position) S.device source out }
    ensures untouched { IsTrue (is_refused result) → out.new ≡ out.old }
    ensures told { TellsOf (λ image. extract_of image position) result S.device source out }
{
    room.clear();
    let span = locate_part(source, room, position)?;
    copy_range(source, room, span.place, span.length, out)?;
    Ok(Status::Done)
}
