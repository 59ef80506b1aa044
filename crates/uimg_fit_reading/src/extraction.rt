//! Extraction: finds the payload of an image and writes it.

ghost use Rattle.std.specs.Prelude.{◌≡◌, ◌+◌, ◌≤◌, length, Ok, IsTrue, IfOk};
ghost use Rattle.uimg_base.specs.Honest.{IfHonest};
ghost use Rattle.uimg_fit_base.specs.Extraction.{payload_at, extract_of};
ghost use Rattle.uimg_fit_base.specs.Faults.{is_refused, Gives};
ghost use Rattle.uimg_fit_reading.specs.{Work.{list_work, extract_work}, Values.in_span};
ghost use Rattle.uimg_texts.specs.declared.naming.Naming.TheVariants.{Profile};
ghost use Rattle.uimg_fit_reading.specs.PayloadPlaces.{place_at};
ghost use Rattle.uimg_fit_reading.specs.Rooms.{Inspects, Delivers, TellsOf, KeepsAhead};

use crate::images::image_at;
use crate::places::payload_place;
use crate::tree::read_tree;
use std::alloc::Allocator;
use std::io::Write;
use uimg_base::{Out, Room, Source, Span, Status, copy_range};
use uimg_fit_base::Fault;

/// Finds the payload that `extract` writes: that of the image at a position, counted from 0.
/// Returns its span, which ends inside the file whatever the source returns. Reads no byte of the
/// payload, and requests no more than a listing.
///
/// - The faults of `extract`, in the same order.
/// - `OutOfMemory`: if and only if the room refused to grow.
pub fn locate<S: Source, A: Allocator>(
    position: u32,
    source: &mut S,
    room: &mut Room<A>,
) -> Result<Span, Fault>
    ensures inspects { Inspects (list_work Profile) result S.device source room }
    ensures inside { IfOk result (λ p. p.place + p.length ≤ length (S.device source.old).bytes) }
    ensures gives { IfHonest S.device source (λ file.
        Gives (in_span file) result (payload_at file position)) }
    ensures span { IfHonest S.device source (λ file.
        IfOk result (λ span. place_at file position ≡ Ok span)) }
{
    let blob = read_tree(source, room)?;
    let image = image_at(&blob, room, position)?;
    payload_place(source, &blob, room, image)
}

/// Writes the payload of the image at a position, counted from 0.
///
/// Over an honest source a prefix of the payload was written after `Read` or `Put`, and at every
/// exit at most as many bytes were requested as for a listing, those that were written and 8192.
///
/// Refusals come before the first byte, in this order:
/// - The faults of the blob.
/// - `NoImages`, `NoSuchImage`.
/// - `NoData`, `DataOutside`: of that image.
///
/// Returns `OutOfMemory` if and only if the room refused to grow.
pub fn extract<S: Source, A: Allocator, W: Write>(
    position: u32,
    source: &mut S,
    room: &mut Room<A>,
    out: &mut Out<W>,
) -> Result<Status, Fault>
    ensures delivers { Delivers (λ file. extract_work file position) result
        S.device source room out }
    ensures ahead { KeepsAhead (list_work Profile) (λ file. extract_of file position) S.device source out }
    ensures untouched { IsTrue (is_refused result) → out.new ≡ out.old }
    ensures told { TellsOf (λ file. extract_of file position) result S.device source out }
{
    let span = locate(position, source, room)?;
    copy_range(source, room, span.place, span.length, out)?;
    Ok(Status::Done)
}
