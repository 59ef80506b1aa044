//! The span of a part or a payload in an image, found by the engine of its format.

ghost use Rattle.std.specs.Prelude.{false, true, IfOk};
ghost use Rattle.uimg_base.specs.Honest.{HonestSource};
ghost use Rattle.uimg_engine.specs.Headline.{listing_work, OnlyReads};
ghost use Rattle.uimg_engine.specs.Locating.{Locates, StandsIn, FindsSpan};

use crate::fault::Fault;
use crate::formats::is_fit;
use std::alloc::Allocator;
use uimg_base::{Room, Source, Span};
use uimg_requests::Form;

fn locate_part<S: Source, A: Allocator>(
    position: u32,
    source: &mut S,
    room: &mut Room<A>,
) -> Result<Span, Fault>
    ensures { Locates false position result S.device source room }
{
    let span = uimg_legacy::locate(position, source, room)?;
    Ok(span)
}

fn locate_payload<S: Source, A: Allocator>(
    position: u32,
    source: &mut S,
    room: &mut Room<A>,
) -> Result<Span, Fault>
    ensures { Locates true position result S.device source room }
{
    let span = uimg_fit_reading::locate(position, source, room)?;
    Ok(span)
}

/// Finds the bytes that an extraction writes: the part of a legacy image, or the payload of a FIT
/// image's image, at a position, counted from 0. Returns their span in the file.
///
/// Over an honest source, returns this span, also if it has no bytes, or the fault of that
/// extraction. Requests no more than a listing, so no byte of a FIT image's payload. Over any
/// source the span ends inside the file.
///
/// - `Fault::Read`: if and only if a read failed.
/// - `OutOfMemory` of the blob: if and only if the room refused to grow, which only a FIT image
///   needs.
///
/// `Fault::Put` and the faults of a build are never returned.
pub fn locate<S: Source, A: Allocator>(
    form: Form,
    position: u32,
    source: &mut S,
    room: &mut Room<A>,
) -> Result<Span, Fault>
    ensures reads { OnlyReads form (listing_work form) result S.device source room }
    ensures inside { IfOk result (StandsIn (S.device source.old).bytes) }
    ensures told { HonestSource S.device source →
        FindsSpan form position (S.device source.old).bytes result }
{
    room.clear();
    if is_fit(form, source)? {
        locate_payload(position, source, room)
    } else {
        locate_part(position, source, room)
    }
}
