//! A header with its data.

ghost use Rattle.std.specs.Prelude.{◌+◌, ◌≤◌, length, OnOk, IfOk};
ghost use Rattle.uimg_base.specs.Using.{Asks, UsesAtMost};
ghost use Rattle.uimg_legacy.specs.Work.{data_read, image_read};
ghost use Rattle.uimg_legacy.specs.Reading.{Reads, TellsRight, GivesImage};

use crate::fault::{Fault, LegacyFault};
use crate::header::{Header, read_header};
use std::alloc::Allocator;
use uimg_base::{Room, Source, crc_range};

// Returns `Truncated` if the image lacks data.
#[tactic(auto, unfolding(crate::specs::Image::has_right_data, crate::specs::Work::data_read))]
pub(crate) fn has_right_data<S: Source, A: Allocator>(
    source: &mut S,
    room: &mut Room<A>,
    header: &Header,
) -> Result<bool, Fault>
    ensures reads { Reads Asks (λ image. data_read image header.now) (TellsRight header.now) result
        S.device source room }
    ensures inside { OnOk result (64 + header.now.size ≤ length (S.device source.old).bytes) }
{
    let size = header.size as u64;
    if source.size()? < 64 + size {
        return Err(Fault::Legacy(LegacyFault::Truncated));
    }
    Ok(crc_range(source, room, 64, size)? == header.dcrc)
}

// Reads the header of an image and checks both checksums and that the image has all its data.
pub(crate) fn read_image<S: Source, A: Allocator>(
    source: &mut S,
    room: &mut Room<A>,
) -> Result<Header, Fault>
    ensures reads { Reads UsesAtMost image_read GivesImage result S.device source room }
    ensures inside { IfOk result (λ h. 64 + h.size ≤ length (S.device source.old).bytes) }
{
    let header = read_header(source)?;
    if !has_right_data(source, room, &header)? {
        return Err(Fault::Legacy(LegacyFault::BadDataCrc));
    }
    Ok(header)
}
