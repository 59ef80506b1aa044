//! The report on an image's checksums.

ghost use Rattle.uimg_legacy.specs.{Commands.{Delivers, TellsOf}, Report.verify_of};
ghost use Rattle.uimg_legacy.specs.{Reading.{Reports, report_on}, Work.{data_read, verify_work}};
ghost use Rattle.uimg_base.specs.Using.{Asks};

use crate::fault::Fault;
use crate::header::{Header, fields, has_right_crc, read_head};
use crate::image::has_right_data;
use std::alloc::Allocator;
use std::io::Write;
use uimg_base::{Out, Room, Source, Status};

fn report_data<S: Source, A: Allocator, W: Write>(
    source: &mut S,
    room: &mut Room<A>,
    header: &Header,
    out: &mut Out<W>,
) -> Result<Status, Fault>
    ensures { Reports Asks (λ image. data_read image header.now) (report_on header.now) result
        S.device source room out }
{
    if has_right_data(source, room, header)? {
        out.put_all(b"data crc32 ok\n")?;
        Ok(Status::Done)
    } else {
        out.put_all(b"data crc32 bad\n")?;
        Ok(Status::NotRight)
    }
}

/// Writes the report on the image's checksums: `header crc32 bad`, or `header crc32 ok` and then
/// `data crc32 ok` or `data crc32 bad`, each with a newline. Returns `NotRight` after a line that
/// ends with `bad`. Over an honest source a prefix of the report was written after `Read` or `Put`,
/// and at most 76 bytes and the data were requested. The room is only cleared.
///
/// - `TooShort`, `BadMagic`: without a line.
/// - `Truncated`: after the first line.
pub fn verify<S: Source, A: Allocator, W: Write>(
    source: &mut S,
    room: &mut Room<A>,
    out: &mut Out<W>,
) -> Result<Status, Fault>
    ensures delivers { Delivers verify_work result S.device source room out }
    ensures told { TellsOf verify_of result S.device source out }
{
    room.clear();
    let bytes = read_head(source)?;
    if has_right_crc(&bytes) {
        out.put_all(b"header crc32 ok\n")?;
        report_data(source, room, &fields(&bytes), out)
    } else {
        out.put_all(b"header crc32 bad\n")?;
        Ok(Status::NotRight)
    }
}
