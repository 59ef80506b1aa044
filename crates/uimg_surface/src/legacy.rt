//! The calls of `uimg_legacy`: legacy images (U-Boot's image.h).

ghost use Rattle.std.specs.Prelude.{◌≡◌, ◌≢◌, length, map, Ok, false, IsTrue};
ghost use Rattle.uimg_base.specs.Honest.{IfHonest};
ghost use Rattle.uimg_texts.specs.declared.naming.Naming.TheVariants.{Profile};
ghost use Rattle.uimg_legacy.specs.Header.{header, spelled, padded_name};
ghost use Rattle.uimg_legacy.specs.{Faults.{GivesBy, is_refused}, Reading.{ReadsHead, IsSpelledIn}};
ghost use Rattle.uimg_legacy.specs.Commands.{Delivers, TellsOf, KeepsAhead};
ghost use Rattle.uimg_legacy.specs.{Listing.list_of, Report.verify_of, Extraction.extract_of};
ghost use Rattle.uimg_legacy.specs.Work.{list_work, verify_work, extract_work};
ghost use Rattle.uimg_legacy.specs.{Parts.has_parts, Devices.bytes_of};
ghost use Rattle.uimg_legacy.specs.Builds.{Builds, Decides, TellsBuilt, BuildsReadable};

use std::alloc::Allocator;
use std::io::Write;
use uimg_base::{Out, Room, Source, Status};
use uimg_legacy::{Fault, Header, Options};

/// Reads the header of an image. Requests at most 64 bytes. Over an honest source the returned
/// header spells the first 64 bytes.
///
/// - `TooShort`: the source has fewer than 64 bytes.
/// - `BadMagic`: they do not begin with `0x27051956`.
/// - `BadHeaderCrc`: the header's CRC is not that of its bytes with the CRC field zeroed.
/// - `Read`: if and only if a read failed.
pub fn read_header<S: Source>(source: &mut S) -> Result<Header, Fault>
    ensures reads { ReadsHead result S.device source }
    ensures gives { IfHonest S.device source (λ file. GivesBy header file result) }
    ensures spelled { IfHonest S.device source (λ file. IsSpelledIn file result) }
{
    uimg_legacy::read_header(source)
}

/// Returns the 64 bytes of a header, with the magic number and the header's CRC. They read back as
/// the same header.
pub fn header_bytes(fields: &Header) -> [u8; 64]
    ensures bytes { result ≡ spelled fields.now }
    ensures reads_back { header result ≡ Ok fields.now }
{
    uimg_legacy::header_bytes(fields)
}

/// Returns the field of a name: the name cut or padded with zeros to 32 bytes.
pub fn name_field(name: &[u8]) -> [u8; 32]
    ensures { result ≡ padded_name name.now }
{
    uimg_legacy::name_field(name)
}

/// Writes the listing of an image: six lines, and for the types multi and script `Contents:` and a
/// line for each part. Takes no memory.
///
/// Over an honest source the listing and its end are those of `list_of`, or a prefix of it after
/// `Read` or `Put`. At most `list_work` bytes are requested: 76, the data, and 16 for each size in
/// the table.
///
/// - `TooShort`, `BadMagic`, `BadHeaderCrc`, `Truncated`, `BadDataCrc`: before the first line.
/// - `NoTableEnd`: after six lines.
/// - `PartOutside`: before the line of its part.
/// - `Read`, `Put`: if and only if a read, or a write, failed.
pub fn list<S: Source, A: Allocator, W: Write>(
    source: &mut S,
    room: &mut Room<A>,
    out: &mut Out<W>,
) -> Result<Status, Fault>
    ensures told { TellsOf (list_of Profile) result S.device source out }
    ensures delivers { Delivers list_work result S.device source room out }
{
    uimg_legacy::list(source, room, out)
}

/// Writes the report on an image's checksums, a line for the header and one for the data. Returns
/// `NotRight` after a line that ends with `bad`. Takes no memory.
///
/// Over an honest source the report and its end are those of `verify_of`, or a prefix of it after
/// `Read` or `Put`. At most `verify_work` bytes are requested: 76 and the data.
///
/// - `TooShort`, `BadMagic`: without a line.
/// - `Truncated`: after the first line.
/// - `Read`, `Put`: if and only if a read, or a write, failed.
pub fn verify<S: Source, A: Allocator, W: Write>(
    source: &mut S,
    room: &mut Room<A>,
    out: &mut Out<W>,
) -> Result<Status, Fault>
    ensures told { TellsOf verify_of result S.device source out }
    ensures delivers { Delivers verify_work result S.device source room out }
{
    uimg_legacy::verify(source, room, out)
}

/// Writes the part of an image at a position, counted from 0: a part of type multi or script, or
/// the data of any other type at position 0. Takes no memory.
///
/// Over an honest source the bytes and the end are those of `extract_of`, or a prefix of them after
/// `Read` or `Put`. At every exit at most as many bytes are requested as for a listing, those that
/// were written and 8192.
///
/// These come before the first byte, over any source:
/// - `TooShort`, `BadMagic`, `BadHeaderCrc`, `Truncated`, `BadDataCrc`, `NoTableEnd`.
/// - `NoSuchPart`: there is no part at the position.
/// - `PartOutside`: it ends after the data.
///
/// - `Read`, `Put`: if and only if a read, or a write, failed.
pub fn extract<S: Source, A: Allocator, W: Write>(
    position: u32,
    source: &mut S,
    room: &mut Room<A>,
    out: &mut Out<W>,
) -> Result<Status, Fault>
    ensures told { TellsOf (λ file. extract_of file position) result S.device source out }
    ensures delivers { Delivers (λ file. extract_work file position) result
        S.device source room out }
    ensures ahead { KeepsAhead list_work (λ file. extract_of file position) S.device source out }
    ensures untouched { IsTrue (is_refused result) → out.new ≡ out.old }
{
    uimg_legacy::extract(position, source, room, out)
}

/// Builds an image from its parts: the header's 64 bytes with the fields of the options, and the
/// data. There must be at least one part, and exactly one unless the type is multi or script.
///
/// Over honest parts the image is that of `build_of`. Its report is two `ok` lines, and the
/// extraction at each position is the part of that number.
///
/// - `EmptyPart`: a part of multi or script is empty. Nothing was written or requested.
/// - `TooLarge`: the data have more than 4294967295 bytes. Nothing was written or requested.
/// - `Read`, `Put`: if and only if a part, or a write, failed. Over honest parts a prefix of the
///   image was written.
pub fn build<S: Source, W: Write>(
    options: &Options,
    parts: &mut [S],
    out: &mut Out<W>,
) -> Result<(), Fault>
    requires some { length parts.old ≢ 0 }
    requires single { has_parts options.now.kind ≡ false → length parts.old ≡ 1 }
    ensures told { TellsBuilt options.now result S.device parts out }
    ensures decides { Decides options.now.kind (bytes_of (map S.device parts.old)) result }
    ensures reads_back { BuildsReadable options.now result S.device parts }
    ensures builds { Builds result S.device parts out }
{
    uimg_legacy::build(options, parts, out)
}
