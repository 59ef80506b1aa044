//! Building an image from its parts.

ghost use Rattle.std.specs.Prelude.{◌≡◌, ◌≢◌, ℕ, List, ◌++◌, length, map, false};
ghost use Rattle.uimg_sums.specs.Crc.{crc};
ghost use Rattle.uimg_legacy.specs.{Parts.has_parts, Building.{data_of, data_for, header_for}};
ghost use Rattle.uimg_legacy.specs.{BuildingSteps.IsHeadFor, Devices.{bytes_of, AreHonest}};
ghost use Rattle.uimg_legacy.specs.PartSteps.{FitWords, PutsParts, FindsInParts};
ghost use Rattle.uimg_legacy.specs.Builds.{Builds, Decides, TellsBuilt, BuildsReadable};

use crate::built_data::{data_crc, put_data};
use crate::fault::Fault;
use crate::header::{HEADER_LEN, Header, header_bytes};
use crate::measure::measure;
use crate::options::Options;
use crate::parts::has_parts;
use std::io::Write;
use uimg_base::{Out, Source, SourceFault, WINDOW};

fn header_for(options: &Options, size: u32, dcrc: u32) -> Header
    ensures { (payload : List ℕ) → size ≡ length payload → dcrc ≡ crc payload →
        result ≡ header_for options.now payload }
{
    Header {
        time: options.time,
        size,
        load: options.load,
        ep: options.ep,
        dcrc,
        os: options.os,
        arch: options.arch,
        kind: options.kind,
        comp: options.comp,
        name: options.name,
    }
}

fn head_of<S: Source>(
    parts: &mut [S],
    window: &mut [u8; WINDOW],
    options: &Options,
    size: u32,
) -> Result<[u8; HEADER_LEN], SourceFault>
    requires small { FitWords (bytes_of (map S.device parts.old)) }
    requires size { size ≡ length (data_for options.now.kind (bytes_of (map S.device parts.old))) }
    ensures { FindsInParts (IsHeadFor options.now) result S.device parts }
{
    let dcrc = data_crc(parts, window, has_parts(options.kind))?;
    Ok(header_bytes(&header_for(options, size, dcrc)))
}

fn put_image<S: Source, W: Write>(
    parts: &mut [S],
    window: &mut [u8; WINDOW],
    head: &[u8; HEADER_LEN],
    has_parts: bool,
    out: &mut Out<W>,
) -> Result<(), Fault>
    requires small { FitWords (bytes_of (map S.device parts.old)) }
    ensures { PutsParts AreHonest
        (λ ps. head.now ++ data_of has_parts ps) result S.device parts out }
{
    out.put_all(head)?;
    put_data(parts, window, has_parts, out)
}

/// Builds a legacy image from its parts: the header's 64 bytes with the fields of the options, and
/// the data. For the types multi and script the data are the table of sizes and the parts. Zeros
/// pad each part but the last to a multiple of 4. For any other type the data are the one part.
///
/// There must be at least one part, and exactly one unless the type is multi or script. Over honest
/// parts, at `Ok`, the report on the image is its two `ok` lines, and its listing is not refused.
/// The extraction at each position is the part of that number then.
///
/// Parts are read through a window of 8192 bytes. Tests show that each is read twice, for the
/// checksum and to be written.
///
/// Refusals depend only on the lengths of the parts, and come before a byte is written or a byte of
/// a part requested:
/// - `EmptyPart`: a part of multi or script is empty.
/// - `TooLarge`: none is empty, and the data have more than 4294967295 bytes.
///
/// These come later. Over honest parts a prefix of the image was written then:
/// - `Read`: if and only if a part failed.
/// - `Put`: if and only if a write failed.
pub fn build<S: Source, W: Write>(
    options: &Options,
    parts: &mut [S],
    out: &mut Out<W>,
) -> Result<(), Fault>
    requires some { length parts.old ≢ 0 }
    requires single { has_parts options.now.kind ≡ false → length parts.old ≡ 1 }
    ensures builds { Builds result S.device parts out }
    ensures decides { Decides options.now.kind (bytes_of (map S.device parts.old)) result }
    ensures told { TellsBuilt options.now result S.device parts out }
    ensures reads_back { BuildsReadable options.now result S.device parts }
{
    let size = measure(parts, options.kind)?;
    let mut window = [0; WINDOW];
    let head = head_of(parts, &mut window, options, size)?;
    put_image(parts, &mut window, &head, has_parts(options.kind), out)
}
