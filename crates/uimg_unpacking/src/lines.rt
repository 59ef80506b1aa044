//! The lines about payloads and parts.

ghost use Rattle.std.specs.Prelude.{◌≡◌, Some};
ghost use Rattle.std.specs.Fmt.{WritesOnOk};
ghost use Rattle.uimg_fit_checking.specs.Unpacking.{as_bytes};
ghost use Rattle.uimg_printing.specs.Counting.{counted};
ghost use Rattle.uimg_unpacking.specs.Lines.{bytes_text, as_text, vouched_text, crc_bytes, crc_text, kept_line, unpacked_line, refusal_text, line_of};

use std::fmt;
use std::fmt::{Display, Formatter, Write};
use uimg_fit_base::word_text;
use uimg_fit_checking::{NodeName, Refusal, Vouched};
use uimg_printing::{Counted, Hexadecimal, PrintedWord};

/// The line of a payload or of a part, without its end. Names are printed as by `PrintedWord`.
#[derive(Clone, Copy, Debug)]
pub(crate) enum Line<'a> {
    /// A payload is kept.
    Kept {
        /// The name of its image.
        name: &'a NodeName,
        /// The name of its file.
        file: &'a str,
        /// Its length in bytes.
        size: u64,
        /// What vouches for it.
        vouched: Option<Vouched>,
    },

    /// The payload of the image of this name is refused.
    Refused(&'a NodeName, Refusal),

    /// With the payload of this image, the requested ones have more bytes than the file.
    Overlapping(&'a NodeName),

    /// A part is kept; the checksum is that of the data.
    Part {
        /// Its position.
        number: u32,
        /// Its length in bytes.
        size: u64,
        /// The checksum of the data.
        dcrc: u32,
    },
}

impl<'a> Display for Line<'a> {
    ghost output = { λ line. Some (line_of line) };

    fn fmt<W: Write>(&self, f: &mut Formatter<W>) -> fmt::Result {
        match *self {
            Line::Kept {
                name,
                file,
                size,
                vouched,
            } => put_kept(name, file, size, vouched, f),
            Line::Refused(name, refusal) => put_refused(name, refusal, f),
            Line::Overlapping(name) => write!(f, "{}: overlapping", PrintedWord(name.bytes())),
            Line::Part { number, size, dcrc } => put_part(number, size, dcrc, f),
        }
    }
}

fn bytes(count: u64) -> Counted
    ensures { counted result.count result.one.now result.many.now ≡ bytes_text count }
{
    Counted {
        count,
        one: "byte",
        many: "bytes",
    }
}

// Writes the name of the image, the size, the name of the file if that differs, and what vouches
// for the payload.
fn put_kept<W: Write>(
    name: &NodeName,
    file: &str,
    size: u64,
    vouched: Option<Vouched>,
    f: &mut Formatter<W>,
) -> fmt::Result
    ensures { WritesOnOk W.Write.write_str_gives f.old result
        (kept_line (as_bytes name.now) file.now size vouched) f.new }
{
    write!(f, "{}: {}", PrintedWord(name.bytes()), bytes(size))?;
    put_file(name.bytes(), file, f)?;
    put_vouched(vouched, f)
}

// Writes nothing if the name is that of the image.
#[tactic(auto, unfolding(crate::specs::Lines::as_text))]
fn put_file<W: Write>(name: &[u8], file: &str, f: &mut Formatter<W>) -> fmt::Result
    ensures { WritesOnOk W.Write.write_str_gives f.old result (as_text name.now file.now) f.new }
{
    if name == file.as_bytes() {
        return Ok(());
    }
    write!(f, " as {file}")
}

fn put_vouched<W: Write>(vouched: Option<Vouched>, f: &mut Formatter<W>) -> fmt::Result
    ensures { WritesOnOk W.Write.write_str_gives f.old result (vouched_text vouched) f.new }
{
    match vouched {
        Some(vouched) => {
            let digest = &vouched.digest[..vouched.algo.len()];
            write!(f, ", {} {}", vouched.algo.name(), Hexadecimal(digest))
        }
        None => f.write_str(", unhashed"),
    }
}

fn put_refused<W: Write>(name: &NodeName, refusal: Refusal, f: &mut Formatter<W>) -> fmt::Result
    ensures { WritesOnOk W.Write.write_str_gives f.old result
        (refusal_text (as_bytes name.now) refusal) f.new }
{
    let name = PrintedWord(name.bytes());
    match refusal {
        Refusal::Wrong { hash, word } => {
            write!(
                f,
                "{name}: {} {}",
                word_text(word),
                PrintedWord(hash.bytes())
            )
        }
        Refusal::Weak => write!(f, "{name}: weak"),
    }
}

#[tactic(auto, unfolding(crate::specs::Lines::crc_bytes))]
fn crc_bytes(dcrc: u32) -> [u8; 4]
    ensures { result ≡ crc_bytes dcrc }
{
    dcrc.to_be_bytes()
}

fn put_crc<W: Write>(dcrc: u32, f: &mut Formatter<W>) -> fmt::Result
    ensures { WritesOnOk W.Write.write_str_gives f.old result (crc_text dcrc) f.new }
{
    let crc = crc_bytes(dcrc);
    write!(f, ", data crc32 {}", Hexadecimal(crc.as_slice()))
}

fn put_part<W: Write>(number: u32, size: u64, dcrc: u32, f: &mut Formatter<W>) -> fmt::Result
    ensures { WritesOnOk W.Write.write_str_gives f.old result
        (unpacked_line number size dcrc) f.new }
{
    write!(f, "image-{number}: {}", bytes(size))?;
    put_crc(dcrc, f)
}
