//! Writes the text of a size.

ghost use Rattle.std.specs.Prelude.{is_err};
ghost use Rattle.uimg_base.specs.Writing.{Writes};
ghost use Rattle.uimg_texts.specs.Sizes.{size_text};

use crate::output::{Out, PutFault};
use itoa::Buffer;
use std::io::Write;
use uimg_texts::{hundredths, two_digits};

/// Writes a size of n bytes as `<n> Bytes = <k> KiB = <m> MiB`, where k is n/1024 and m is
/// n/1048576. Both have two decimals, rounded to the nearest hundredth, ties to even.
///
/// Returns `PutFault` if a write failed; then a prefix of the text was written.
pub fn size_text<W: Write>(n: u32, out: &mut Out<W>) -> Result<(), PutFault>
    ensures { Writes (is_err result) out.old out.new (size_text n) }
{
    let kib = hundredths(n, 1024);
    let mib = hundredths(n, 1_048_576);
    out.put_pieces(&[
        Buffer::new().format(n).as_bytes(),
        b" Bytes = ",
        Buffer::new().format(kib / 100).as_bytes(),
        b".",
        &two_digits((kib % 100) as u8),
        b" KiB = ",
        Buffer::new().format(mib / 100).as_bytes(),
        b".",
        &two_digits((mib % 100) as u8),
        b" MiB",
    ])
}
