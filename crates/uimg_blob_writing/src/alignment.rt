//! Sizes rounded up to an alignment, and the zeros that pad to it.

ghost use Rattle.std.specs.Prelude.{◌≡◌, ◌≤◌, ◌+◌, is_err, replicate};
ghost use Rattle.uimg_base.specs.Writing.{Writes};
ghost use Rattle.uimg_blob_writing.specs.Alignment.{aligned, padding_by};

use std::io::Write;
use uimg_base::{Out, PutFault, WINDOW};

/// The least alignment, and that of values in a blob.
pub const WORD_ALIGNMENT: u32 = 4;

/// Rounds `size` bytes up to an alignment as mkimage of U-Boot does, in words of four bytes. For a
/// power of two from four on this is the next multiple (`proofs/AlignmentLaws.antt`). It adds at
/// most the alignment and three bytes. `proofs/Examples.antt` has what mkimage 2023.01 makes of
/// some sizes.
pub fn aligned(size: u64, align: u32) -> u128
    ensures place { result ≡ aligned align size }
    ensures least { size ≤ result }
    ensures most { result ≤ size + align + 3 }
{
    let mask = (align.saturating_sub(1) / 4) as u128;
    let words = (size as u128 + 3) / 4 + mask;
    (words - (words & mask)) * 4
}

/// Writes `count` zeros, one window at a time. Returns `PutFault` if and only if a write failed.
pub fn put_zeros<W: Write>(count: u64, out: &mut Out<W>) -> Result<(), PutFault>
    ensures { Writes (is_err result) out.old out.new (replicate count 0) }
{
    let zeros = [0; WINDOW];
    let mut left = count;
    while left > 0 {
        let next = u64::min(left, WINDOW as u64);
        out.put_all(&zeros[..next as usize])?;
        left -= next;
    }
    Ok(())
}

pub(crate) fn put_gap<W: Write>(size: u64, align: u32, out: &mut Out<W>) -> Result<(), PutFault>
    ensures { Writes (is_err result) out.old out.new (padding_by align size) }
{
    put_zeros((aligned(size, align) - size as u128) as u64, out)
}
