//! Big-endian numbers of 32 bits, and sizes rounded up to a multiple of 4.

ghost use Rattle.std.specs.Prelude.{◌≡◌, ◌+◌, ◌^◌, ◌<◌, ◌≤◌, length};
ghost use Rattle.uimg_texts.specs.Numbers.{be32, up4};

use byteorder::{BigEndian, ByteOrder};

/// Reads a big-endian number of four bytes at an offset.
#[tactic(auto, unfolding(crate::specs::Numbers::be32))]
pub fn be32_at(bytes: &[u8], offset: usize) -> u32
    requires { offset + 4 ≤ length bytes.now }
    ensures { result ≡ be32 bytes.now offset }
{
    BigEndian::read_u32(&bytes[offset..offset + 4])
}

/// Rounds a size below 2^40 up to a multiple of 4.
pub fn up4(size: u64) -> u64
    requires { size < 2 ^ 40 }
    ensures { result ≡ up4 size }
{
    (size + 3) / 4 * 4
}
