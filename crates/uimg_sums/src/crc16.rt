//! CRC-16.

ghost use Rattle.std.specs.{Prelude.{◌≡◌, ◌<◌, ℕ, List, ◌++◌}, Int.{to_be_bytes, w16}, List.fold};
ghost use Rattle.uimg_sums.specs.Crc16.{bring_down, byte_down, crc16, remainder_of};

use crate::sums::Summer;

/// CRC-16 of bytes that come in pieces: 2 bytes, big-endian.
///
/// It is the remainder by the polynomial of ITU-T V.41, section 2, `0x1021`, the highest bit of a
/// byte first; the register starts as zeros, and nothing is inverted. U-Boot calls it crc16-ccitt.
#[derive(Drop)]
pub struct Crc16 {
    remainder: u16,
}

// Brings down the next bit in the division.
fn bring_down(remainder: u16, bit: u32) -> u16
    requires { bit < 2 }
    ensures { result ≡ bring_down remainder bit }
{
    let longer = u32::from(remainder) * 2 + bit;
    if longer < 0x1_0000 {
        longer as u16
    } else {
        (longer - 0x1_0000) as u16 ^ 0x1021
    }
}

fn byte_down(remainder: u16, byte: u8) -> u16
    ensures { result ≡ byte_down remainder byte }
{
    let byte = u32::from(byte);
    let remainder = bring_down(remainder, byte / 128);
    let remainder = bring_down(remainder, byte / 64 % 2);
    let remainder = bring_down(remainder, byte / 32 % 2);
    let remainder = bring_down(remainder, byte / 16 % 2);
    let remainder = bring_down(remainder, byte / 8 % 2);
    let remainder = bring_down(remainder, byte / 4 % 2);
    let remainder = bring_down(remainder, byte / 2 % 2);
    bring_down(remainder, byte % 2)
}

fn bytes_down(mut remainder: u16, bytes: &[u8]) -> u16
    ensures { result ≡ fold byte_down remainder bytes.now }
{
    for byte in bytes {
        remainder = byte_down(remainder, *byte);
    }
    remainder
}

impl Summer for Crc16 {
    ghost holds = { λ s fed. s.remainder ≡ remainder_of fed };

    ghost digest = { λ fed. to_be_bytes w16 (crc16 fed) };

    fn start() -> Crc16 {
        Crc16 { remainder: 0 }
    }

    fn feed(&mut self, bytes: &[u8]) {
        self.remainder = bytes_down(self.remainder, bytes);
    }

    fn finish(self, to: &mut [u8; 64]) -> usize {
        let digest = bytes_down(self.remainder, &[0, 0]).to_be_bytes();
        to[..2].copy_from_slice(&digest);
        2
    }
}
