//! CRC-32.

ghost use Rattle.std.specs.{Prelude.{◌≡◌, ◌<◌, ℕ, List, true, IsTrue}, Int.{to_be_bytes, w32}};
ghost use Rattle.uimg_sums.specs.{Crc.crc, CrcSums.Holds};

use crate::crc_steps::{byte_steps_of, word_steps_of};
use crate::sums::Summer;

/// CRC-32 of bytes that come in pieces, sixteen bytes a step.
///
/// It is the CRC of ITU-T V.42, section 8.1.1.6.2, and RFC 1952, section 8. The lowest bit of a
/// byte comes first, the polynomial is `0xEDB88320`, the register starts as all ones, and the
/// result is inverted.
#[derive(Drop)]
pub struct Crc {
    register: u32,
}

impl Crc {
    /// Returns the CRC of the bytes fed so far.
    pub fn value(&self) -> u32
        ensures { (fed : List ℕ) → Holds self.now fed → result ≡ crc fed }
    {
        !self.register
    }

    /// Returns a copy of the sum, which is then fed separately.
    pub fn copied(&self) -> Crc
        ensures { result ≡ self.now }
    {
        Crc {
            register: self.register,
        }
    }

    /// Returns whether the two sums agree: whatever may have been fed to one may have been fed to
    /// the other. Two sums that were fed the same bytes agree.
    pub fn is_same(&self, other: &Crc) -> bool
        ensures other { IsTrue result →
            (fed : List ℕ) → Holds other.now fed → Holds self.now fed }
        ensures same { (fed : List ℕ) → Holds self.now fed → Holds other.now fed → result ≡ true }
    {
        self.register == other.register
    }
}

impl Summer for Crc {
    ghost holds = { λ s fed. Holds s fed };

    ghost digest = { λ fed. to_be_bytes w32 (crc fed) };

    fn start() -> Crc {
        Crc {
            register: 0xFFFF_FFFF,
        }
    }

    fn feed(&mut self, bytes: &[u8]) {
        let (words, rest) = bytes.as_chunks::<16>();
        let register = word_steps_of(self.register, words);
        self.register = byte_steps_of(register, rest);
    }

    fn finish(self, to: &mut [u8; 64]) -> usize {
        let digest = self.value().to_be_bytes();
        to[..4].copy_from_slice(&digest);
        4
    }
}

/// Returns CRC-32 of the bytes (ITU-T V.42, section 8.1.1.6.2), as `Crc` does.
pub fn crc_of(bytes: &[u8]) -> u32
    ensures { result ≡ crc bytes.now }
{
    let mut sum = Crc::start();
    sum.feed(bytes);
    sum.value()
}
