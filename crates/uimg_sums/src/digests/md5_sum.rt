//! MD5.

ghost use Rattle.md5.specs.Md5.{Holds, md5};

use crate::sums::Summer;
use md5::{Digest, Md5};

/// MD5 of bytes that come in pieces (RFC 1321, section 3): 16 bytes.
///
/// MD5 is broken as a cryptographic hash. It detects damage, not forgery.
#[derive(Drop)]
pub struct Md5Sum {
    hasher: Md5,
}

impl Summer for Md5Sum {
    ghost holds = { λ s fed. Holds s.hasher fed };

    ghost digest = { md5 };

    fn start() -> Md5Sum {
        Md5Sum { hasher: Md5::new() }
    }

    fn feed(&mut self, bytes: &[u8]) {
        self.hasher.update(bytes);
    }

    fn finish(self, to: &mut [u8; 64]) -> usize {
        let digest = self.hasher.finalize();
        to[..16].copy_from_slice(&digest);
        16
    }
}
