//! SHA-1.

ghost use Rattle.sha1.specs.Sha1.{Holds, sha1};

use crate::sums::Summer;
use sha1::Sha1;

/// SHA-1 of bytes that come in pieces (FIPS 180-4, section 6.1): 20 bytes.
///
/// SHA-1 is broken as a cryptographic hash. It detects damage, not forgery.
#[derive(Drop)]
pub struct Sha1Sum {
    hasher: Sha1,
}

impl Summer for Sha1Sum {
    ghost holds = { λ s fed. Holds s.hasher fed };

    ghost digest = { sha1 };

    fn start() -> Sha1Sum {
        Sha1Sum {
            hasher: Sha1::new(),
        }
    }

    fn feed(&mut self, bytes: &[u8]) {
        self.hasher.update(bytes);
    }

    fn finish(self, to: &mut [u8; 64]) -> usize {
        let digest = self.hasher.finalize();
        to[..20].copy_from_slice(&digest);
        20
    }
}
