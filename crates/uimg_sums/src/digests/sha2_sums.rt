//! SHA-256, SHA-384 and SHA-512.

ghost use Rattle.sha2.specs.{Hashers.{Holds256, Holds384, Holds512}, Sha256.sha256};
ghost use Rattle.sha2.specs.Sha512.{sha384, sha512};

use crate::sums::Summer;
use sha2::{Digest, Sha256, Sha384, Sha512};

/// SHA-256 of bytes that come in pieces (FIPS 180-4, section 6.2): 32 bytes.
#[derive(Drop)]
pub struct Sha256Sum {
    hasher: Sha256,
}

impl Summer for Sha256Sum {
    ghost holds = { λ s fed. Holds256 s.hasher fed };

    ghost digest = { sha256 };

    fn start() -> Sha256Sum {
        Sha256Sum {
            hasher: Sha256::new(),
        }
    }

    fn feed(&mut self, bytes: &[u8]) {
        self.hasher.update(bytes);
    }

    fn finish(self, to: &mut [u8; 64]) -> usize {
        let digest = self.hasher.finalize();
        to[..32].copy_from_slice(&digest);
        32
    }
}

/// SHA-384 of bytes that come in pieces (FIPS 180-4, section 6.5): 48 bytes.
#[derive(Drop)]
pub struct Sha384Sum {
    hasher: Sha384,
}

impl Summer for Sha384Sum {
    ghost holds = { λ s fed. Holds384 s.hasher fed };

    ghost digest = { sha384 };

    fn start() -> Sha384Sum {
        Sha384Sum {
            hasher: Sha384::new(),
        }
    }

    fn feed(&mut self, bytes: &[u8]) {
        self.hasher.update(bytes);
    }

    fn finish(self, to: &mut [u8; 64]) -> usize {
        let digest = self.hasher.finalize();
        to[..48].copy_from_slice(&digest);
        48
    }
}

/// SHA-512 of bytes that come in pieces (FIPS 180-4, section 6.4): 64 bytes.
#[derive(Drop)]
pub struct Sha512Sum {
    hasher: Sha512,
}

impl Summer for Sha512Sum {
    ghost holds = { λ s fed. Holds512 s.hasher fed };

    ghost digest = { sha512 };

    fn start() -> Sha512Sum {
        Sha512Sum {
            hasher: Sha512::new(),
        }
    }

    fn feed(&mut self, bytes: &[u8]) {
        self.hasher.update(bytes);
    }

    fn finish(self, to: &mut [u8; 64]) -> usize {
        let digest = self.hasher.finalize();
        *to = digest;
        64
    }
}
