//! A sum with any of the algorithms.

ghost use Rattle.std.specs.Prelude.{◌≡◌, ℕ, List, [], ◌++◌};
ghost use Rattle.uimg_sums.specs.{Algorithms.digest_by, AnySum.{algo_of, SumHolds, padded_digest}};

use crate::algo::Algo;
use crate::crc::Crc;
use crate::crc16::Crc16;
use crate::digests::{Md5Sum, Sha1Sum, Sha256Sum, Sha384Sum, Sha512Sum};
use crate::sums::Summer;

/// A sum whose algorithm is chosen at run time.
#[derive(Drop)]
pub(crate) enum AnySum {
    Crc16(Crc16),
    Crc32(Crc),
    Md5(Md5Sum),
    Sha1(Sha1Sum),
    Sha256(Sha256Sum),
    Sha384(Sha384Sum),
    Sha512(Sha512Sum),
}

impl AnySum {
    /// Starts a sum over no bytes.
    pub fn start(algo: Algo) -> AnySum
        ensures algo { algo_of result ≡ algo }
        ensures fed { SumHolds result [] }
    {
        match algo {
            Algo::Crc16 => AnySum::Crc16(Crc16::start()),
            Algo::Crc32 => AnySum::Crc32(Crc::start()),
            Algo::Md5 => AnySum::Md5(Md5Sum::start()),
            Algo::Sha1 => AnySum::Sha1(Sha1Sum::start()),
            Algo::Sha256 => AnySum::Sha256(Sha256Sum::start()),
            Algo::Sha384 => AnySum::Sha384(Sha384Sum::start()),
            Algo::Sha512 => AnySum::Sha512(Sha512Sum::start()),
        }
    }

    /// Adds the bytes after those fed so far.
    pub fn feed(&mut self, bytes: &[u8])
        ensures algo { algo_of self.new ≡ algo_of self.old }
        ensures fed { (fed : List ℕ) → SumHolds self.old fed →
            SumHolds self.new (fed ++ bytes.now) }
    {
        match self {
            AnySum::Crc16(sum) => sum.feed(bytes),
            AnySum::Crc32(sum) => sum.feed(bytes),
            AnySum::Md5(sum) => sum.feed(bytes),
            AnySum::Sha1(sum) => sum.feed(bytes),
            AnySum::Sha256(sum) => sum.feed(bytes),
            AnySum::Sha384(sum) => sum.feed(bytes),
            AnySum::Sha512(sum) => sum.feed(bytes),
        }
    }

    /// Returns the digest, padded with zeros, and its length in bytes.
    pub fn finish(self) -> ([u8; 64], usize)
        ensures { (fed : List ℕ) → SumHolds self fed →
            result ≡ padded_digest (digest_by (algo_of self) fed) }
    {
        match self {
            AnySum::Crc16(sum) => finished(sum),
            AnySum::Crc32(sum) => finished(sum),
            AnySum::Md5(sum) => finished(sum),
            AnySum::Sha1(sum) => finished(sum),
            AnySum::Sha256(sum) => finished(sum),
            AnySum::Sha384(sum) => finished(sum),
            AnySum::Sha512(sum) => finished(sum),
        }
    }
}

// Zeros pad the digest. The length is in bytes.
fn finished<M: Summer>(sum: M) -> ([u8; 64], usize)
    ensures { (fed : List ℕ) → M.holds sum fed → result ≡ padded_digest (M.digest fed) }
{
    let mut digest = [0; 64];
    let length = sum.finish(&mut digest);
    (digest, length)
}
