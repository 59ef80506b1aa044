//! MGF1, the mask generation function (RFC 8017, appendix B.2.1), and hashes.

ghost use Rattle.std.specs.Prelude.{◌≡◌, ◌*◌, ◌≤◌, ◌++◌, take};
ghost use Rattle.uimg_sums.specs.Algorithms.{digest_size, digest_by};
ghost use Rattle.uimg_rsa.specs.Mgf1.{hashes, mgf1};

use crate::octets::put;
use uimg_sums::{Algo, Bundle};

// Returns the digest of three octet strings, one after another, at the start of the array.
pub(crate) fn hash_of(algo: Algo, first: &[u8], second: &[u8], third: &[u8]) -> [u8; 64]
    ensures { take (digest_size algo) result
        ≡ digest_by algo ((first.now ++ second.now) ++ third.now) }
{
    let mut sums = Bundle::new();
    sums.add(algo);
    sums.feed(first);
    sums.feed(second);
    sums.feed(third);
    sums.finish()[0].0
}

// Returns the digests of the seed with each counter below `count`, at the start of the array.
fn hashes(algo: Algo, seed: &[u8], count: usize) -> [u8; 576]
    requires { count * digest_size algo ≤ 576 }
    ensures { take (count * digest_size algo) result ≡ hashes algo seed.now count }
{
    let size = algo.len();
    let mut mask = [0; 576];
    let mut at = 0;
    for counter in 0..count {
        let hash = hash_of(algo, &[], seed, &(counter as u32).to_be_bytes());
        put(&mut mask, at, &hash[..size]);
        at += size;
    }
    mask
}

// Returns a mask of `len` octets, at the start of the array.
pub(crate) fn mgf1(algo: Algo, seed: &[u8], len: usize) -> [u8; 576]
    requires { len ≤ 512 }
    ensures { take len result ≡ mgf1 algo seed.now len }
{
    hashes(algo, seed, len.div_ceil(algo.len()))
}
