//! RSASSA-PKCS1-v1_5 (RFC 8017, sections 8.2.2 and 9.2).

ghost use Rattle.std.specs.Prelude.{◌≡◌, ◌≤◌, ◌↔◌, length, take, is_ok, IsTrue};
ghost use Rattle.uimg_sums.specs.Algorithms.{digest_size};
ghost use Rattle.uimg_rsa.specs.Pkcs1.{der_prefix, encoded, pkcs1_verdict, VerifiesPkcs1};

use crate::octets::put;
use crate::opening::open;
use crate::refusal::Refusal;
use uimg_sums::Algo;

// Returns the octets before the digest in a DigestInfo.
#[tactic(auto, unfolding(crate::specs::Pkcs1::der_prefix))]
fn der_prefix(algo: Algo) -> &'static [u8]
    ensures { result.now ≡ der_prefix algo }
{
    match algo {
        Algo::Sha1 => &[
            0x30, 0x21, 0x30, 0x09, 0x06, 0x05, 0x2B, 0x0E, 0x03, 0x02, 0x1A, 0x05, 0x00, 0x04,
            0x14,
        ],
        Algo::Sha256 => &[
            0x30, 0x31, 0x30, 0x0D, 0x06, 0x09, 0x60, 0x86, 0x48, 0x01, 0x65, 0x03, 0x04, 0x02,
            0x01, 0x05, 0x00, 0x04, 0x20,
        ],
        Algo::Sha384 => &[
            0x30, 0x41, 0x30, 0x0D, 0x06, 0x09, 0x60, 0x86, 0x48, 0x01, 0x65, 0x03, 0x04, 0x02,
            0x02, 0x05, 0x00, 0x04, 0x30,
        ],
        Algo::Sha512 => &[
            0x30, 0x51, 0x30, 0x0D, 0x06, 0x09, 0x60, 0x86, 0x48, 0x01, 0x65, 0x03, 0x04, 0x02,
            0x03, 0x05, 0x00, 0x04, 0x40,
        ],
        Algo::Crc16 | Algo::Crc32 | Algo::Md5 => &[],
    }
}

// Returns the encoded message of a digest, at the start of the array.
fn encoded(len: usize, algo: Algo, digest: &[u8]) -> [u8; 512]
    requires within { (256 ≤ len) × (len ≤ 512) }
    requires digest { length digest.now ≡ digest_size algo }
    ensures { take len result ≡ encoded len algo digest.now }
{
    let prefix = der_prefix(algo);
    let at = len - digest.len() - prefix.len();
    let mut em = [0xFF; 512];
    em[0] = 0;
    em[1] = 1;
    put(&mut em, at - 1, &[0]);
    put(&mut em, at, prefix);
    put(&mut em, at + prefix.len(), digest);
    em
}

/// Verifies the signature of a digest by RSASSA-PKCS1-v1_5 (RFC 8017, section 8.2.2).
///
/// `modulus` and `signature` are big-endian octet strings of the same length: 256, 384 or 512
/// octets. `exponent` is the public exponent. `digest` is the digest of the signed message by
/// `algo`: SHA-1, SHA-256, SHA-384 or SHA-512.
///
/// Returns `Ok` if and only if the signature is valid. Otherwise returns the first `Refusal`, in
/// their order, that applies.
#[tactic(auto, unfolding(crate::specs::Pkcs1::pkcs1_verdict))]
pub fn verify_pkcs1(
    modulus: &[u8],
    exponent: u64,
    signature: &[u8],
    algo: Algo,
    digest: &[u8],
) -> Result<(), Refusal>
    ensures verdict { result ≡ pkcs1_verdict modulus.now exponent signature.now algo digest.now }
    ensures valid { IsTrue (is_ok result)
        ↔ VerifiesPkcs1 modulus.now exponent signature.now algo digest.now }
{
    let em = open(modulus, exponent, signature, algo, digest)?;
    let len = modulus.len();
    if em[..len] != encoded(len, algo, digest)[..len] {
        return Err(Refusal::Mismatch);
    }
    Ok(())
}
