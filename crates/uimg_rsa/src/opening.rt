//! The checks before a signature is opened, and its encoded message.

ghost use Rattle.std.specs.Prelude.{◌≡◌, ◌≤◌, length, OnOk};
ghost use Rattle.uimg_sums.specs.Algorithms.{digest_size};
ghost use Rattle.uimg_rsa.specs.Opening.{is_sha, is_modulus, is_exponent, opened, first_octets};

use crate::refusal::Refusal;
use crate::rsavp1::rsavp1;
use uimg_sums::Algo;

// Returns whether the algorithm is SHA-1, SHA-256, SHA-384 or SHA-512.
fn is_sha(algo: Algo) -> bool
    ensures { result ≡ is_sha algo }
{
    matches!(
        algo,
        Algo::Sha1 | Algo::Sha256 | Algo::Sha384 | Algo::Sha512
    )
}

// Returns whether the modulus has exactly 2048, 3072 or 4096 bits.
#[tactic(auto, unfolding(crate::specs::Opening::is_modulus))]
pub(crate) fn is_modulus(modulus: &[u8]) -> bool
    ensures { result ≡ is_modulus modulus.now }
{
    if modulus.len() == 256 || modulus.len() == 384 || modulus.len() == 512 {
        return modulus[0] >= 128;
    }
    false
}

// Returns whether the public exponent is odd and at least 3.
fn is_exponent(exponent: u64) -> bool
    ensures { result ≡ is_exponent exponent }
{
    exponent >= 3 && exponent % 2 == 1
}

// Returns the encoded message that the signature opens to, at the start of the array.
#[tactic(auto, unfolding(crate::specs::Opening::opened))]
pub(crate) fn open(
    modulus: &[u8],
    exponent: u64,
    signature: &[u8],
    algo: Algo,
    digest: &[u8],
) -> Result<[u8; 512], Refusal>
    ensures message { first_octets (length modulus.now) result
        ≡ opened modulus.now exponent signature.now algo digest.now }
    ensures digest { OnOk result (length digest.now ≡ digest_size algo) }
    ensures size { OnOk result ((256 ≤ length modulus.now) × (length modulus.now ≤ 512)) }
{
    if !is_sha(algo) {
        return Err(Refusal::Algorithm);
    }
    if digest.len() != algo.len() {
        return Err(Refusal::DigestLength);
    }
    if !is_modulus(modulus) {
        return Err(Refusal::KeySize);
    }
    if !is_exponent(exponent) {
        return Err(Refusal::Exponent);
    }
    if signature.len() != modulus.len() {
        return Err(Refusal::SignatureLength);
    }
    rsavp1(modulus, exponent, signature)
}
