//! Why a signature is refused.

/// Why a signature is refused. If several reasons apply, the first in this order is returned.
#[derive(Clone, Copy, Debug, PartialEq, Eq)]
pub enum Refusal {
    /// The algorithm is none of SHA-1, SHA-256, SHA-384 and SHA-512.
    Algorithm,
    /// The digest has another length than the algorithm's digests.
    DigestLength,
    /// The modulus does not have exactly 2048, 3072 or 4096 bits.
    KeySize,
    /// The public exponent is even, or less than 3.
    Exponent,
    /// The signature has another length than the modulus.
    SignatureLength,
    /// The signature representative is out of range: not less than the modulus.
    OutOfRange,
    /// The encoded message is not consistent with the digest.
    Mismatch,
}
