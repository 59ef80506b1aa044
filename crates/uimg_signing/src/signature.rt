//! The algorithm and the padding that a signature node names.

ghost use Rattle.std.specs.Prelude.{◌≡◌, ◌+◌, ◌≤◌, List, length, is_err, IfOk, IfSome};
ghost use Rattle.uimg_base.specs.{Honest.HonestSource, Using.Asks};
ghost use Rattle.uimg_signing.specs.Signatures.{rsa_algo, rsa_algo_at, rsa_padding, rsa_padding_at};

use uimg_base::{Source, SourceFault, Span};
use uimg_sums::Algo;

/// The hash and the key of an RSA signature.
#[derive(Clone, Copy, Debug, PartialEq, Eq)]
pub struct RsaAlgo {
    /// The hash of the message.
    pub sum: Algo,
    /// The size of the key in bits.
    pub bits: u32,
}

/// The padding of an RSA signature (RFC 8017, section 8).
#[derive(Clone, Copy, Debug, PartialEq, Eq)]
pub enum RsaPadding {
    /// RSASSA-PKCS1-v1_5.
    Pkcs1,
    /// RSASSA-PSS.
    Pss,
}

/// Returns the hash and the key size that a value of `algo` names, with its NUL.
#[tactic(auto, unfolding(crate::specs::Signatures::rsa_algo))]
pub fn rsa_algo(value: &[u8]) -> Option<RsaAlgo>
    ensures { result ≡ rsa_algo value.now }
{
    if value == b"sha1,rsa2048\0".as_slice() {
        Some(RsaAlgo {
            sum: Algo::Sha1,
            bits: 2048,
        })
    } else if value == b"sha1,rsa3072\0".as_slice() {
        Some(RsaAlgo {
            sum: Algo::Sha1,
            bits: 3072,
        })
    } else if value == b"sha1,rsa4096\0".as_slice() {
        Some(RsaAlgo {
            sum: Algo::Sha1,
            bits: 4096,
        })
    } else if value == b"sha256,rsa2048\0".as_slice() {
        Some(RsaAlgo {
            sum: Algo::Sha256,
            bits: 2048,
        })
    } else if value == b"sha256,rsa3072\0".as_slice() {
        Some(RsaAlgo {
            sum: Algo::Sha256,
            bits: 3072,
        })
    } else if value == b"sha256,rsa4096\0".as_slice() {
        Some(RsaAlgo {
            sum: Algo::Sha256,
            bits: 4096,
        })
    } else if value == b"sha384,rsa2048\0".as_slice() {
        Some(RsaAlgo {
            sum: Algo::Sha384,
            bits: 2048,
        })
    } else if value == b"sha384,rsa3072\0".as_slice() {
        Some(RsaAlgo {
            sum: Algo::Sha384,
            bits: 3072,
        })
    } else if value == b"sha384,rsa4096\0".as_slice() {
        Some(RsaAlgo {
            sum: Algo::Sha384,
            bits: 4096,
        })
    } else if value == b"sha512,rsa2048\0".as_slice() {
        Some(RsaAlgo {
            sum: Algo::Sha512,
            bits: 2048,
        })
    } else if value == b"sha512,rsa3072\0".as_slice() {
        Some(RsaAlgo {
            sum: Algo::Sha512,
            bits: 3072,
        })
    } else if value == b"sha512,rsa4096\0".as_slice() {
        Some(RsaAlgo {
            sum: Algo::Sha512,
            bits: 4096,
        })
    } else {
        None
    }
}

// Returns the padding that a value of `padding` names.
fn rsa_padding(value: &[u8]) -> Option<RsaPadding>
    ensures { result ≡ rsa_padding value.now }
{
    if value == b"pkcs-1.5\0".as_slice() {
        Some(RsaPadding::Pkcs1)
    } else if value == b"pss\0".as_slice() {
        Some(RsaPadding::Pss)
    } else {
        None
    }
}

/// Reads the value of `algo` of a signature node: `sha1`, `sha256`, `sha384` or `sha512`, then
/// `,rsa2048`, `,rsa3072` or `,rsa4096`, and a NUL. Returns `None` for any other value, as for
/// `sha256,ecdsa256`.
///
/// The span must be inside the source. At most 16 bytes are requested. Returns `SourceFault` if and
/// only if the read failed.
pub fn read_rsa_algo<S: Source>(source: &mut S, value: Span) -> Result<Option<RsaAlgo>, SourceFault>
    requires inside { value.place + value.length ≤ length (S.device source.old).bytes }
    ensures uses { Asks 16 (is_err result) (S.device source.old) (S.device source.new) }
    ensures told { HonestSource S.device source → IfOk result (λ it.
        it ≡ rsa_algo_at (S.device source.old).bytes value) }
{
    if value.length > 16 {
        return Ok(None);
    }
    let mut bytes = [0; 16];
    let bytes = &mut bytes[..value.length as usize];
    if source.fill_at(value.place, bytes).is_err() {
        return Err(SourceFault);
    }
    Ok(rsa_algo(bytes))
}

/// Reads the value of `padding` of a signature node: `pkcs-1.5` or `pss`, and a NUL. Without the
/// property the padding is `pkcs-1.5`. Returns `None` for any other value.
///
/// The span must be inside the source. At most 16 bytes are requested. Returns `SourceFault` if and
/// only if the read failed.
pub fn read_rsa_padding<S: Source>(
    source: &mut S,
    value: Option<Span>,
) -> Result<Option<RsaPadding>, SourceFault>
    requires inside { IfSome value (λ s. s.place + s.length ≤ length (S.device source.old).bytes) }
    ensures uses { Asks 16 (is_err result) (S.device source.old) (S.device source.new) }
    ensures told { HonestSource S.device source → IfOk result (λ it.
        it ≡ rsa_padding_at (S.device source.old).bytes value) }
{
    let Some(value) = value else {
        return Ok(Some(RsaPadding::Pkcs1));
    };
    if value.length > 16 {
        return Ok(None);
    }
    let mut bytes = [0; 16];
    let bytes = &mut bytes[..value.length as usize];
    if source.fill_at(value.place, bytes).is_err() {
        return Err(SourceFault);
    }
    Ok(rsa_padding(bytes))
}
