//! A public key, and why a text has none.

use std::alloc::AllocError;
use thiserror::Error;
use uimg_base::SourceFault;
use uimg_signing::RsaAlgo;

/// A public key of RSA (RFC 8017, section 3.1).
#[derive(Drop)]
pub struct PublicKey {
    /// The modulus, its first octet the highest.
    pub modulus: Vec<u8>,

    /// The exponent.
    pub exponent: u64,

    /// What the `algo` of a signature must say, if the file says it.
    pub algo: Option<RsaAlgo>,

    /// Its name, empty if the file does not tell it.
    pub name: Vec<u8>,
}

/// Why a file has no key.
#[derive(Clone, Copy, Debug, PartialEq, Eq, Error)]
pub enum KeyFault {
    /// The file is neither the PEM of a public key of RSA nor a devicetree.
    #[error("neither an RSA public key in PEM nor a devicetree blob")]
    NotKey,

    /// A devicetree has no `/signature`, or no key there is required for configurations.
    #[error("no key in /signature is required for configurations")]
    NoKey,

    /// A key of a devicetree is required for images: U-Boot wants their signatures, which are not
    /// checked.
    #[error("a key in /signature is required for images, whose signatures are not checked")]
    ImageKey,

    /// The size of the modulus is not 2048, 3072 or 4096 bits, or the exponent is even or below 3.
    #[error("not a key that U-Boot takes: 2048, 3072 or 4096 bits, an odd exponent above 2")]
    Unfit,

    /// The node of a key lacks a property, or has a wrong one.
    #[error("a key in /signature lacks a property, or has a wrong one")]
    WrongNode,

    /// A read failed.
    #[error("cannot read the key")]
    Read,

    /// Memory was refused.
    #[error("out of memory")]
    OutOfMemory,
}

impl From<AllocError> for KeyFault {
    fn from(_error: AllocError) -> KeyFault {
        KeyFault::OutOfMemory
    }
}

impl From<SourceFault> for KeyFault {
    fn from(_error: SourceFault) -> KeyFault {
        KeyFault::Read
    }
}
