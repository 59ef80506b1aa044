//! What is required of the signatures of an image.

use uimg_keys::{Keys, PublicKey};

/// What is required of the signatures of an image.
#[derive(Drop)]
pub struct Required<'a> {
    /// The keys that a configuration must be signed by.
    pub keys: Keys,

    /// Whether a signature over SHA-1 is enough.
    pub takes_sha1: bool,

    /// The name of the only configuration that must be signed, if it is not each one.
    pub only: Option<&'a [u8]>,
}

/// One of the keys, and whether a signature by it over SHA-1 is enough.
#[derive(Clone, Copy)]
pub(crate) struct ByKey<'a> {
    pub(crate) key: &'a PublicKey,
    pub(crate) takes_sha1: bool,
}
