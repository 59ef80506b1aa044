//! What a node's name says about its role.

ghost use Rattle.std.specs.Prelude.{◌≡◌};
ghost use Rattle.uimg_blob_reading.specs.Labels.{label_of};

/// What a node's name says about its role.
#[derive(Clone, Copy, Debug, PartialEq, Eq)]
pub enum Label {
    Images,
    Configurations,
    /// A name that begins with `hash`.
    Hash,
    /// A name that begins with `signature`.
    Signature,
    Other,
}

pub(crate) fn label_of(name: &[u8]) -> Label
    ensures { result ≡ label_of name.now }
{
    if name == b"images".as_slice() {
        Label::Images
    } else if name == b"configurations".as_slice() {
        Label::Configurations
    } else if name.starts_with(b"hash") {
        Label::Hash
    } else if name.starts_with(b"signature") {
        Label::Signature
    } else {
        Label::Other
    }
}
