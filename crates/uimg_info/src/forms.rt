//! The forms of properties' values.

/// The form of a property's value, which determines its member.
#[derive(Clone, Copy, Debug, PartialEq, Eq)]
pub(crate) enum Form {
    /// A text, up to its first NUL.
    Text,
    /// Texts, each up to a NUL.
    Texts,
    /// A digest, printed in hexadecimal.
    Digest,
    /// A number of four bytes.
    Cell,
    /// An address of one cell or two.
    Address,
}
