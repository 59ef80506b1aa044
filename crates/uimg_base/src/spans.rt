//! The offset and length of bytes in a file.

/// The offset and length of some bytes in a file.
#[derive(Clone, Copy, Debug, PartialEq, Eq)]
pub struct Span {
    /// The offset of the first byte from the start of the file.
    pub place: u64,
    /// The number of bytes.
    pub length: u64,
}
