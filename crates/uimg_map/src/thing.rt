//! Things in a file.

/// Something in a file, or after its end. Things are ordered by their offsets, then by their ends,
/// then by their numbers.
#[derive(Clone, Copy, Debug, PartialEq, Eq, PartialOrd, Ord)]
pub struct Thing {
    /// The offset of its first byte.
    pub place: u64,

    /// The offset after its last byte.
    pub end: u64,

    /// Its number, for whoever looks it up.
    pub number: usize,
}
