//! The ends of a command that no fault stopped.

/// How a command ended that no fault stopped.
#[derive(Clone, Copy, Debug, PartialEq, Eq)]
pub enum Status {
    /// All is done, and every compared checksum is right.
    Done,

    /// The report is written, and something in it is not right.
    NotRight,
}
