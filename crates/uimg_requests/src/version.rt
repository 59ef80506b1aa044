//! The version of the program.

/// The version of the program, as `uimg --version` prints it after the name.
pub const VERSION: &str = "0.1.0";
