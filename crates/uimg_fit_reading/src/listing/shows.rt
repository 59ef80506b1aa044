//! How values are printed.

use uimg_texts::{Field, Naming};

/// How the value of a property is printed.
#[derive(Clone, Copy)]
pub(crate) enum Show {
    /// Its text.
    Text,
    /// The printed name of the code of a field that its text names.
    Name(Naming, Field),
    /// An address of one or two cells.
    Address,
    /// All its bytes in hexadecimal.
    Hexadecimal,
    /// A line for each text.
    List,
}
