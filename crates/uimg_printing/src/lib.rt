//! Parts of lines, of JSON objects and of XML documents: names that cannot break a line, counts, bytes,
//! members of objects, names that need not be UTF-8, and texts that cannot break a document.
#![tactic(auto)]

mod counted;
mod digits;
mod escaped;
mod hidden;
mod members;
mod printed;
mod spelling;

pub use counted::{Counted, Hexadecimal};
pub use escaped::Escaped;
pub use hidden::is_hidden;
pub use members::{put_key, put_number, put_number_if, put_string, put_text};
pub use printed::{Printed, PrintedWord};
pub use spelling::{Spelling, spell};
