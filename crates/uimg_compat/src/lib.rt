//! The command lines of mkimage and dumpimage 2023.01: arguments and numbers as the GNU C library
//! reads them, the requests, and mkimage's warnings.
#![tactic(auto)]

mod auto_source;
mod base_names;
mod c_numbers;
mod dtc_checks;
mod dtc_words;
mod dumpimage;
mod fault;
mod getopt;
mod helps;
mod image_tree;
mod labels;
mod mkimage;
mod mkimage_options;
mod names;
mod nearest;
mod quoted;
mod request;
mod warnings;

pub use auto_source::{AutoSource, TreePaths};
pub use base_names::file_name;
pub use c_numbers::{long_prefix, low_half, unsigned_long};
pub use dtc_words::{DtcWords, Silenced};
pub use dumpimage::read_dumpimage;
pub use fault::OldFault;
pub use getopt::{Given, Misuse, OptionRow, Words};
pub use labels::has_labels;
pub use mkimage::read_mkimage;
pub use names::title_of;
pub use quoted::{Escaped, Quoted};
pub use request::{AutoRequest, FitRequest, OldRequest, Show, UpdateRequest};
pub use warnings::warn;
