//! Reads, checks, lists, unpacks and builds legacy images.
#![tactic(auto)]

mod building;
mod built_data;
mod checking;
mod counting;
mod extraction;
mod fault;
mod header;
mod image;
mod lines;
mod listing;
mod measure;
mod one_part;
mod options;
mod parts;
mod placing;
mod report;
mod table;
mod unpacking;

pub use building::build;
pub use checking::check;
pub use counting::count_parts;
pub use extraction::{extract, locate};
pub use fault::{Fault, LegacyFault};
pub use header::{HEADER_LEN, Header, header_bytes, name_field, read_header};
pub use listing::{list, list_by};
pub use options::Options;
pub use parts::has_parts;
pub use placing::{PartsFault, locate_parts};
pub use report::verify;
pub use unpacking::{MemPart, MemParts, PartTaker, unpack};
