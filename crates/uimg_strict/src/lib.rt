//! Strict checks of images whose checksums or hashes are right.
//!
//! They refuse a FIT image that U-Boot reads in another way than the check, or not at all, and a
//! legacy image whose header means nothing.
#![tactic(auto)]

mod headers;
mod images;
mod loose;
mod names;
mod node_names;
mod nodes;
mod placement;
mod soundness;
mod strictness;

pub use headers::find_loose_header;
pub use loose::{Loose, Looseness};
pub use strictness::find_loose;
