//! Reads FIT images: listing, verification and extraction. What checks and surveys of images need
//! is public too.
//!
//! The contract of a function that takes the number of a node says which node of the tree that is,
//! and what its values are (`specs/Nodes.antt`).
#![tactic(auto)]

mod extraction;
pub mod images;
mod listing;
pub mod nodes;
mod open_fit;
mod places;
mod puts;
mod report;
mod tree;

pub use extraction::{extract, locate};
pub use listing::{list, list_by};
pub use places::{PayloadFacts, find_payload, payload_facts, payload_place};
pub use report::{compared_algos, judge, payload_digests, verify};
pub use tree::read_tree;
