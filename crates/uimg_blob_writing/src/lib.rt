//! Trees of nodes and properties, and the flattened devicetree blobs made of them.
//!
//! The contract of each function that writes gives the pieces that it writes (`WritesPieces` of
//! `specs/Pieces.antt`).
#![tactic(auto)]

mod alignment;
mod blob_end;
mod byte_list;
mod checking;
mod copying;
mod fault;
mod file_pieces;
mod layout;
mod measuring;
mod names;
mod nodes;
mod payloads;
mod properties;
mod props;
mod reservation;
mod sizes;
mod tokens;
mod tree;
mod writing;

pub use alignment::{WORD_ALIGNMENT, aligned, put_zeros};
pub use blob_end::BlobEnd;
pub use byte_list::ByteList;
pub use copying::{copy_bytes, copy_node, copy_nodes, copy_properties, copy_property, copy_value};
pub use fault::TreeFault;
pub use layout::Layout;
pub use measuring::{measure, measure_with};
pub use payloads::{put_aligned, value_size};
pub use props::{Prop, Props, Value};
pub use reservation::Reservation;
pub use tree::{Node, Nodes, Tree};
pub use writing::write_tree;
