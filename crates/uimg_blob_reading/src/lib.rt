//! Flattened devicetree blobs: the header, the tokens of the structure block, the index of nodes.
//!
//! The index is made in one pass. These lemmas are in `proofs/`:
//! - `WalkLaws`: the pass follows the grammar.
//! - `CostLaws`: what it costs.
//! - `OwnLaws`: a node's properties are those after its name.
//! - `NumberedLaws`: the first node of the role `images` or `configurations` is the root's first
//!   child of that name.
//!
//! `Examples` has worked blobs.
#![tactic(auto)]

mod entries;
mod extent;
mod fault;
mod indexing;
mod keys;
mod labels;
mod nodes;
mod places;
mod properties;
mod reads;
mod roles;
pub mod samples;
mod slots;
mod states;
mod texts;
mod tokens;

pub use extent::{BLOB_MAGIC, Extent};
pub use fault::{BlobFault, IndexFault};
pub use indexing::index;
pub use keys::Key;
pub use labels::Label;
pub use nodes::Blob;
pub use places::PropertyPlace;
pub use properties::{PropertiesFault, extent_again, properties_of};
pub use roles::Role;
pub use texts::{put_text, short_text};
pub use tokens::{ReadToken, read_token};
