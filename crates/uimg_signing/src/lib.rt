//! What the signature of a FIT configuration signs: which nodes it covers, and the message (U-Boot,
//! `doc/uImage.FIT/signature.rst`, section "Signed Configurations").
//!
//! The nodes are computed from the configuration, as U-Boot does since the fix of CVE-2026-46728. The
//! list in the file, `hashed-nodes`, is never read, since no signature covers it. Nothing here
//! verifies a signature.
//!
//! These lemmas are in `proofs/`:
//! - `ListedLaws`: a node is listed if and only if its path is.
//! - `GoingLaws`: the walk over the tokens of a tree meets no token that is not allowed.
//! - `ShortLaws`: the names of a tree's nodes are short.
//! - `SignedPartLaws`: a message tells the signed nodes and properties, in order.
//! - `SignedPathLaws`: it tells the path, the name and the value of each signed property.
//! - `MarkLaws`: the paths of the listed nodes are signed.
//!
//! `Examples` has worked cases.
#![tactic(auto)]

mod apart;
mod configuration_signatures;
mod faults;
mod hashed;
mod image_naming;
mod listing;
mod message;
mod naming;
mod path_sizes;
mod properties;
mod reach;
mod signature;
mod strings;
mod texts;
mod turns;
mod walking;

pub use configuration_signatures::{SignatureNode, signature_nodes};
pub use faults::SigningFault;
pub use image_naming::names_image;
pub use listing::list_nodes;
pub use message::feed_message;
pub use reach::{is_closed, is_reached};
pub use signature::{RsaAlgo, RsaPadding, read_rsa_algo, read_rsa_padding, rsa_algo};
pub use strings::strings_size;
