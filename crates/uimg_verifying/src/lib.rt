//! Whether each configuration of a FIT image is signed by a key, as U-Boot verifies it, and whether a
//! configuration names each image.
#![tactic(auto)]

mod configurations;
mod covering;
mod digests;
mod names;
mod refusals;
mod required;
mod results;
mod signatures;

pub use configurations::find_unsigned;
pub use covering::find_uncovered;
pub use required::Required;
pub use results::{SignatureResult, signature_results};
