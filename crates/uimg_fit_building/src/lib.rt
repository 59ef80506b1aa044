//! Makes FIT images: fills trees, and builds them as files.
//!
//! These lemmas are in `proofs/`:
//! - `BuiltLaw`: the image of a filled tree reads back, with each placement.
//! - `FillUnreadLaws`, `UnreadLaws`: filling and placing before the files are read is filling and
//!   placing after.
//! - `KeptLaws`: a tree's files have their sizes if those of its blob and those after it have.
//! - `FillOrderLaws`: which faults the order of filling admits.
#![tactic(auto)]

mod building;
mod filling;
mod payloads;
mod setting;

pub use building::{Frame, build, build_by, build_with};
pub use filling::{fill, fill_by};
pub use payloads::is_images;
pub use setting::{first_value, with_value};
