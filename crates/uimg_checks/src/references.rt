//! Finds names that a FIT image uses but lacks: `find_missing`.

mod missing;
mod names;
mod reference;

pub(crate) use missing::{behind, given_by, is_ended, missing_of};
pub use missing::{Missing, find_missing};
pub(crate) use names::image_names;
pub use reference::Reference;
