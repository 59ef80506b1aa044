//! mkimage's warnings about a source: what the original refuses, or a board fails on. The image is
//! made nevertheless. `warn` is the one call.

mod configurations;
mod images;
mod names;
mod root;
mod teller;
mod warning;

pub use root::warn;
