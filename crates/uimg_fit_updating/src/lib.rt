//! Updates FIT images: reads one to a tree, takes its payloads into the tree, and fills it again.
#![tactic(auto)]

mod fault;
mod importing;
mod reading;
mod updating;

pub use fault::UpdateFault;
pub use reading::read_fit;
pub use updating::{Updated, update};
