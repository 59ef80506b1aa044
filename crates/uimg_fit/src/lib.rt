//! FIT images: listing, verification, extraction, filling and building.
#![tactic(auto)]

pub use uimg_fit_base::{AlignedPlacement, Fault, FitFault, Placement};
pub use uimg_fit_building::{build, build_by, fill};
pub use uimg_fit_reading::{extract, list, list_by, verify};
