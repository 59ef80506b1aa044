//! Tests of blobs, trees, image-tree source and FIT images, with the images that they and the tests
//! of the program use.
#![tactic(auto)]

pub mod samples;
pub mod sources;
#[cfg(test)]
mod tests;
