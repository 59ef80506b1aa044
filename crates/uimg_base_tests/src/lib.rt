//! Tests of sums, RSA signatures, texts, devices and legacy images, with the images and listings that
//! these and other tests use.
#![tactic(auto)]

pub mod samples;
#[cfg(test)]
mod tests;
