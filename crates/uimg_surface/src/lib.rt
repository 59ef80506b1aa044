//! The contract of the library and the program: each public call with what is promised of it. Each
//! function has the signature of the call, and its body is that call alone.
#![tactic(auto)]

pub mod blob;
pub mod devices;
pub mod fit;
pub mod its;
pub mod legacy;
pub mod program;
pub mod sums;
pub mod texts;
pub mod tool;
