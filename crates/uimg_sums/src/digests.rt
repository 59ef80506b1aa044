//! Hashes, computed with the kit's hashers.

mod md5_sum;
mod sha1_sum;
mod sha2_sums;

pub use md5_sum::Md5Sum;
pub use sha1_sum::Sha1Sum;
pub use sha2_sums::{Sha256Sum, Sha384Sum, Sha512Sum};
