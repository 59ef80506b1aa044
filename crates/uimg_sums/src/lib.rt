//! Checksums and hashes over bytes that come in pieces: CRC, MD5 and SHA, by name, one or several
//! at once.
#![tactic(auto)]

mod algo;
mod any_sum;
mod bundle;
mod crc;
mod crc16;
mod crc_steps;
mod crc_table;
mod digests;
mod sums;

pub use algo::{ALGOS, Algo};
pub use bundle::Bundle;
pub use crc::{Crc, crc_of};
pub use crc_table::crc_entry;
pub use crc16::Crc16;
pub use digests::{Md5Sum, Sha1Sum, Sha256Sum, Sha384Sum, Sha512Sum};
pub use sums::{Summer, Sums};
