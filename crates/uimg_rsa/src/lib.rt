//! Verification of RSA signatures (RFC 8017): RSASSA-PKCS1-v1_5 and RSASSA-PSS, for keys of 2048,
//! 3072 and 4096 bits and digests by SHA-1 and SHA-2.
//!
//! Takes no memory. It is not constant-time, which public keys and signatures do not need.
#![tactic(auto)]

mod limbs;
mod mgf1;
mod octets;
mod opening;
mod pkcs1;
mod pss;
mod r_squared;
mod reducing;
mod refusal;
mod rsavp1;

pub use pkcs1::verify_pkcs1;
pub use pss::verify_pss;
pub use r_squared::is_r_squared;
pub use refusal::Refusal;
