//! Legacy images and their listings; RSA keys and signatures.

pub mod legacy;
pub mod listings;
pub mod rsa;
