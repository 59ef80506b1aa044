//! Public keys of RSA in PEM files (RFC 7468) and in control devicetrees of U-Boot.
#![tactic(auto)]

mod der;
mod key;
mod keys;
mod pem;
mod reading;
mod trees;
mod values;

pub use key::{KeyFault, PublicKey};
pub use keys::Keys;
pub use pem::key_of_pem;
pub use reading::read_keys;
