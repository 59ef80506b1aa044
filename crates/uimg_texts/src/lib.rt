//! Numbers, names and times as bytes and texts. Nothing here reads, writes or takes memory.
#![tactic(auto)]

mod all_names;
mod codes;
mod digits;
mod field;
mod naming;
mod nul;
mod numbers;
mod sizes;
mod times;

pub use all_names::{FLAT_DT, MULTI, SCRIPT};
pub use codes::{
    arch_code, arch_text, comp_code, comp_text, kind_code, kind_text, os_code, os_text,
};
pub use digits::two_digits;
pub use field::{CodeRow, Field};
pub use naming::Naming;
pub use nul::{before_nul, first_nul};
pub use numbers::{be32_at, up4};
pub use sizes::hundredths;
pub use times::time_text;
