//! A static library for C that lists and verifies images in memory, and finds their payloads.
//!
//! Each export calls one function of the crates below and repeats its clauses. `include/uimg.h`
//! says what a caller in C must ensure.
#![tactic(auto)]

mod checks;
mod codes;
mod counts;
mod exports;
mod fault_lines;
mod fronts;
mod numbered_faults;
mod payloads;
mod peaks;
mod reports;
mod running;
mod signed_checks;
mod strict_checks;
