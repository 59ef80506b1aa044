//! The tables of cases, by subject.

mod base;
mod counted;
mod legacy;
mod rsa;
mod sums;
mod texts;
