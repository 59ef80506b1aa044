//! What the signatures of FIT configurations sign, and whether they are a key's.

mod covering;
mod key_trees;
mod keys;
mod required;
mod rows;
mod signed;
mod trees;
mod verified;
