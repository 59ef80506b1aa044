//! What no contract claims: that calls succeed, what a failing device leaves, and what a real file
//! returns.
//!
//! Many rows have a script: steps separated by `|`, each a word and its argument. A step that does
//! not end as it says is reported with its row.

mod disk;
mod faults;
mod files;
mod moves;
mod named;
mod reading;
mod rooms;
mod shelves;
mod sources;
mod steps;
mod writers;
