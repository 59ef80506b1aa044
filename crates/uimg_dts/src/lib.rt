//! Devicetree source, the whole language of dtc 1.6.1 but for plugins, compiled to its tree.
//! `compile_all` is the one call; its documentation says what is proved and what is tested.
//!
//! A text goes through `lexing.rt` to words (`gaps.rt`, `words.rt`), and through `statements.rt`
//! and `bodies.rt` to tables (`table.rt`). `finding.rt` looks up nodes and properties there, and
//! `merging.rt` deletes them and merges what is given again. `names.rt` and `phandles.rt` check the
//! tables and resolve references; `planting.rt` makes the tree.
#![tactic(auto)]

mod arrays;
mod bodies;
mod bytes;
mod compiler;
mod expressions;
mod fault;
mod finding;
mod gaps;
mod index;
mod labelling;
mod lexing;
mod literals;
mod merging;
mod names;
mod opening;
mod operators;
mod phandles;
mod planting;
mod quoted;
mod reading;
mod sheet;
mod statements;
mod stop;
mod table;
mod tokens;
mod values;
mod words;

pub use compiler::{Compiled, compile_all};
pub use fault::{DtsFault, DtsKind, Refusal};
