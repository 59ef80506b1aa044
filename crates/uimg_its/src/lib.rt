//! Image-tree source, the devicetree source of U-Boot's FIT images, compiled to its tree. `compile`
//! is the one call; its documentation says what a source may contain.
//!
//! Lemmas prove that what is spelled is read (`proofs/SpelledIsRead.antt`) and that what is read is
//! spelled (`ReadIsSpelled`). `Examples` tries the definitions of words and cells on worked texts.
#![tactic(auto)]

mod bytes;
mod compiler;
mod fault;
mod growth;
mod incbin;
mod items;
mod lexer;
mod lines;
mod lists;
mod nodes;
mod numbers;
mod pieces;
mod properties;
mod stop;
mod strings;
mod tokens;
mod values;

pub use compiler::{compile, one_tree};
pub use fault::{Construct, FaultKind, ItsFault};
pub use uimg_base::{Files, MemFiles};
pub use uimg_blob_writing::{ByteList, Node, Nodes, Prop, Props, Tree, Value};
