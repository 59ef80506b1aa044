//! Reads a command line of `uimg`: its request, or why there is none.
#![tactic(auto)]

mod command_line;

pub use command_line::{
    Asked, CheckRequest, DiffRequest, InfoRequest, KeyRequest, MapRequest, Request, UnpackRequest,
    WordsFault, read_words,
};
