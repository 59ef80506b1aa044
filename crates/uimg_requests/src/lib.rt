//! Requests to the program: commands on an image, the build of one, and arguments that they share.
#![tactic(auto)]

mod command;
mod make_command;
mod names;
mod number_words;
mod requests;
mod version;

pub use command::{Action, Command, Form};
pub use make_command::{MakeCommand, Manner};
pub use names::file_names;
pub use number_words::{decimal, hexadecimal};
pub use requests::{MakeRequest, RunRequest, cut_behind_folder};
pub use version::VERSION;
