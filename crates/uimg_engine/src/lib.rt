//! Commands on images of both formats, over any source and any files: reading and building, in
//! memory and on a disk.
#![tactic(auto)]

mod disk_files;
mod engine;
mod fault;
mod formats;
mod in_memory;
mod locating;
mod making;
mod making_lists;
mod making_of_trees;
mod making_parts;
mod making_trees;
mod same_files;

pub use disk_files::DiskFiles;
pub use engine::{run, run_by};
pub use fault::Fault;
pub use formats::is_fit;
pub use in_memory::{locate_in_memory, make_in_memory, run_in_memory};
pub use locating::locate;
pub use making::{build_image, make, make_by};
pub use making_of_trees::{TreeManner, make_tree};
pub use making_trees::whole_text;
pub use same_files::is_same_file;
pub use uimg_requests::{Action, Command, Form, MakeCommand, Manner};
