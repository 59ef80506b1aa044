//! Writes the payloads of a FIT image and the parts of a legacy image to a folder as files:
//! `unpack` and `unpack_parts`.
#![tactic(auto)]

mod file_names;
mod folder;
mod folder_taker;
mod limits;
mod lines;
mod names;
mod naming;
mod new_file;
mod objects;
mod part_folder;
mod part_unpacking;
mod staged_file;
mod staging;
mod task;
mod telling;
mod trouble;
mod unpacking;

pub use file_names::is_file_name;
pub use folder::Folder;
pub use limits::Limits;
pub use naming::name_file;
pub use part_unpacking::unpack_parts;
pub use trouble::Trouble;
pub use unpacking::{Ended, Unpacking, unpack};
