//! The files of a system, as the program uses them: on a disk, and in memory. Each call of the
//! system is a method of a `World`, and contracts see the calls that were made.
#![tactic(auto)]

mod call;
mod disk_input;
mod disk_looks;
mod disk_making;
mod disk_world;
mod file_id;
mod kind;
mod making_world;
mod memory_file;
mod memory_making;
mod memory_world;
mod new_files;
mod new_shelf;
mod opened_file;
mod record;
mod world;

pub use call::{Answer, Call};
pub use disk_world::DiskWorld;
pub use file_id::FileId;
pub use kind::{Kind, Target};
pub use making_world::{MakingWorld, Reader};
pub use memory_file::MemoryFile;
pub use memory_world::MemoryWorld;
pub use new_files::NewFiles;
pub use world::World;
