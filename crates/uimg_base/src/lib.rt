//! What every engine uses: sources, files, shelves, output, the room, and ranges. `uimg_sums` and
//! `uimg_texts` are re-exported.
#![tactic(auto)]

mod file_shelf;
mod file_source;
mod files;
mod fuse_files;
mod fuse_source;
mod fuse_writer;
mod mem_files;
mod mem_shelf;
mod opened_names;
mod output;
mod piece;
mod ranges;
mod reading;
mod room;
mod seek_read;
mod seek_source;
mod shelves;
mod sizes;
mod source;
mod spans;
mod status;
mod windows;

pub use file_shelf::FileShelf;
pub use file_source::FileSource;
pub use files::Files;
pub use fuse_files::FuseFiles;
pub use fuse_source::FuseSource;
pub use fuse_writer::FuseWriter;
pub use mem_files::MemFiles;
pub use mem_shelf::{MemKept, MemShelf};
pub use opened_names::OpenedNames;
pub use output::{Out, PutFault};
pub use ranges::{
    MoveFault, copy_range, copy_through, crc_range, feed_through, sum_range, take_through,
};
pub use room::{Entry, Room, WINDOW};
pub use seek_read::{DiskFile, SeekRead};
pub use seek_source::SeekSource;
pub use shelves::Shelf;
pub use sizes::size_text;
pub use source::{MemSource, Source, SourceFault};
pub use spans::Span;
pub use status::Status;
pub use uimg_sums::{
    ALGOS, Algo, Bundle, Crc, Md5Sum, Sha1Sum, Sha256Sum, Sha384Sum, Sha512Sum, Summer, Sums,
    crc_entry, crc_of,
};
pub use uimg_texts::{
    FLAT_DT, MULTI, SCRIPT, arch_code, arch_text, be32_at, before_nul, comp_code, comp_text,
    first_nul, kind_code, kind_text, os_code, os_text, time_text, up4,
};
