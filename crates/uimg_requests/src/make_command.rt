//! What an image is made from, and how.

use uimg_fit_base::Placement;
use uimg_legacy::Options;
use uimg_texts::Naming;

/// What an image is made from.
#[derive(Drop)]
pub enum MakeCommand {
    /// A legacy image, built from files.
    Parts {
        /// The fields of its header. Its `time` is ignored.
        options: Options,

        /// The names of the files: at least one, and exactly one unless the type is multi or
        /// script.
        files: Vec<Vec<u8>>,
    },

    /// A FIT image, built from image-tree source.
    Tree {
        /// The name of the source's file.
        source: Vec<u8>,

        /// Where its payloads go.
        placement: Placement,
    },
}

/// How an image is made.
#[derive(Clone, Copy, Debug)]
pub struct Manner {
    /// The time of the build, in seconds since 1970.
    pub time: u32,

    /// The names for the listing of the image.
    pub naming: Naming,

    /// The alignment of the blob's end and of each payload's, if the payloads of a FIT image are
    /// after the blob.
    pub align: u32,
}
