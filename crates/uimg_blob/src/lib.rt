//! Devicetree blobs: reading, trees in memory, and writing.
#![tactic(auto)]

pub use uimg_blob_reading::{
    Blob, BlobFault, IndexFault, Key, index, put_text, samples, short_text,
};
pub use uimg_blob_writing::{
    ByteList, Layout, Node, Nodes, Prop, Props, Tree, TreeFault, Value, measure, write_tree,
};
