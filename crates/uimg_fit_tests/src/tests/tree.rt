//! Blobs, trees, and image-tree source.

mod bytes;
mod device_rows;
mod growth;
mod header_rows;
mod index_rows;
mod large_rows;
mod made;
mod name_rows;
mod node_rows;
mod property_rows;
mod refused_rows;
mod reservation_rows;
mod sample_rows;
mod size_rows;
mod source_rows;
mod sources;
mod text_rows;
mod tree_rows;
mod trees;
mod write_rows;
