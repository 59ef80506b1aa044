//! The roles of nodes in a FIT image.

/// What a node is by its place in the tree.
#[derive(Clone, Copy, Debug, PartialEq, Eq)]
pub enum Role {
    Root,
    Images,
    Image,
    Hash,
    Signature,
    Configurations,
    Configuration,
    Other,
}
