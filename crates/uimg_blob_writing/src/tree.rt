//! A tree of nodes in memory.

ghost use Rattle.std.specs.Prelude.{◌≡◌};
ghost use Rattle.uimg_blob_writing.specs.Trees.{siblings};

use crate::byte_list::ByteList;
use crate::props::Props;
use std::alloc::Allocator;
use std::marker::Model;

/// A node: its name, its properties and its children.
#[cycle(node)]
#[derive(Drop)]
pub struct Node<A: Allocator> {
    pub name: ByteList<A>,
    pub props: Props<A>,
    pub children: Nodes<A>,
}

/// Nodes in order. Contracts see them as siblings, each with its descendants.
///
/// The calls that drop them nest as deep as they are.
#[cycle(node)]
#[derive(Drop)]
pub struct Nodes<A: Allocator> {
    nodes: Vec<Node<A>, A>,
}

impl<A: Allocator> Model for Nodes<A> {
    ghost use Rattle.uimg_blob_writing.specs.{Content.{Unread, count}, Coding.unread_code};

    ghost Value = { Unread };

    ghost coded = { unread_code };

    ghost use Rattle.uimg_blob_writing.specs.Trees.{siblings};

    ghost view = { λ l. siblings l.nodes.items };

    ghost size = { count };

    ghost use Rattle.uimg_blob_writing.specs.Depths.{falls};

    ghost size_decreases = { λ a h. falls A A.Allocator a.nodes.items };
}

impl<A: Allocator> Nodes<A> {
    /// Creates a list of these nodes. Takes no memory, and gives back what the `Vec` has spare.
    pub fn of(nodes: Vec<Node<A>, A>) -> Nodes<A>
        ensures { result ≡ siblings nodes.items }
    {
        let mut nodes = nodes;
        nodes.shrink_to_fit();
        Nodes { nodes }
    }

    /// Returns the nodes.
    pub fn items(&self) -> &[Node<A>]
        ensures { siblings result.now ≡ self.now }
    {
        self.nodes.as_slice()
    }

    /// Returns the nodes as a `Vec`. Takes no memory.
    pub fn into_vec(self) -> Vec<Node<A>, A>
        ensures { siblings result.items ≡ self }
    {
        let Nodes { nodes } = self;
        nodes
    }
}

/// A tree: its root, whose name has no meaning.
#[derive(Drop)]
pub struct Tree<A: Allocator> {
    pub root: Node<A>,
}
