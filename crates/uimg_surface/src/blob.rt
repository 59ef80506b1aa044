//! The calls of `uimg_blob`: devicetree blobs (Devicetree Specification, chapter 5).

ghost use Rattle.std.specs.Prelude.{◌≡◌, ◌≢◌, ℕ, ◌+◌, ◌<◌, ◌≤◌, List, [], length, map, Option, false};
ghost use Rattle.std.specs.Prelude.{is_err, Err, IfOk, OnOk, IfSome};
ghost use Rattle.std.specs.Option.{option_map};
ghost use Rattle.uimg_texts.specs.{Nul.text, Numbers.be32, Slices.slice};
ghost use Rattle.uimg_base.specs.{Honest.HonestSource, Device.RisesIf};
ghost use Rattle.uimg_base.specs.Ranges as ranges;
ghost use Rattle.uimg_base.specs.{Using.{Asks, UsesWithin}, Writing.Written};
ghost use Rattle.uimg_blob_reading.specs.Counts.{index_cost, nodes_met};
ghost use Rattle.uimg_blob_reading.specs.Faults.{is_read, is_out_of_memory, is_of_making};
ghost use Rattle.uimg_blob_reading.specs.Indexed.{Finds, KeepsWithin, TakesNodes, IndexesTree, LeavesPrefix, LeavesSoFar};
ghost use Rattle.uimg_blob_reading.specs.Indexed.{OfRow, WhereIndexed, name_span, value_span, value_of};
ghost use Rattle.uimg_blob_reading.specs.{Texts.GivesShort, Plain.AreNamed};
ghost use Rattle.uimg_blob_reading.specs.declared.fault.BlobFault.TheVariants.{OutOfMemory};
ghost use Rattle.uimg_blob_writing.specs.{Content.{in_full, AreKept}, Encoding.{names_of, encode}};
ghost use Rattle.uimg_blob_writing.specs.{Layouts.{plan_with, totalsize}, Measured.{measured, Measures}};
ghost use Rattle.uimg_blob_writing.specs.{Properties.property, Trees.{node_of, siblings}};
ghost use Rattle.uimg_blob_writing.specs.TreeWriting.{WritesTree};

use std::alloc::Allocator;
use std::io::Write;
use uimg_base::{Files, MoveFault, Out, Room, Source, SourceFault, Span};
use uimg_blob::{
    Blob, BlobFault, ByteList, IndexFault, Key, Layout, Node, Nodes, Prop, Props, Tree, TreeFault,
};

// Reading.

/// Indexes the blob of a source: clears the room, then adds one entry for each node, in reading
/// order. No value is read.
///
/// Over an honest source the entries are those of `tree`, or those of the nodes before the refusal.
/// Whatever the source returns, at `Ok` each name and value ends inside it. At most 44 bytes are
/// requested, 264 for each node met, 268 for each property and 4 for each NOP.
///
/// Returns the first fault of `tree`, with its offset from the start of the file.
///
/// - `TooShort`, `BadMagic`, `BadVersion`, `BlockOutside`: the header is refused.
/// - `BadToken`, `Truncated`, `BadNodeName`, `BadNesting`, `BadPropertyName`: a token is refused.
/// - `OutOfMemory`: if and only if the room refused to grow; the offset is that of the node that
///   got no entry.
/// - `Read`: if and only if a read failed.
pub fn index<S: Source, A: Allocator>(
    source: &mut S,
    room: &mut Room<A>,
) -> Result<Blob, IndexFault>
    ensures indexes { IndexesTree (S.device source.old) result room.new.entries }
    ensures found { IfOk result (λ blob. Finds (S.device source.old) blob room.new.entries) }
    ensures totalsize { HonestSource S.device source →
        IfOk result (λ blob. blob.totalsize ≡ be32 (S.device source.old).bytes 4) }
    ensures prefix { LeavesPrefix (S.device source.old) result room.new.entries }
    ensures so_far { LeavesSoFar (S.device source.old) result room.new.entries }
    ensures nodes { KeepsWithin nodes_met (S.device source.old) room.new }
    ensures uses { UsesWithin index_cost (is_read result) S.device source }
    ensures room { TakesNodes (S.device source.old) (is_out_of_memory result) room.old room.new }
    ensures no_making { is_of_making result ≡ false }
{
    uimg_blob::index(source, room)
}

/// Returns the size of a blob in bytes, from its header.
pub fn totalsize(blob: &Blob) -> u32
    ensures { result ≡ blob.now.totalsize }
{
    blob.totalsize()
}

/// Returns the number of the root's first child `images`.
pub fn images(blob: &Blob) -> Option<usize>
    ensures { result ≡ blob.now.images }
{
    blob.images()
}

/// Returns the number of the root's first child `configurations`.
pub fn configurations(blob: &Blob) -> Option<usize>
    ensures { result ≡ blob.now.configurations }
{
    blob.configurations()
}

/// Returns the number of a node's first child. Over any source it is greater than the node's and
/// below the count of entries.
pub fn first_child<A: Allocator>(blob: &Blob, room: &Room<A>, node: usize) -> Option<usize>
    requires { node < length room.now.entries }
    ensures child { OfRow blob.now room.now.entries node (λ row. result ≡ row.first_child) }
    ensures later { IfSome result (λ i. (node < i) × (i < length room.now.entries)) }
{
    blob.first_child(room, node)
}

/// Returns the number of the next node with the same parent. Over any source it is greater than the
/// node's and below the count of entries.
pub fn next_sibling<A: Allocator>(blob: &Blob, room: &Room<A>, node: usize) -> Option<usize>
    requires { node < length room.now.entries }
    ensures sibling { OfRow blob.now room.now.entries node (λ row. result ≡ row.next_sibling) }
    ensures later { WhereIndexed blob.now room.now.entries
        (IfSome result (λ i. (node < i) × (i < length room.now.entries))) }
{
    blob.next_sibling(room, node)
}

/// Returns the span of a node's name, without its NUL. It ends inside the blob.
pub fn name<A: Allocator>(blob: &Blob, room: &Room<A>, node: usize) -> Span
    requires { node < length room.now.entries }
    ensures name { OfRow blob.now room.now.entries node (λ row. result ≡ name_span row) }
    ensures inside { WhereIndexed blob.now room.now.entries
        (result.place + result.length ≤ blob.now.totalsize) }
{
    blob.name(room, node)
}

/// Returns the span of the value of a node's first property with this key, or `None` if there is
/// none or the node's role does not keep the key. It ends inside the blob.
pub fn value<A: Allocator>(blob: &Blob, room: &Room<A>, node: usize, key: Key) -> Option<Span>
    requires { node < length room.now.entries }
    ensures value { OfRow blob.now room.now.entries node
        (λ row. result ≡ option_map value_span (value_of row key)) }
    ensures inside { WhereIndexed blob.now room.now.entries
        (IfSome result (λ s. s.place + s.length ≤ blob.now.totalsize)) }
{
    blob.value(room, node, key)
}

/// Writes the text of a value: its bytes up to the first NUL, or all of them. The span must be
/// inside the source; at most its bytes are requested.
///
/// Over an honest source a prefix of the text was written at every exit.
///
/// - `MoveFault::Read`: if and only if a read failed.
/// - `MoveFault::Put`: if and only if a write failed.
pub fn put_text<S: Source, A: Allocator, W: Write>(
    source: &mut S,
    room: &mut Room<A>,
    span: Span,
    out: &mut Out<W>,
) -> Result<(), MoveFault>
    requires { span.place + span.length ≤ length (S.device source.old).bytes }
    ensures told { HonestSource S.device source → Written (is_err result) out.old out.new
        (text (slice (S.device source.old).bytes span.place span.length)) }
    ensures uses { Asks span.length (ranges.is_read result)
        (S.device source.old) (S.device source.new) }
    ensures faults { RisesIf (ranges.is_put result) out.old.faults out.new.faults }
    ensures room { room.new ≡ room.old }
{
    uimg_blob::put_text(source, room, span, out)
}

/// Reads a value's text of at most 31 bytes to the start of `to`. Returns its length, or `None` if
/// it is longer. The span must be inside the source; at most its bytes are requested.
///
/// Returns `SourceFault` if and only if a read failed.
pub fn short_text<S: Source>(
    source: &mut S,
    span: Span,
    to: &mut [u8; 32],
) -> Result<Option<usize>, SourceFault>
    requires { span.place + span.length ≤ length (S.device source.old).bytes }
    ensures text { HonestSource S.device source → IfOk result (λ found. GivesShort
        (text (slice (S.device source.old).bytes span.place span.length)) found to.new) }
    ensures bound { IfOk result (λ found. IfSome found (λ n. n ≤ 31)) }
    ensures uses { Asks span.length (is_err result) (S.device source.old) (S.device source.new) }
{
    uimg_blob::short_text(source, span, to)
}

// Trees in memory.

/// Creates a list of bytes from a `Vec`. Takes no memory.
pub fn bytes_of<A: Allocator>(bytes: Vec<u8, A>) -> ByteList<A>
    ensures { result ≡ bytes.items }
{
    ByteList::of(bytes)
}

/// Returns the bytes of a list.
pub fn bytes_in<A: Allocator>(list: &ByteList<A>) -> &[u8]
    ensures { result.now ≡ list.now }
{
    list.items()
}

/// Returns a list of bytes as a `Vec`. Takes no memory.
pub fn bytes_from<A: Allocator>(list: ByteList<A>) -> Vec<u8, A>
    ensures { result.items ≡ list }
{
    list.into_vec()
}

/// Creates a list of properties from a `Vec`. Takes no memory.
pub fn props_of<A: Allocator>(props: Vec<Prop<A>, A>) -> Props<A>
    ensures { result ≡ map property props.items }
{
    Props::of(props)
}

/// Returns the properties of a list.
pub fn props_in<A: Allocator>(list: &Props<A>) -> &[Prop<A>]
    ensures { map property result.now ≡ list.now }
{
    list.items()
}

/// Returns a list of properties as a `Vec`. Takes no memory.
pub fn props_from<A: Allocator>(list: Props<A>) -> Vec<Prop<A>, A>
    ensures { map property result.items ≡ list }
{
    list.into_vec()
}

/// Creates a list of nodes from a `Vec`. Takes no memory.
pub fn nodes_of<A: Allocator>(nodes: Vec<Node<A>, A>) -> Nodes<A>
    ensures { result ≡ siblings nodes.items }
{
    Nodes::of(nodes)
}

/// Returns the nodes of a list.
pub fn nodes_in<A: Allocator>(list: &Nodes<A>) -> &[Node<A>]
    ensures { siblings result.now ≡ list.now }
{
    list.items()
}

/// Returns a list of nodes as a `Vec`. Takes no memory.
pub fn nodes_from<A: Allocator>(list: Nodes<A>) -> Vec<Node<A>, A>
    ensures { siblings result.items ≡ list }
{
    list.into_vec()
}

// Writing.

/// Measures the blob of a tree: the names of its properties and the sizes of its blocks. Takes
/// memory for the names only.
///
/// - `BadNodeName`, `BadPropertyName`: for the first name, in the order of writing, with more than
///   255 bytes or a NUL.
/// - `TooLarge`: no name is bad, and the blob has more than 4294967295 bytes.
/// - `OutOfMemory`: memory for the names was refused.
pub fn measure<'a, A: Allocator>(alloc: A, tree: &'a Tree<A>) -> Result<Layout<'a, A>, BlobFault>
    ensures measured { Measures result (measured (node_of tree.now.root)) }
    ensures memory { result ≡ Err OutOfMemory → names_of (node_of tree.now.root) ≢ [] }
    ensures named { OnOk result (AreNamed (node_of tree.now.root)) }
    ensures sized { IfOk result (λ layout. (files : List ℕ → Option (List ℕ)) →
        AreKept files (node_of tree.now.root) →
        length (encode (in_full files (node_of tree.now.root))) ≡ totalsize layout) }
{
    uimg_blob::measure(alloc, tree)
}

/// Returns the size of the blob in bytes, with the stored size of each file.
pub fn layout_size<A: Allocator>(layout: &Layout<'_, A>) -> u32
    ensures { result ≡ totalsize layout.now }
{
    layout.totalsize()
}

/// Writes the blob of a tree. The layout must be the tree's own.
///
/// Over honest files of the stored sizes the bytes are those of `encode_with`, or at a fault a
/// prefix of them. They read back as the tree. Takes no memory.
///
/// - `Put`: if and only if a write failed.
/// - `NoFile`: if and only if an open was refused.
/// - `Read`: a read of a file failed, or its size is not the one that the tree stores.
pub fn write_tree<F: Files, W: Write, A: Allocator>(
    tree: &Tree<A>,
    layout: &Layout<'_, A>,
    files: &mut F,
    out: &mut Out<W>,
) -> Result<(), TreeFault>
    requires { layout.now ≡ plan_with layout.now.ending layout.now.reservations (node_of tree.now.root) }
    ensures { WritesTree F.Opened.steady F.map layout.now.ending layout.now.reservations
        (node_of tree.now.root) result files out }
{
    uimg_blob::write_tree(tree, layout, files, out)
}
