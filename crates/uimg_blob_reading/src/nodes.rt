//! The indexed blob, and queries on it.

ghost use Rattle.std.specs.Prelude.{◌≡◌, ℕ, ◌+◌, ◌^◌, ◌<◌, ◌≤◌, length, Option, IfSome};
ghost use Rattle.std.specs.{List.slice_get, Option.option_map};
ghost use Rattle.uimg_blob_reading.specs.{Tokens.Property, Roles.{is_hash_role, is_signature_role}};
ghost use Rattle.uimg_blob_reading.specs.Kept.{span_word, value_word, entry_under};
ghost use Rattle.uimg_blob_reading.specs.Indexed.{OfRow, WhereIndexed, name_span, property_span, value_span, value_of};

use crate::entries::{END, NAME, PARENT, ROLE, VALUES, number_in, role_in};
use crate::keys::Key;
use crate::roles::Role;
use crate::slots::slot_of;
use std::alloc::Allocator;
use uimg_base::{Room, Span};

/// A devicetree blob whose nodes have entries in a room and are numbered from 0 in reading order.
///
/// Queries return exactly what is in the tree that `index` read. The room's entries must be those
/// that `index` left, and a node's number below their count. No query reads or takes memory.
#[derive(Clone, Copy, Debug, PartialEq, Eq)]
pub struct Blob {
    pub(crate) totalsize: u32,
    pub(crate) images: Option<usize>,
    pub(crate) configurations: Option<usize>,
}

fn span_in(word: u64) -> Span
    ensures { (place size : ℕ) → size < 2 ^ 32 → word ≡ span_word place size →
        result ≡ record { place = place; length = size } }
{
    Span {
        place: word / 0x1_0000_0000,
        length: word % 0x1_0000_0000,
    }
}

// 0 is none.
fn value_in(word: u64) -> Option<Span>
    ensures { (found : Option Property) →
        IfSome found (λ p. (0 < p.place) × (length p.value < 2 ^ 32)) →
        word ≡ value_word found → result ≡ option_map property_span found }
{
    if word == 0 { None } else { Some(span_in(word)) }
}

fn node_under<A: Allocator>(room: &Room<A>, number: usize, parent: u64) -> Option<usize>
    ensures under { result ≡ entry_under number parent (slice_get room.now.entries number) }
    ensures within { IfSome result (λ i. (i ≡ number) × (i < length room.now.entries)) }
{
    if number < room.count() && room.entry(number)[PARENT] == parent {
        Some(number)
    } else {
        None
    }
}

impl Blob {
    /// Returns the size of the blob in bytes, from its header.
    pub fn totalsize(&self) -> u32
        ensures { result ≡ self.now.totalsize }
    {
        self.totalsize
    }

    /// Returns the number of the root's first child `images`.
    pub fn images(&self) -> Option<usize>
        ensures { result ≡ self.now.images }
    {
        self.images
    }

    /// Returns the number of the root's first child `configurations`.
    pub fn configurations(&self) -> Option<usize>
        ensures { result ≡ self.now.configurations }
    {
        self.configurations
    }

    /// Returns the number of a node's first child, greater than the node's and below the count.
    pub fn first_child<A: Allocator>(&self, room: &Room<A>, node: usize) -> Option<usize>
        requires { node < length room.now.entries }
        ensures child { OfRow self.now room.now.entries node (λ row. result ≡ row.first_child) }
        ensures later { IfSome result (λ i. (node < i) × (i < length room.now.entries)) }
    {
        if node == room.count() - 1 {
            return None;
        }
        node_under(room, node + 1, node as u64 + 1)
    }

    /// Returns the number of the next node with the same parent. It is greater than the node's and
    /// below the count of entries.
    pub fn next_sibling<A: Allocator>(&self, room: &Room<A>, node: usize) -> Option<usize>
        requires { node < length room.now.entries }
        ensures sibling { OfRow self.now room.now.entries node (λ row. result ≡ row.next_sibling) }
        ensures later { WhereIndexed self.now room.now.entries
            (IfSome result (λ i. (node < i) × (i < length room.now.entries))) }
    {
        let entry = room.entry(node);
        node_under(room, entry[END] as usize, entry[PARENT])
    }

    /// Returns what a node is by its place in the tree.
    pub fn role<A: Allocator>(&self, room: &Room<A>, node: usize) -> Role
        requires { node < length room.now.entries }
        ensures { OfRow self.now room.now.entries node (λ row. result ≡ row.role) }
    {
        role_in(room.entry(node)[ROLE])
    }

    /// Returns the number of a node's parent, or `None` of the root.
    pub fn parent<A: Allocator>(&self, room: &Room<A>, node: usize) -> Option<usize>
        requires { node < length room.now.entries }
        ensures { OfRow self.now room.now.entries node (λ row. result ≡ row.parent) }
    {
        number_in(room.entry(node)[PARENT])
    }

    /// Returns whether a node is a hash node: a child of an image or a configuration whose name
    /// begins with `hash`.
    pub fn is_hash<A: Allocator>(&self, room: &Room<A>, node: usize) -> bool
        requires { node < length room.now.entries }
        ensures { OfRow self.now room.now.entries node (λ row. result ≡ is_hash_role row.role) }
    {
        match role_in(room.entry(node)[ROLE]) {
            Role::Hash => true,
            _ => false,
        }
    }

    /// Returns whether a node is a signature node: a child of an image or a configuration whose
    /// name begins with `signature`.
    pub fn is_signature<A: Allocator>(&self, room: &Room<A>, node: usize) -> bool
        requires { node < length room.now.entries }
        ensures { OfRow self.now room.now.entries node (λ row. result ≡ is_signature_role row.role) }
    {
        match role_in(room.entry(node)[ROLE]) {
            Role::Signature => true,
            _ => false,
        }
    }

    /// Returns the span of a node's name, without its NUL. It ends inside the blob.
    pub fn name<A: Allocator>(&self, room: &Room<A>, node: usize) -> Span
        requires { node < length room.now.entries }
        ensures name { OfRow self.now room.now.entries node (λ row. result ≡ name_span row) }
        ensures inside { WhereIndexed self.now room.now.entries
            (result.place + result.length ≤ self.now.totalsize) }
    {
        span_in(room.entry(node)[NAME])
    }

    /// Returns the span of the value of a node's first property with this key. It ends inside the
    /// blob. Returns `None` if the node has no such property, or its role keeps no value of that
    /// key.
    ///
    /// The roles keep these keys:
    /// - the root: `Description` and `Timestamp`;
    /// - an image: `Description`, `Data`, `Kind`, `Arch`, `Os`, `Compression`, `Load`, `Entry`,
    ///   `DataSize`, `DataOffset` and `DataPosition`;
    /// - a hash node: `Algo` and `Value`;
    /// - a signature node: these, `KeyName`, `Required`, `Padding` and `Timestamp`;
    /// - the node `configurations`: `Default`;
    /// - a configuration: `Description`, `Kernel`, `Ramdisk`, `Fdt`, `Loadables`, `Firmware`,
    ///   `Fpga`, `Setup`, `Standalone` and `Script`.
    pub fn value<A: Allocator>(&self, room: &Room<A>, node: usize, key: Key) -> Option<Span>
        requires { node < length room.now.entries }
        ensures value { OfRow self.now room.now.entries node
            (λ row. result ≡ option_map value_span (value_of row key)) }
        ensures inside { WhereIndexed self.now room.now.entries
            (IfSome result (λ s. s.place + s.length ≤ self.now.totalsize)) }
    {
        let entry = room.entry(node);
        let i = slot_of(role_in(entry[ROLE]), key)?;
        value_in(entry[i + VALUES])
    }
}
