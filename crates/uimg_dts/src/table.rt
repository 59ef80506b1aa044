//! The nodes, properties and labels of a source, in tables.
//!
//! Each names others by their places in the tables, and a place that is none is `NONE`. `left` is
//! how many bytes of the text remain at the word that gave an entry.

use crate::index::{CHILD, Index, PROPERTY};
use crate::stop::{Stop, out_of_memory};
use crate::tokens::{NOTHING, Piece};
use std::alloc::Allocator;
use std::collections::BTreeSet;

/// No place in a table.
pub(crate) const NONE: usize = usize::MAX;

/// A node. Its children and its properties are lists from a first to a last, each with the next.
#[derive(Clone, Copy)]
pub(crate) struct NodeEntry {
    pub(crate) name: Piece,
    pub(crate) left: usize,
    pub(crate) parent: usize,
    pub(crate) next: usize,
    pub(crate) first_child: usize,
    pub(crate) last_child: usize,
    pub(crate) first_property: usize,
    pub(crate) last_property: usize,
    /// From 1, that of the root.
    pub(crate) level: u8,
    pub(crate) is_deleted: bool,
    /// It is deleted at the end if nothing refers to it.
    pub(crate) is_optional: bool,
    pub(crate) is_referenced: bool,
    /// The number by which other nodes name it, or zero.
    pub(crate) phandle: u32,
    /// The node that it was merged into.
    pub(crate) merged: usize,
    /// Whether the index has its children and properties.
    pub(crate) is_indexed: bool,
    /// The next child of the same parent that has the same name, if they were looked for.
    pub(crate) later: usize,
}

/// A property. A value that is a file is the file's name.
#[derive(Clone, Copy)]
pub(crate) struct PropertyEntry {
    pub(crate) name: Piece,
    pub(crate) left: usize,
    pub(crate) node: usize,
    pub(crate) next: usize,
    pub(crate) value: Piece,
    /// Its part of the marks.
    pub(crate) marks: Piece,
    pub(crate) is_file: bool,
    pub(crate) is_deleted: bool,
}

/// What a label names.
#[derive(Clone, Copy, PartialEq)]
pub(crate) enum Owner {
    Node(usize),
    Property(usize),
}

/// A label.
#[derive(Clone, Copy)]
pub(crate) struct LabelEntry {
    pub(crate) name: Piece,
    pub(crate) left: usize,
    pub(crate) owner: Owner,
    pub(crate) is_deleted: bool,
    /// The next label of the same owner.
    pub(crate) next: usize,
    /// The next label of a node that has the same name.
    pub(crate) later: usize,
}

/// What a mark in a value is.
#[derive(Clone, Copy, PartialEq)]
pub(crate) enum MarkKind {
    Label,
    /// Four bytes that become a node's number.
    Phandle,
    /// Where a node's path is put.
    Path,
}

/// A mark in a value, with its offset there.
#[derive(Clone, Copy)]
pub(crate) struct MarkEntry {
    pub(crate) kind: MarkKind,
    pub(crate) offset: usize,
    pub(crate) name: Piece,
    pub(crate) left: usize,
    /// The node that a reference means, once it is resolved.
    pub(crate) node: usize,
}

/// All of a source. `bytes` are those of its words.
#[derive(Drop)]
pub(crate) struct Table<'t, A: Allocator> {
    pub(crate) alloc: A,
    pub(crate) bytes: &'t [u8],
    pub(crate) nodes: Vec<NodeEntry, A>,
    pub(crate) properties: Vec<PropertyEntry, A>,
    pub(crate) labels: Vec<LabelEntry, A>,
    pub(crate) marks: Vec<MarkEntry, A>,
    pub(crate) values: Vec<u8, A>,
    pub(crate) index: Index<'t, A>,
    /// The numbers of nodes.
    pub(crate) numbers: BTreeSet<u32, A>,
}

impl<'t, A: Allocator + Copy> Table<'t, A> {
    pub(crate) fn new(alloc: A, bytes: &'t [u8]) -> Table<'t, A> {
        Table {
            alloc,
            bytes,
            nodes: Vec::new(alloc),
            properties: Vec::new(alloc),
            labels: Vec::new(alloc),
            marks: Vec::new(alloc),
            values: Vec::new(alloc),
            index: Index::new(alloc),
            numbers: BTreeSet::new(alloc),
        }
    }

    pub(crate) fn text(&self, piece: Piece) -> &'t [u8] {
        self.bytes.get(piece.start..piece.end).unwrap_or(&[])
    }

    pub(crate) fn value(&self, piece: Piece) -> &[u8] {
        self.values.get(piece.start..piece.end).unwrap_or(&[])
    }

    pub(crate) fn node(&self, place: usize) -> Option<NodeEntry> {
        self.nodes.get(place).copied()
    }

    pub(crate) fn property(&self, place: usize) -> Option<PropertyEntry> {
        self.properties.get(place).copied()
    }

    /// Returns whether a node exists and is not deleted.
    pub(crate) fn is_live(&self, place: usize) -> bool {
        match self.nodes.get(place) {
            Some(node) => !node.is_deleted,
            None => false,
        }
    }

    /// Adds bytes to the last value.
    pub(crate) fn append(&mut self, bytes: &[u8], left: usize) -> Result<(), Stop> {
        match self.values.extend_from_slice(bytes) {
            Ok(()) => Ok(()),
            Err(_) => Err(out_of_memory(left)),
        }
    }

    /// Adds a mark at the end of the last value, which begins at a place.
    pub(crate) fn add_mark(
        &mut self,
        kind: MarkKind,
        name: Piece,
        start: usize,
        left: usize,
    ) -> Result<(), Stop> {
        let offset = self.values.len().saturating_sub(start);
        let mark = MarkEntry {
            kind,
            offset,
            name,
            left,
            node: NONE,
        };
        match self.marks.push(mark) {
            Ok(()) => Ok(()),
            Err(_) => Err(out_of_memory(left)),
        }
    }

    /// Adds a node below none. Returns its place.
    pub(crate) fn add_node(&mut self, name: Piece, level: u8, left: usize) -> Result<usize, Stop> {
        let place = self.nodes.len();
        let node = NodeEntry {
            name,
            left,
            parent: NONE,
            next: NONE,
            first_child: NONE,
            last_child: NONE,
            first_property: NONE,
            last_property: NONE,
            level,
            is_deleted: false,
            is_optional: false,
            is_referenced: false,
            phandle: 0,
            merged: NONE,
            is_indexed: false,
            later: NONE,
        };
        match self.nodes.push(node) {
            Ok(()) => Ok(place),
            Err(_) => Err(out_of_memory(left)),
        }
    }

    /// Adds a property without a value to none. Returns its place.
    pub(crate) fn add_property(&mut self, name: Piece, left: usize) -> Result<usize, Stop> {
        let place = self.properties.len();
        let property = PropertyEntry {
            name,
            left,
            node: NONE,
            next: NONE,
            value: NOTHING,
            marks: NOTHING,
            is_file: false,
            is_deleted: false,
        };
        match self.properties.push(property) {
            Ok(()) => Ok(place),
            Err(_) => Err(out_of_memory(left)),
        }
    }

    pub(crate) fn append_child(&mut self, parent: usize, child: usize) -> Result<(), Stop> {
        let mut last = NONE;
        let mut is_indexed = false;
        if let Some(node) = self.nodes.get_mut(parent) {
            is_indexed = node.is_indexed;
            last = node.last_child;
            node.last_child = child;
            if last == NONE {
                node.first_child = child;
            }
        }
        if let Some(node) = self.nodes.get_mut(last) {
            node.next = child;
        }
        if let Some(node) = self.nodes.get_mut(child) {
            node.parent = parent;
            node.next = NONE;
        }
        if is_indexed {
            self.index_child(parent, child)
        } else {
            Ok(())
        }
    }

    pub(crate) fn append_property(&mut self, owner: usize, place: usize) -> Result<(), Stop> {
        let mut last = NONE;
        let mut is_indexed = false;
        if let Some(node) = self.nodes.get_mut(owner) {
            is_indexed = node.is_indexed;
            last = node.last_property;
            node.last_property = place;
            if last == NONE {
                node.first_property = place;
            }
        }
        if let Some(property) = self.properties.get_mut(last) {
            property.next = place;
        }
        if let Some(property) = self.properties.get_mut(place) {
            property.node = owner;
            property.next = NONE;
        }
        if is_indexed {
            self.index_property(owner, place)
        } else {
            Ok(())
        }
    }

    fn index_child(&mut self, parent: usize, child: usize) -> Result<(), Stop> {
        let Some(node) = self.node(child) else {
            return Ok(());
        };
        let text = self.text(node.name);
        let before = self.index.add(CHILD, parent, text, child)?;
        if let Some(node) = self.nodes.get_mut(before) {
            node.later = child;
        }
        Ok(())
    }

    fn index_property(&mut self, owner: usize, place: usize) -> Result<(), Stop> {
        let Some(property) = self.property(place) else {
            return Ok(());
        };
        let text = self.text(property.name);
        self.index.add(PROPERTY, owner, text, place)?;
        Ok(())
    }

    /// Makes the children and properties of a node known by their names. Those that are appended
    /// later are so too.
    pub(crate) fn index_node(&mut self, place: usize) -> Result<(), Stop> {
        let Some(node) = self.node(place) else {
            return Ok(());
        };
        if node.is_indexed {
            return Ok(());
        }
        let mut child = node.first_child;
        for _ in 0..self.nodes.len() {
            let Some(found) = self.node(child) else {
                break;
            };
            self.index_child(place, child)?;
            child = found.next;
        }
        let mut property = node.first_property;
        for _ in 0..self.properties.len() {
            let Some(found) = self.property(property) else {
                break;
            };
            self.index_property(place, property)?;
            property = found.next;
        }
        if let Some(node) = self.nodes.get_mut(place) {
            node.is_indexed = true;
        }
        Ok(())
    }
}
