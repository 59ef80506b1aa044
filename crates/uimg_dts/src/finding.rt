//! Look-ups of nodes and properties, and walks over the tree.

use crate::bytes::{after, before, byte_at};
use crate::index::{CHILD, LABEL};
use crate::stop::Stop;
use crate::table::{Owner, Table};
use crate::tokens::Piece;
use std::alloc::Allocator;

/// The place of the root.
pub(crate) const ROOT: usize = 0;

/// More than a tree has levels.
const LEVELS: u8 = 65;

fn slashes_length(path: &[u8]) -> usize {
    path.iter().take_while(|b| **b == b'/').count()
}

fn part_length(path: &[u8]) -> usize {
    path.iter().take_while(|b| **b != b'/').count()
}

impl<'t, A: Allocator + Copy> Table<'t, A> {
    // Returns the first node that is not deleted, of this one and those next to it.
    fn first_live(&self, place: usize) -> Option<usize> {
        let mut found = place;
        for _ in 0..self.nodes.len() {
            let node = self.node(found)?;
            if !node.is_deleted {
                return Some(found);
            }
            found = node.next;
        }
        None
    }

    /// Returns the first child that is not deleted.
    pub(crate) fn first_child(&self, place: usize) -> Option<usize> {
        self.first_live(self.node(place)?.first_child)
    }

    /// Returns the next node with the same parent that is not deleted.
    pub(crate) fn next_child(&self, place: usize) -> Option<usize> {
        self.first_live(self.node(place)?.next)
    }

    /// Returns the node after one, of those below a node in the order of a source.
    pub(crate) fn following(&self, top: usize, place: usize) -> Option<usize> {
        if let Some(child) = self.first_child(place) {
            return Some(child);
        }
        let mut found = place;
        for _ in 0..LEVELS {
            if found == top {
                return None;
            }
            if let Some(next) = self.next_child(found) {
                return Some(next);
            }
            found = self.node(found)?.parent;
        }
        None
    }

    /// Returns the first property of a name. It may be deleted.
    pub(crate) fn property_named(&self, owner: usize, name: &[u8]) -> Option<usize> {
        let mut found = self.node(owner)?.first_property;
        for _ in 0..self.properties.len() {
            let property = self.property(found)?;
            if self.text(property.name) == name {
                return Some(found);
            }
            found = property.next;
        }
        None
    }

    pub(crate) fn live_property(&self, owner: usize, name: &[u8]) -> Option<usize> {
        let mut found = self.node(owner)?.first_property;
        for _ in 0..self.properties.len() {
            let property = self.property(found)?;
            if !property.is_deleted && self.text(property.name) == name {
                return Some(found);
            }
            found = property.next;
        }
        None
    }

    fn live_child(&mut self, parent: usize, name: &'t [u8]) -> Result<Option<usize>, Stop> {
        self.index_node(parent)?;
        let mut place = self.index.first(CHILD, parent, name);
        for _ in 0..self.nodes.len() {
            let Some(node) = self.node(place) else {
                return Ok(None);
            };
            if !node.is_deleted {
                return Ok(Some(place));
            }
            place = node.later;
        }
        Ok(None)
    }

    // A path begins with a slash.
    fn at_path(&mut self, path: &'t [u8]) -> Result<Option<usize>, Stop> {
        let mut found = ROOT;
        let mut rest = path;
        for _ in 0..path.len() {
            if rest.is_empty() {
                break;
            }
            let name = after(rest, slashes_length(rest));
            let length = part_length(name);
            let Some(child) = self.live_child(found, before(name, length))? else {
                return Ok(None);
            };
            found = child;
            rest = after(after(name, length), 1);
        }
        if self.is_live(found) {
            Ok(Some(found))
        } else {
            Ok(None)
        }
    }

    fn labelled(&self, name: &'t [u8]) -> Option<usize> {
        let mut place = self.index.first(LABEL, 0, name);
        for _ in 0..self.labels.len() {
            let label = self.labels.get(place)?;
            match label.owner {
                Owner::Node(node) if self.is_live_label(*label) => return Some(node),
                _ => place = label.later,
            }
        }
        None
    }

    /// Returns the node of a reference: a label, or a path, which begins with a slash.
    pub(crate) fn referred(&mut self, reference: Piece) -> Result<Option<usize>, Stop> {
        let text = self.text(reference);
        if text == b"/".as_slice() {
            Ok(Some(ROOT))
        } else if byte_at(text, 0) == b'/' {
            self.at_path(text)
        } else {
            Ok(self.labelled(text))
        }
    }

    pub(crate) fn level_of(&self, place: usize) -> u8 {
        match self.node(place) {
            Some(node) => node.level,
            None => 0,
        }
    }
}
