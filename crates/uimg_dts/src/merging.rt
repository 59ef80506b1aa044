//! Merging of nodes that are given again, and deletion.

use crate::finding::ROOT;
use crate::index::{CHILD, PROPERTY};
use crate::stop::Stop;
use crate::table::{NONE, NodeEntry, Owner, PropertyEntry, Table};
use crate::tokens::Piece;
use std::alloc::Allocator;

/// The most levels of a tree.
const MOST_LEVELS: u8 = 64;

impl<'t, A: Allocator + Copy> Table<'t, A> {
    pub(crate) fn delete_property(&mut self, place: usize) {
        if let Some(property) = self.properties.get_mut(place) {
            property.is_deleted = true;
        }
        self.delete_labels(Owner::Property(place));
    }

    // Deletes a node with its properties and labels.
    fn delete_one(&mut self, place: usize) {
        let mut property = NONE;
        if let Some(node) = self.nodes.get_mut(place) {
            node.is_deleted = true;
            property = node.first_property;
        }
        for _ in 0..self.properties.len() {
            let Some(found) = self.property(property) else {
                break;
            };
            self.delete_property(property);
            property = found.next;
        }
        self.delete_labels(Owner::Node(place));
    }

    fn delete_levels(&mut self, levels: u8, top: usize) {
        let Some(node) = self.node(top) else {
            return;
        };
        if levels == 0 {
            return;
        }
        self.delete_one(top);
        let mut place = node.first_child;
        for _ in 0..self.nodes.len() {
            let Some(found) = self.node(place) else {
                return;
            };
            if !found.is_deleted {
                self.delete_levels(levels - 1, place);
            }
            place = found.next;
        }
    }

    pub(crate) fn delete_node(&mut self, top: usize) {
        self.delete_levels(MOST_LEVELS, top);
    }

    fn replace(&mut self, place: usize, by: PropertyEntry) {
        if let Some(property) = self.properties.get_mut(place) {
            property.left = by.left;
            property.value = by.value;
            property.marks = by.marks;
            property.is_file = by.is_file;
            property.is_deleted = false;
        }
    }

    fn merge_property(
        &mut self,
        node: usize,
        place: usize,
        new: PropertyEntry,
    ) -> Result<(), Stop> {
        match self.index.first(PROPERTY, node, self.text(new.name)) {
            NONE if new.is_deleted => {}
            NONE => self.append_property(node, place)?,
            old if new.is_deleted => self.delete_property(old),
            old => {
                self.move_labels(Owner::Property(place), Owner::Property(old))?;
                self.replace(old, new);
            }
        }
        Ok(())
    }

    // Leaves out the children.
    fn merge_one(&mut self, old: usize, new: usize) -> Result<(), Stop> {
        let mut property = NONE;
        if let Some(node) = self.nodes.get_mut(new) {
            node.merged = old;
            node.is_deleted = true;
            property = node.first_property;
        }
        if let Some(node) = self.nodes.get_mut(old) {
            node.is_deleted = false;
        }
        self.move_labels(Owner::Node(new), Owner::Node(old))?;
        self.index_node(old)?;
        for _ in 0..self.properties.len() {
            let Some(found) = self.property(property) else {
                break;
            };
            self.merge_property(old, property, found)?;
            property = found.next;
        }
        Ok(())
    }

    // Merges a node of a definition into the child of this name, or adds it as a child.
    fn merge_child(&mut self, parent: usize, place: usize, new: NodeEntry) -> Result<(), Stop> {
        self.index_node(parent)?;
        match self.index.first(CHILD, parent, self.text(new.name)) {
            NONE if new.is_deleted => {}
            NONE => self.append_child(parent, place)?,
            old if new.is_deleted => self.delete_node(old),
            old => self.merge_one(old, place)?,
        }
        Ok(())
    }

    // Merges a node of a definition below the node that its parent was merged into, if it was.
    fn merge_below(&mut self, place: usize) -> Result<(), Stop> {
        let Some(node) = self.node(place) else {
            return Ok(());
        };
        let Some(parent) = self.node(node.parent) else {
            return Ok(());
        };
        if parent.merged == NONE {
            return Ok(());
        }
        self.merge_child(parent.merged, place, node)
    }

    /// Merges a definition into a node. The definition is the last in the table, from its place on,
    /// each node after the one that it is in.
    pub(crate) fn merge(&mut self, old: usize, new: usize) -> Result<(), Stop> {
        self.merge_one(old, new)?;
        for place in new.saturating_add(1)..self.nodes.len() {
            self.merge_below(place)?;
        }
        Ok(())
    }

    /// Adds the root of a definition, on the level of the node that it is merged into.
    pub(crate) fn add_definition(
        &mut self,
        name: Piece,
        into: usize,
        left: usize,
    ) -> Result<usize, Stop> {
        let level = if into == ROOT { 1 } else { self.level_of(into) };
        self.add_node(name, level, left)
    }
}
