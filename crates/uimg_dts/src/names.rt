//! What the names of a tree must be.

use crate::bytes::after;
use crate::fault::Refusal;
use crate::index::{CHILD, Index, PROPERTY};
use crate::stop::{Stop, at, out_of_memory};
use crate::table::{MarkKind, NONE, NodeEntry, Table};
use crate::tokens::Piece;
use std::alloc::Allocator;
use std::collections::BTreeMap;

// Returns how many bytes of a node's name are before its unit address.
fn base_length(name: &[u8]) -> usize {
    name.iter().take_while(|b| **b != b'@').count()
}

fn is_node_byte(b: u8) -> bool {
    b.is_ascii_alphabetic()
        || b.is_ascii_digit()
        || matches!(b, b',' | b'.' | b'_' | b'+' | b'-' | b'@')
}

// A label's name, and how many bytes of the text remain there.
#[derive(Clone, Copy)]
struct Labelled {
    name: Piece,
    left: usize,
}

fn add_name<A: Allocator>(
    names: &mut Vec<Labelled, A>,
    name: Piece,
    left: usize,
) -> Result<(), Stop> {
    match names.push(Labelled { name, left }) {
        Ok(()) => Ok(()),
        Err(_) => Err(out_of_memory(left)),
    }
}

// Returns how many bytes of the text remain at the first two labels of a name, with one more.
fn with_label(both: (usize, Option<usize>), left: usize) -> (usize, Option<usize>) {
    let (first, second) = both;
    if first >= left {
        (first, Some(usize::max(second.unwrap_or(0), left)))
    } else {
        (left, Some(first))
    }
}

// Returns the earlier of what was found and of what is at a place, unless there is none.
fn earlier(found: Option<(usize, usize)>, place: usize, left: usize) -> Option<(usize, usize)> {
    match found {
        _ if place == NONE => found,
        Some((before, _)) if before <= place => found,
        _ => Some((place, left)),
    }
}

// Returns whether bytes are one string: a NUL ends them, and they have no other.
fn is_string(bytes: &[u8]) -> bool {
    let length = bytes.iter().take_while(|b| **b != 0).count();
    !bytes.is_empty() && length.saturating_add(1) == bytes.len()
}

impl<'t, A: Allocator + Copy> Table<'t, A> {
    // Links the children of a node, deleted or not, that have one name.
    fn link_children(&mut self, first: usize) -> Result<(), Stop> {
        let mut names = Index::new(self.alloc);
        let mut place = first;
        for _ in 0..self.nodes.len() {
            let Some(child) = self.node(place) else {
                break;
            };
            let before = names.add(CHILD, 0, self.text(child.name), place)?;
            if let Some(node) = self.nodes.get_mut(before) {
                node.later = place;
            }
            place = child.next;
        }
        Ok(())
    }

    // Returns how many properties are before the first one whose name a later one has, and how many
    // bytes of the text remain at the later one. Neither is deleted.
    fn repeated(&self, first: usize) -> Result<Option<(usize, usize)>, Stop> {
        let mut names = Index::new(self.alloc);
        let mut found = None;
        let mut place = first;
        for i in 0..self.properties.len() {
            let Some(property) = self.property(place) else {
                break;
            };
            if !property.is_deleted {
                let name = self.text(property.name);
                let known = names.first(PROPERTY, 0, name);
                names.add(PROPERTY, 0, name, i)?;
                found = earlier(found, known, property.left);
            }
            place = property.next;
        }
        Ok(found)
    }

    // Refuses a property of the name of a later one, or with an `@` in it, in order.
    fn check_properties(&self, first: usize) -> Result<(), Stop> {
        let repeated = self.repeated(first)?;
        let mut place = first;
        for i in 0..self.properties.len() {
            let Some(found) = self.property(place) else {
                return Ok(());
            };
            match repeated {
                Some((before, left)) if before == i => return Err(at(Refusal::Duplicate, left)),
                _ => {}
            }
            let name = self.text(found.name);
            if !found.is_deleted && base_length(name) < name.len() {
                return Err(at(Refusal::BadName, found.left));
            }
            place = found.next;
        }
        Ok(())
    }

    // Refuses a node of the name of a later one, with two unit addresses, or with other bytes.
    fn check_name(&self, node: NodeEntry) -> Result<(), Stop> {
        if let Some(later) = self.node(node.later) {
            return Err(at(Refusal::Duplicate, later.left));
        }
        let text = self.text(node.name);
        let unit = after(text, base_length(text).saturating_add(1));
        if base_length(unit) < unit.len() || !text.iter().all(|b| is_node_byte(*b)) {
            return Err(at(Refusal::BadName, node.left));
        }
        Ok(())
    }

    // Deletes a property `name` that is the node's name, and refuses another. Of several the first
    // counts, deleted or not.
    fn check_name_property(&mut self, place: usize, name: Piece) -> Result<(), Stop> {
        if let Some(live) = self.live_property(place, b"name") {
            let Some(found) = self.property(live) else {
                return Ok(());
            };
            if !is_string(self.value(found.value)) {
                return Err(at(Refusal::BadName, found.left));
            }
        }
        let Some(first) = self.property_named(place, b"name") else {
            return Ok(());
        };
        let Some(found) = self.property(first) else {
            return Ok(());
        };
        let node = self.text(name);
        let base = node.get(..base_length(node)).unwrap_or(&[]);
        let value = self.value(found.value);
        if value.len() != base.len().saturating_add(1) || !value.starts_with(base) {
            return Err(at(Refusal::BadName, found.left));
        }
        self.delete_property(first);
        Ok(())
    }

    /// Deletes properties `name` that are names of their nodes. `order` are the nodes of the tree.
    pub(crate) fn check_names(&mut self, order: &[usize]) -> Result<(), Stop> {
        for place in order {
            let Some(node) = self.node(*place) else {
                return Ok(());
            };
            self.check_name(node)?;
            self.link_children(node.first_child)?;
            self.check_properties(node.first_property)?;
            self.check_name_property(*place, node.name)?;
        }
        Ok(())
    }

    fn add_marks(&self, names: &mut Vec<Labelled, A>, marks: Piece) -> Result<(), Stop> {
        for i in marks.start..marks.end {
            match self.marks.get(i) {
                Some(mark) if mark.kind == MarkKind::Label => add_name(
                    names, mark.name, mark.left,
                )?,
                _ => {}
            }
        }
        Ok(())
    }

    fn label_names(&self) -> Result<Vec<Labelled, A>, Stop> {
        let mut names = Vec::new(self.alloc);
        for label in self.labels.as_slice() {
            if self.is_live_label(*label) {
                add_name(&mut names, label.name, label.left)?;
            }
        }
        for property in self.properties.as_slice() {
            if !property.is_deleted && self.is_live(property.node) {
                self.add_marks(&mut names, property.marks)?;
            }
        }
        Ok(names)
    }

    /// Refuses a label that names two things, at the second of them in the text.
    pub(crate) fn check_labels(&self) -> Result<(), Stop> {
        let names = self.label_names()?;
        let mut first_two = BTreeMap::new(self.alloc);
        for label in names.as_slice() {
            let name = self.text(label.name);
            let both = match first_two.get(&name) {
                Some(both) => with_label(*both, label.left),
                None => (label.left, None),
            };
            if first_two.insert(name, both).is_err() {
                return Err(out_of_memory(0));
            }
        }
        for label in names.as_slice() {
            match first_two.get(&self.text(label.name)) {
                Some((_, Some(left))) => return Err(at(Refusal::Duplicate, *left)),
                _ => {}
            }
        }
        Ok(())
    }
}
