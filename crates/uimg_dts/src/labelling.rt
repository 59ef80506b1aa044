//! Labels of nodes and properties.

use crate::index::{LABEL, LABEL_OF_NODE, LABEL_OF_PROPERTY};
use crate::stop::{Stop, out_of_memory};
use crate::table::{LabelEntry, NONE, Owner, Table};
use crate::tokens::Piece;
use std::alloc::Allocator;

// What the names of an owner's labels are of, and its place. Those have no empty name, by which the
// first and the last of them are known.
fn key_of(owner: Owner) -> (u8, usize) {
    match owner {
        Owner::Node(place) => (LABEL_OF_NODE, place),
        Owner::Property(place) => (LABEL_OF_PROPERTY, place),
    }
}

impl<'t, A: Allocator + Copy> Table<'t, A> {
    /// Adds a label, unless what it names has it. A deleted label is restored.
    pub(crate) fn add_label(&mut self, name: Piece, owner: Owner, left: usize) -> Result<(), Stop> {
        let text = self.text(name);
        let (kind, of) = key_of(owner);
        let found = self.index.first(kind, of, text);
        if let Some(label) = self.labels.get_mut(found) {
            label.is_deleted = false;
            return Ok(());
        }
        let place = self.labels.len();
        let label = LabelEntry {
            name,
            left,
            owner,
            is_deleted: false,
            next: NONE,
            later: NONE,
        };
        if self.labels.push(label).is_err() {
            return Err(out_of_memory(left));
        }
        self.index.add(kind, of, text, place)?;
        let last = self.index.add(kind, of, &[], place)?;
        if let Some(label) = self.labels.get_mut(last) {
            label.next = place;
        }
        if kind == LABEL_OF_NODE {
            let before = self.index.add(LABEL, 0, text, place)?;
            if let Some(label) = self.labels.get_mut(before) {
                label.later = place;
            }
        }
        Ok(())
    }

    /// Adds the labels of one thing, deleted or not, to another.
    pub(crate) fn move_labels(&mut self, from: Owner, to: Owner) -> Result<(), Stop> {
        let (kind, of) = key_of(from);
        let mut place = self.index.first(kind, of, &[]);
        for _ in 0..self.labels.len() {
            let Some(label) = self.labels.get(place).copied() else {
                break;
            };
            self.add_label(label.name, to, label.left)?;
            place = label.next;
        }
        self.delete_labels(from);
        Ok(())
    }

    pub(crate) fn delete_labels(&mut self, owner: Owner) {
        let (kind, of) = key_of(owner);
        let mut place = self.index.first(kind, of, &[]);
        for _ in 0..self.labels.len() {
            let Some(label) = self.labels.get_mut(place) else {
                return;
            };
            label.is_deleted = true;
            place = label.next;
        }
    }

    /// Returns whether a label is not deleted, nor what it names.
    pub(crate) fn is_live_label(&self, label: LabelEntry) -> bool {
        if label.is_deleted {
            return false;
        }
        match label.owner {
            Owner::Node(place) => self.is_live(place),
            Owner::Property(place) => match self.property(place) {
                Some(property) => !property.is_deleted && self.is_live(property.node),
                None => false,
            },
        }
    }
}
