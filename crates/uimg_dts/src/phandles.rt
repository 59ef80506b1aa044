//! The numbers by which nodes are named, and references.

use crate::fault::Refusal;
use crate::stop::{Stop, at, out_of_memory};
use crate::table::{MarkEntry, MarkKind, PropertyEntry, Table};
use crate::tokens::Piece;
use std::alloc::Allocator;

/// The part of the words' bytes that is `phandle`: they begin with it.
pub(crate) const PHANDLE: Piece = Piece { start: 0, end: 7 };

/// What they begin with.
pub(crate) const PREFIX: &[u8] = b"phandle";

impl<'t, A: Allocator + Copy> Table<'t, A> {
    fn first_mark(&self, property: PropertyEntry, kind: MarkKind) -> Option<MarkEntry> {
        for i in property.marks.start..property.marks.end {
            match self.marks.get(i) {
                Some(mark) if mark.kind == kind => return Some(*mark),
                _ => {}
            }
        }
        None
    }

    // Zero if the node has none yet.
    fn given_number(&mut self, place: usize, name: &[u8]) -> Result<u32, Stop> {
        let Some(found) = self.live_property(place, name) else {
            return Ok(0);
        };
        let Some(property) = self.property(found) else {
            return Ok(0);
        };
        let bad = at(Refusal::BadPhandle, property.left);
        let [a, b, c, d] = self.value(property.value) else {
            return Err(bad);
        };
        let number = u32::from_be_bytes([*a, *b, *c, *d]);
        if let Some(mark) = self.first_mark(property, MarkKind::Phandle) {
            return match self.referred(mark.name)? {
                Some(node) if node == place => Ok(0),
                _ => Err(bad),
            };
        }
        match number {
            0 | u32::MAX => Err(bad),
            _ => Ok(number),
        }
    }

    fn set_number(&mut self, place: usize, number: u32) -> Result<(), Stop> {
        if let Some(node) = self.nodes.get_mut(place) {
            node.phandle = number;
        }
        match self.numbers.insert(number) {
            Ok(_) => Ok(()),
            Err(_) => Err(out_of_memory(0)),
        }
    }

    // Returns how many bytes of the text remain at the property with a node's number.
    fn left_of_number(&self, place: usize) -> usize {
        let found = match self.live_property(place, b"phandle") {
            Some(found) => self.property(found),
            None => match self.live_property(place, b"linux,phandle") {
                Some(found) => self.property(found),
                None => None,
            },
        };
        match found {
            Some(property) => property.left,
            None => 0,
        }
    }

    /// Gives the nodes of the tree the numbers that their properties have.
    pub(crate) fn give_numbers(&mut self, order: &[usize]) -> Result<(), Stop> {
        for place in order {
            let own = self.given_number(*place, b"phandle")?;
            let other = self.given_number(*place, b"linux,phandle")?;
            let number = if own == 0 { other } else { own };
            let differ = own != 0 && other != 0 && own != other;
            if differ || self.numbers.contains(&number) {
                return Err(at(Refusal::BadPhandle, self.left_of_number(*place)));
            }
            if number != 0 {
                self.set_number(*place, number)?;
            }
        }
        Ok(())
    }

    // Returns the first number that is free, from one on.
    fn free_number(&self, first: u32) -> u32 {
        let mut number = first;
        for _ in 0..self.nodes.len() {
            if !self.numbers.contains(&number) {
                break;
            }
            number = number.saturating_add(1);
        }
        number
    }

    // Adds a property with a node's number, unless the node has one.
    fn add_number(&mut self, place: usize, number: u32) -> Result<(), Stop> {
        if self.live_property(place, b"phandle").is_some() {
            return Ok(());
        }
        let start = self.values.len();
        if self
            .values
            .extend_from_slice(&number.to_be_bytes())
            .is_err()
        {
            return Err(out_of_memory(0));
        }
        let end = self.values.len();
        let property = self.add_property(PHANDLE, 0)?;
        if let Some(found) = self.properties.get_mut(property) {
            found.value = Piece { start, end };
        }
        self.append_property(place, property)
    }

    // Returns the number of a node; one that has none gets the first that is free, from one on, and
    // a property with it.
    fn number_of(&mut self, place: usize, next: &mut u32) -> Result<u32, Stop> {
        match self.node(place) {
            Some(node) if node.phandle != 0 => return Ok(node.phandle),
            _ => {}
        }
        *next = self.free_number(*next);
        self.set_number(place, *next)?;
        self.add_number(place, *next)?;
        Ok(*next)
    }

    // Writes a number over four bytes of the values, if there are so many from a place on.
    fn put_number(&mut self, place: usize, number: u32) {
        let values = self.values.as_mut_slice();
        let end = place.saturating_add(4);
        if end <= values.len() && place < end {
            values[place..end].copy_from_slice(&number.to_be_bytes());
        }
    }

    // Returns the node that the mark refers to.
    fn refer_to(&mut self, place: usize, mark: MarkEntry) -> Result<usize, Stop> {
        let Some(found) = self.referred(mark.name)? else {
            return Err(at(Refusal::NoNode, mark.left));
        };
        if let Some(node) = self.nodes.get_mut(found) {
            node.is_referenced = true;
        }
        if let Some(own) = self.marks.get_mut(place) {
            own.node = found;
        }
        Ok(found)
    }

    fn resolve_mark(&mut self, start: usize, place: usize, next: &mut u32) -> Result<(), Stop> {
        let Some(mark) = self.marks.get(place).copied() else {
            return Ok(());
        };
        if mark.kind == MarkKind::Label {
            return Ok(());
        }
        let node = self.refer_to(place, mark)?;
        if mark.kind == MarkKind::Phandle {
            let number = self.number_of(node, next)?;
            self.put_number(start.saturating_add(mark.offset), number);
        }
        Ok(())
    }

    fn resolve_node(&mut self, place: usize, next: &mut u32) -> Result<(), Stop> {
        let Some(node) = self.node(place) else {
            return Ok(());
        };
        let mut property = node.first_property;
        for _ in 0..self.properties.len() {
            let Some(found) = self.property(property) else {
                return Ok(());
            };
            if !found.is_deleted {
                for i in found.marks.start..found.marks.end {
                    self.resolve_mark(found.value.start, i, next)?;
                }
            }
            property = found.next;
        }
        Ok(())
    }

    /// Resolves all references in the tree: writes the numbers, and finds the nodes of the paths.
    pub(crate) fn resolve(&mut self, order: &[usize]) -> Result<(), Stop> {
        let mut next = 1;
        for place in order {
            self.resolve_node(*place, &mut next)?;
        }
        Ok(())
    }

    /// Deletes the optional nodes that nothing refers to.
    pub(crate) fn omit(&mut self, order: &[usize]) {
        for place in order {
            match self.node(*place) {
                Some(node) if node.is_optional && !node.is_referenced && !node.is_deleted => {
                    self.delete_node(*place)
                }
                _ => {}
            }
        }
    }
}
