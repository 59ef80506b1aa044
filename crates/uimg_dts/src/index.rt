//! What is known by a name: children and properties of nodes, and labels.

use crate::stop::{Stop, out_of_memory};
use crate::table::NONE;
use std::alloc::Allocator;
use std::collections::BTreeMap;

/// What a name is of.
pub(crate) const CHILD: u8 = 0;

pub(crate) const PROPERTY: u8 = 1;

pub(crate) const LABEL: u8 = 2;

pub(crate) const LABEL_OF_NODE: u8 = 3;

pub(crate) const LABEL_OF_PROPERTY: u8 = 4;

/// The first and the last place in a table of each name: with what it is of, and the place of that.
#[derive(Drop)]
pub(crate) struct Index<'t, A: Allocator> {
    ends: BTreeMap<(u8, usize, &'t [u8]), (usize, usize), A>,
}

impl<'t, A: Allocator + Copy> Index<'t, A> {
    pub(crate) fn new(alloc: A) -> Index<'t, A> {
        Index {
            ends: BTreeMap::new(alloc),
        }
    }

    /// Returns the first place, or `NONE`.
    pub(crate) fn first(&self, kind: u8, of: usize, name: &'t [u8]) -> usize {
        match self.ends.get(&(kind, of, name)) {
            Some(found) => found.0,
            None => NONE,
        }
    }

    /// Adds a place. Returns the one that was the last, or `NONE`.
    pub(crate) fn add(
        &mut self,
        kind: u8,
        of: usize,
        name: &'t [u8],
        place: usize,
    ) -> Result<usize, Stop> {
        let key = (kind, of, name);
        let (first, last) = match self.ends.get(&key) {
            Some(found) => *found,
            None => (place, NONE),
        };
        match self.ends.insert(key, (first, place)) {
            Ok(_) => Ok(last),
            Err(_) => Err(out_of_memory(0)),
        }
    }
}
