//! The rows of a map.

ghost use Rattle.std.specs.Prelude.{◌≡◌};
ghost use Rattle.uimg_map.specs.Cover.{place_of, row_end};

use crate::thing::Thing;

/// A row of the map of a file.
#[derive(Clone, Copy, Debug, PartialEq, Eq)]
pub enum Row {
    /// A thing. If an earlier thing shares bytes with it, that thing, the one that ends last of all
    /// earlier ones.
    Taken(Thing, Option<Thing>),

    /// Bytes of the file in no thing, from an offset up to an end, before a thing.
    Gap(u64, u64),

    /// Bytes of the file in no thing, from an offset up to the file's end, after all things.
    Rest(u64, u64),
}

impl Row {
    /// Returns the offset of its first byte.
    pub fn place(&self) -> u64
        ensures { result ≡ place_of self.now }
    {
        match *self {
            Row::Taken(thing, _) => thing.place,
            Row::Gap(place, _) | Row::Rest(place, _) => place,
        }
    }

    /// Returns the offset after its last byte.
    pub fn end(&self) -> u64
        ensures { result ≡ row_end self.now }
    {
        match *self {
            Row::Taken(thing, _) => thing.end,
            Row::Gap(_, end) | Row::Rest(_, end) => end,
        }
    }
}
