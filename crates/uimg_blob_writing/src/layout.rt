//! The result of measuring: the names and sizes of a blob.

ghost use Rattle.std.specs.Prelude.{◌≡◌, ◌-◌};
ghost use Rattle.uimg_blob_writing.specs.{Encoding.structure_offset, Layouts.{plan_end, totalsize}};

use crate::blob_end::BlobEnd;
use crate::reservation::Reservation;
use std::alloc::Allocator;
use std::marker::Model;

/// The offset of the reservation block: after the header.
pub(crate) const RESERVATION_OFFSET: u32 = 40;

// The size of an entry of the reservation block in bytes.
const ENTRY: u32 = 16;

/// The layout of a tree's blob, known before it is written: the names of the strings block and the
/// reservations, both borrowed, the sizes of the two other blocks, and the blob's end.
///
/// Contracts see it as a `Plan`. `measure_with` makes it.
#[derive(Drop)]
pub struct Layout<'a, A: Allocator> {
    pub(crate) names: Vec<&'a [u8], A>,
    pub(crate) reservations: &'a [Reservation],
    pub(crate) structure_size: u32,
    pub(crate) strings_size: u32,
    pub(crate) ending: BlobEnd,
}

impl<'a, A: Allocator> Model for Layout<'a, A> {
    ghost use Rattle.uimg_blob_writing.specs.Layouts.{Plan};

    ghost Value = { Plan };

    ghost use Rattle.std.specs.Prelude.{◌≡◌, ◌+◌, ◌<◌, ◌^◌, length};
    ghost use Rattle.uimg_blob_writing.specs.Encoding.{strings, structure_offset};
    ghost use Rattle.uimg_blob_writing.specs.Layouts.{totalsize};
    ghost use Rattle.uimg_blob_writing.specs.Names.{name_texts};

    ghost view = { λ l. record {
      names = name_texts l.names.items;
      reservations = l.reservations.now;
      structure = l.structure_size;
      ending = l.ending;
    } };

    ghost invariant = { λ l. (l.strings_size ≡ length (strings (name_texts l.names.items)))
        × (totalsize (record {
          names = name_texts l.names.items;
          reservations = l.reservations.now;
          structure = l.structure_size;
          ending = l.ending;
        }) < 2 ^ 32)
        × (structure_offset l.reservations.now + l.structure_size + l.strings_size < 2 ^ 32) };
}

impl<'a, A: Allocator> Layout<'a, A> {
    /// Returns the size of the blob in bytes, with the stored size of each file. Exactly as many
    /// bytes are written, over any files of these sizes.
    pub fn totalsize(&self) -> u32
        ensures { result ≡ totalsize self.now }
    {
        self.ending.sized(self.end()) as u32
    }

    // How many zeros there are behind the strings block.
    pub(crate) fn room(&self) -> u64
        ensures { result ≡ totalsize self.now - plan_end self.now }
    {
        let end = self.end();
        (self.ending.sized(end) - end as u128) as u64
    }

    // The block follows the reservation block, which a pair of zeros ends.
    pub(crate) fn structure_offset(&self) -> u32
        ensures { result ≡ structure_offset self.now.reservations }
    {
        RESERVATION_OFFSET + (self.reservations.len() as u32 + 1) * ENTRY
    }

    pub(crate) fn end(&self) -> u64
        ensures { result ≡ plan_end self.now }
    {
        self.structure_offset() as u64 + self.structure_size as u64 + self.strings_size as u64
    }
}
