//! The header of a devicetree blob, and the blocks that its numbers give.

ghost use Rattle.std.specs.Prelude.{◌≡◌, ◌+◌};
ghost use Rattle.uimg_map.specs.Blocks.{blocks_by};

use crate::fdt_header::{BLOB_HEADER_LEN, FdtHeader};
use crate::thing::Thing;

/// The length of an entry of a memory reservation block.
const ENTRY_LEN: u64 = 16;

fn block(place: u32, size: u32, number: usize) -> Thing
    ensures { result ≡ record { place = place; end = place + size; number = number } }
{
    Thing {
        place: place as u64,
        end: place as u64 + size as u64,
        number,
    }
}

/// Returns the header of a blob, its memory reservation block, its structure block and its strings
/// block, numbered from 0 to 3. The numbers of the header give them, in a file of `size` bytes. A
/// reservation block without an end in the file is taken to end with an entry after the file's end.
pub fn blocks_of(header: &FdtHeader, reservations_end: Option<u64>, size: u64) -> [Thing; 4]
    ensures { result ≡ blocks_by header.now reservations_end size }
{
    let place = header.off_mem_rsvmap as u64;
    let behind = u64::max(place, size).saturating_add(ENTRY_LEN);
    [
        block(0, BLOB_HEADER_LEN as u32, 0),
        Thing {
            place,
            end: reservations_end.unwrap_or(behind),
            number: 1,
        },
        block(header.off_dt_struct, header.size_dt_struct, 2),
        block(header.off_dt_strings, header.size_dt_strings, 3),
    ]
}
