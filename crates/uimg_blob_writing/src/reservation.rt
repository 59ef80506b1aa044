//! The memory that a blob reserves (Devicetree Specification, section 5.3), and its block.

ghost use Rattle.std.specs.Prelude.{◌≡◌, ◌+◌, ◌*◌, ◌^◌, suc, min, length, replicate, is_err};
ghost use Rattle.std.specs.List.{flat_map};
ghost use Rattle.uimg_base.specs.Writing.{Writes};
ghost use Rattle.uimg_blob_writing.specs.Encoding.{entry_bytes, reserved};

use std::io::Write;
use uimg_base::{Out, PutFault};

// The size of an entry in bytes.
const ENTRY: u64 = 16;

// Sizes are counted up to 2^36, which is too large for a blob, so no sum of them wraps.
const MOST: u64 = 0x10_0000_0000;

/// A range of memory that is reserved.
#[derive(Clone, Copy, Debug, PartialEq, Eq)]
pub struct Reservation {
    /// The address of its first byte.
    pub address: u64,

    /// Its size in bytes.
    pub size: u64,
}

// In bytes, at most 2^36.
pub(crate) fn block_size(reservations: &[Reservation]) -> u64
    ensures { result ≡ min (16 * suc (length reservations.now)) (2 ^ 36) }
{
    let count = u64::min(reservations.len() as u64, MOST);
    u64::min((count + 1) * ENTRY, MOST)
}

fn put_entry<W: Write>(reservation: Reservation, out: &mut Out<W>) -> Result<(), PutFault>
    ensures { Writes (is_err result) out.old out.new (entry_bytes reservation) }
{
    out.put_pieces(&[
        &reservation.address.to_be_bytes(),
        &reservation.size.to_be_bytes(),
    ])
}

fn put_entries<W: Write>(reservations: &[Reservation], out: &mut Out<W>) -> Result<(), PutFault>
    ensures { Writes (is_err result) out.old out.new (flat_map entry_bytes reservations.now) }
{
    for reservation in reservations {
        put_entry(*reservation, out)?;
    }
    Ok(())
}

// A pair of zeros ends the block.
pub(crate) fn put_reservations<W: Write>(
    reservations: &[Reservation],
    out: &mut Out<W>,
) -> Result<(), PutFault>
    ensures { Writes (is_err result) out.old out.new (reserved reservations.now) }
{
    put_entries(reservations, out)?;
    out.put_all(&[0; ENTRY as usize])
}
