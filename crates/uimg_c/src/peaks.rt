//! How much memory a call took.

ghost use Rattle.std.specs.Prelude.{◌≡◌, ◌^◌, ◌-◌, min};

use std::alloc::Allocator;
use uimg_base::Room;

/// Returns the most bytes that a room held, at most the greatest number of 64 bits.
pub(crate) fn peak_of<A: Allocator>(room: &Room<A>) -> u64
    ensures { result ≡ min room.now.peak (2 ^ 64 - 1) }
{
    u128::min(room.peak(), u64::MAX as u128) as u64
}
