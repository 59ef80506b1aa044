//! The table of sizes, counted while it is summed.

ghost use Rattle.std.specs.Prelude.{◌+◌, ◌*◌, ◌≤◌, length, min, IfOk};
ghost use Rattle.uimg_base.specs.Using.{UsesAtMost};
ghost use Rattle.uimg_legacy.specs.Reading.{Reads, ReadsWords, sizes_from};
ghost use Rattle.uimg_legacy.specs.{Tables.{Counts, sizes_work}, UnpackingSteps.SumsPiece};

use crate::fault::{Fault, LegacyFault};
use crate::table::leading_sizes;
use std::alloc::Allocator;
use uimg_base::{Crc, Room, Source, SourceFault, Summer};

// Counts the words of a window of the data before its first zero word, and sums them and that word.
fn sum_sizes<S: Source, A: Allocator>(
    source: &mut S,
    room: &mut Room<A>,
    first: u32,
    count: u32,
    sum: &mut Crc,
) -> Result<u32, SourceFault>
    requires range { 64 + 4 * (first + count) ≤ length (S.device source.old).bytes }
    requires window { count ≤ 2048 }
    ensures reads { ReadsWords count count (sizes_from first count) result S.device source room }
    ensures summed { IfOk result (λ n. SumsPiece (64 + 4 * first) (4 * min (n + 1) count)
        S.device source sum) }
{
    let window = &mut room.window()[..4 * count as usize];
    source.fill_at(64 + 4 * first as u64, window)?;
    let found = leading_sizes(window);
    let summed = usize::min(found + 1, count as usize);
    sum.feed(&window[..4 * summed]);
    Ok(found as u32)
}

// Counts the sizes before the zero word that ends the table, as `count_sizes` does. Sums the table
// up to and with that word.
pub(super) fn sum_table<S: Source, A: Allocator>(
    source: &mut S,
    room: &mut Room<A>,
    size: u32,
    sum: &mut Crc,
) -> Result<u32, Fault>
    requires { 64 + size ≤ length (S.device source.old).bytes }
    ensures reads { Reads UsesAtMost (sizes_work size) (Counts size) result S.device source room }
    ensures inside { IfOk result (λ n. 4 * (n + 1) ≤ size) }
    ensures summed { IfOk result (λ n. SumsPiece 64 (4 * (n + 1)) S.device source sum) }
{
    let words = size / 4;
    let mut counted = 0;
    while counted < words {
        let next = u32::min(u32::min(counted + 1, 2048), words - counted);
        let found = sum_sizes(source, room, counted, next, sum)?;
        counted += found;
        if found < next {
            return Ok(counted);
        }
    }
    Err(Fault::Legacy(LegacyFault::NoTableEnd))
}
