//! The table of the parts' sizes, read one window at a time.

ghost use Rattle.std.specs.Prelude.{◌≡◌, ◌+◌, ◌*◌, ◌/◌, ◌^◌, ◌≤◌, length, sum_by};
ghost use Rattle.uimg_texts.specs.Numbers.{up4};
ghost use Rattle.uimg_legacy.specs.{Words.whole_words, Parts.sizes};
ghost use Rattle.uimg_legacy.specs.Reading.{ReadsWords, sizes_from, rounded_from};

use std::alloc::Allocator;
use uimg_base::{Room, Source, SourceFault, be32_at, up4};

// Counts the words of the bytes before the first zero word.
pub(crate) fn leading_sizes(bytes: &[u8]) -> usize
    ensures bound { 4 * result ≤ length bytes.now }
    ensures count { result ≡ length (sizes bytes.now) }
{
    let count = bytes.len() / 4;
    for i in 0..count {
        if be32_at(bytes, 4 * i) == 0 {
            return i;
        }
    }
    count
}

// Counts the words of a window of the data before its first zero word.
pub(crate) fn count_window<S: Source, A: Allocator>(
    source: &mut S,
    room: &mut Room<A>,
    first: u32,
    count: u32,
) -> Result<u32, SourceFault>
    requires range { 64 + 4 * (first + count) ≤ length (S.device source.old).bytes }
    requires window { count ≤ 2048 }
    ensures { ReadsWords count count (sizes_from first count) result S.device source room }
{
    let window = &mut room.window()[..4 * count as usize];
    source.fill_at(64 + 4 * first as u64, window)?;
    Ok(leading_sizes(window) as u32)
}

// Sums the words of the bytes, each rounded up to a multiple of 4.
fn rounded_sum(bytes: &[u8]) -> u64
    requires { length bytes.now ≤ 8192 }
    ensures bound { result ≤ 2 ^ 32 * (length bytes.now / 4) }
    ensures sum { result ≡ sum_by up4 (whole_words bytes.now) }
{
    let mut sum = 0;
    for i in 0..bytes.len() / 4 {
        let size = be32_at(bytes, 4 * i) as u64;
        let rounded = up4(size);
        sum += rounded;
    }
    sum
}

fn sum_window<S: Source, A: Allocator>(
    source: &mut S,
    room: &mut Room<A>,
    first: u32,
    count: u32,
) -> Result<u64, SourceFault>
    requires range { 64 + 4 * (first + count) ≤ length (S.device source.old).bytes }
    requires window { count ≤ 2048 }
    ensures { ReadsWords count (2 ^ 32 * count) (rounded_from first count) result
        S.device source room }
{
    let window = &mut room.window()[..4 * count as usize];
    source.fill_at(64 + 4 * first as u64, window)?;
    Ok(rounded_sum(window))
}

pub(crate) fn sum_first<S: Source, A: Allocator>(
    source: &mut S,
    room: &mut Room<A>,
    count: u32,
) -> Result<u64, SourceFault>
    requires { 64 + 4 * count ≤ length (S.device source.old).bytes }
    ensures { ReadsWords count (2 ^ 32 * count) (rounded_from 0 count) result S.device source room }
{
    let mut sum = 0;
    let mut done = 0;
    while done < count {
        let next = u32::min(count - done, 2048);
        sum += sum_window(source, room, done, next)?;
        done += next;
    }
    Ok(sum)
}
