//! Counts the images of a FIT image in memory.

ghost use Rattle.std.specs.Prelude.{◌≡◌, ◌<◌, length};
ghost use Rattle.uimg_base.specs.Honest.{IfHonest};
ghost use Rattle.uimg_blob_reading.specs.Roles.{in_images};
ghost use Rattle.uimg_fit_base.specs.Faults.{Gives};
ghost use Rattle.uimg_fit_checking.specs.Counting.{count_of};
ghost use Rattle.uimg_fit_reading.specs.Rooms.{ReadsAny, ReadsInMemory};
ghost use Rattle.uimg_fit_reading.specs.Nodes.{IsEntryOrNone, InTreeFrom};

use std::alloc::Allocator;
use uimg_base::{MemSource, Room, Source};
use uimg_blob_reading::Blob;
use uimg_fit_base::Fault;
use uimg_fit_reading::images::first_image;
use uimg_fit_reading::nodes::next_of;
use uimg_fit_reading::read_tree;

pub(crate) fn count_from<A: Allocator>(blob: &Blob, room: &Room<A>, first: Option<usize>) -> usize
    requires { IsEntryOrNone blob.now room.now first }
    ensures { InTreeFrom blob.now room.now in_images first (λ found. result ≡ length found) }
{
    let most = room.count();
    let mut count = 0;
    let mut next = first;
    while count < most {
        let Some(image) = next else {
            return count;
        };
        count += 1;
        next = next_of(blob, room, image);
    }
    count
}

fn count_in<S: Source, A: Allocator>(source: &mut S, room: &mut Room<A>) -> Result<usize, Fault>
    ensures reads { ReadsAny result S.device source room }
    ensures told { IfHonest S.device source (λ file. Gives (λ count. count) result (count_of file)) }
{
    let blob = read_tree(source, room)?;
    let first = first_image(&blob, room)?;
    Ok(count_from(&blob, room, first))
}

/// Counts the images of a FIT image in memory.
///
/// - The faults of the blob, then `NoImages`.
/// - `OutOfMemory`: if and only if the room refused to grow.
///
/// `Read` is never returned.
pub fn count_images<A: Allocator>(file: &[u8], room: &mut Room<A>) -> Result<usize, Fault>
    ensures memory { ReadsInMemory file.now result room }
    ensures told { Gives (λ count. count) result (count_of file.now) }
{
    let mut source = MemSource::new(file);
    count_in(&mut source, room)
}
