//! The finding about images whose hash nodes are all right.

ghost use Rattle.std.specs.Prelude.{◌≡◌, ◌+◌, ◌<◌, ◌≤◌, List, length};
ghost use Rattle.std.specs.Option.{option_map};
ghost use Rattle.uimg_blob_reading.specs.Grammar.{Siblings};
ghost use Rattle.uimg_blob_reading.specs.Indexed.{IsIndexed};
ghost use Rattle.uimg_blob_reading.specs.LookUps.{NodeOf};
ghost use Rattle.uimg_blob_reading.specs.Roles.{in_images};
ghost use Rattle.uimg_blob_reading.specs.Spots.{Spot};
ghost use Rattle.uimg_fit_checking.specs.Checks.{EndsInside, named_finding, hash_count, unhashed_in, unhashed_of, all_right};
ghost use Rattle.uimg_fit_reading.specs.Nodes.{HashesAt, IsEntryOrNone, InAnyFile, FromNode, InTreeFrom};
ghost use Rattle.uimg_fit_reading.specs.Values.{in_span};
ghost use Rattle.uimg_fit_reading.specs.PayloadPlaces.{Ends};

use crate::checking::Finding;
use crate::counting::count_from;
use std::alloc::Allocator;
use uimg_base::{Algo, Room, Span};
use uimg_blob_reading::Blob;
use uimg_fit_reading::nodes::{first_hash, name_of, next_hash, next_of};

// There are no more hash nodes than entries.
fn count_hashes<A: Allocator>(
    blob: &Blob,
    room: &Room<A>,
    first: Option<usize>,
    before: usize,
) -> usize
    requires { IsEntryOrNone blob.now room.now first }
    ensures { (t : Siblings) → IsIndexed t blob.now room.now.entries → (hs : List (NodeOf Spot)) →
        HashesAt t first hs → before + length hs ≤ length room.now.entries →
        result ≡ before + length hs }
{
    let most = room.count();
    let mut count = before;
    let mut next = first;
    while count < most {
        let Some(hash) = next else {
            return count;
        };
        count += 1;
        next = next_hash(blob, room, hash);
    }
    count
}

fn count_all<A: Allocator>(blob: &Blob, room: &Room<A>, first: Option<usize>) -> usize
    requires { IsEntryOrNone blob.now room.now first }
    ensures { InTreeFrom blob.now room.now in_images first (λ found. result ≡ hash_count found) }
{
    let mut count = 0;
    let mut next = first;
    while let Some(image) = next {
        count = count_hashes(blob, room, first_hash(blob, room, image), count);
        next = next_of(blob, room, image);
    }
    count
}

fn first_unhashed<A: Allocator>(blob: &Blob, room: &Room<A>, first: Option<usize>) -> Option<Span>
    requires { IsEntryOrNone blob.now room.now first }
    ensures inside { InAnyFile blob.now room.now (λ size. Ends size result) }
    ensures told { FromNode blob.now room.now in_images first
        (λ file found. option_map (λ s. in_span file s) result ≡ unhashed_in found) }
{
    let mut next = first;
    while let Some(image) = next {
        if first_hash(blob, room, image).is_none() {
            return Some(name_of(blob, room, image));
        }
        next = next_of(blob, room, image);
    }
    None
}

// Returns `None` if a strength is needed.
fn unhashed<A: Allocator>(
    blob: &Blob,
    room: &Room<A>,
    first: Option<usize>,
    need: Option<Algo>,
) -> Option<Span>
    requires { IsEntryOrNone blob.now room.now first }
    ensures inside { InAnyFile blob.now room.now (λ size. Ends size result) }
    ensures told { FromNode blob.now room.now in_images first
        (λ file found. option_map (λ s. in_span file s) result ≡ unhashed_of need found) }
{
    match need {
        Some(_) => None,
        None => first_unhashed(blob, room, first),
    }
}

pub(crate) fn all_right<A: Allocator>(
    blob: &Blob,
    room: &Room<A>,
    first: Option<usize>,
    need: Option<Algo>,
) -> Finding<Span>
    requires { IsEntryOrNone blob.now room.now first }
    ensures inside { InAnyFile blob.now room.now (λ size. EndsInside size result) }
    ensures told { FromNode blob.now room.now in_images first
        (λ file found. named_finding file result ≡ all_right need found) }
{
    match unhashed(blob, room, first, need) {
        Some(image) => Finding::Unhashed(image),
        None => Finding::Right {
            images: count_from(blob, room, first),
            hashes: count_all(blob, room, first),
        },
    }
}
