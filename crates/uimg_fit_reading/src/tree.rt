//! Indexes the blob of an image.

ghost use Rattle.std.specs.Prelude.{length, IfOk};
ghost use Rattle.uimg_base.specs.Honest.{IfHonest};
ghost use Rattle.uimg_blob_reading.specs.Counts.{index_cost};
ghost use Rattle.uimg_fit_reading.specs.{Nodes.{InFile, GivesTree}, Rooms.Inspects};

use std::alloc::Allocator;
use uimg_base::{Room, Source};
use uimg_blob_reading::{Blob, index};
use uimg_fit_base::Fault;

/// Indexes the blob that a FIT image begins with. Returns the faults of the blob.
pub fn read_tree<S: Source, A: Allocator>(source: &mut S, room: &mut Room<A>) -> Result<Blob, Fault>
    ensures inspects { Inspects index_cost result S.device source room }
    ensures inside { IfOk result (λ blob. InFile (length (S.device source.old).bytes) blob
        room.new.entries) }
    ensures gives { IfHonest S.device source (λ file. GivesTree file result room.new.entries) }
{
    Ok(index(source, room)?)
}
