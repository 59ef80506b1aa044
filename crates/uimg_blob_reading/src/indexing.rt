//! The pass over the tokens that gives each node an entry.

ghost use Rattle.std.specs.Prelude.{◌≡◌, [], ◌^◌, ◌<◌, length, IfOk, false};
ghost use Rattle.uimg_base.specs.{Honest.HonestSource, Using.UsesWithin};
ghost use Rattle.uimg_texts.specs.Numbers.{be32};
ghost use Rattle.uimg_blob_reading.specs.{Counts.{index_cost, nodes_met}, Extents.IsInside};
ghost use Rattle.uimg_blob_reading.specs.Faults.{is_read, is_out_of_memory, is_of_making};
ghost use Rattle.uimg_blob_reading.specs.Acting.{Suits, TakesStep, GoesOver};
ghost use Rattle.uimg_blob_reading.specs.Indexed.{Finds, KeepsWithin, TakesNodes, IndexesTree, LeavesPrefix, LeavesSoFar};

use crate::extent::{Extent, read_extent};
use crate::fault::IndexFault;
use crate::nodes::Blob;
use crate::states::{State, act, is_done};
use crate::tokens::read_token;
use std::alloc::Allocator;
use uimg_base::{Room, Source};

// Returns `None` if the token ends the tree.
fn step<S: Source, A: Allocator>(
    source: &mut S,
    room: &mut Room<A>,
    extent: Extent,
    state: State,
) -> Result<Option<State>, IndexFault>
    requires inside { IsInside extent (length (S.device source.old).bytes) }
    requires place { state.at < 2 ^ 40 }
    requires suits { Suits state room.old.entries }
    ensures { TakesStep extent state result (S.device source.old) (S.device source.new)
        room.old room.new }
{
    let token = read_token(source, room, extent, state.at)?;
    if is_done(room, state, token) {
        return Ok(None);
    }
    let next = act(room, state, token)?;
    Ok(Some(next))
}

fn pass<S: Source, A: Allocator>(
    source: &mut S,
    room: &mut Room<A>,
    extent: Extent,
) -> Result<State, IndexFault>
    requires inside { IsInside extent (length (S.device source.old).bytes) }
    requires empty { room.old.entries ≡ [] }
    ensures { GoesOver extent result (S.device source.old) (S.device source.new) room.old room.new }
{
    let mut state = State {
        at: extent.structure,
        current: None,
        images: None,
        configurations: None,
    };
    while let Some(next) = step(source, room, extent, state)? {
        state = next;
    }
    Ok(state)
}

/// Indexes the devicetree blob of a source (Devicetree Specification, chapter 5). Clears the room,
/// then adds one entry for each node, in reading order.
///
/// At `Ok` each name and value ends inside the blob, and the blob inside the source, whatever the
/// source returns. Over an honest source, blob and entries are those of the file's tree, and the
/// blob has the size in its header. After a refusal over an honest source, the entries are those of
/// the nodes met before it, each with what was met of it; after a refused header there are none.
///
/// No value is read. Of an honest source it requests at most 44 bytes, 264 for each node met, 268
/// for each property and 4 for each NOP. The room takes memory for at most these nodes, and over
/// any source at most 8320 bytes and 16 for each byte of the source.
///
/// Returns the first fault in byte order, with its offset from the start of the file. It never
/// returns `TooLarge`, a fault of building.
///
/// - `TooShort`, `BadMagic`, `BadVersion`, `BlockOutside`: the header is refused.
/// - `BadToken`, `Truncated`, `BadNodeName`, `BadNesting`, `BadPropertyName`: a token is refused.
/// - `OutOfMemory`: if and only if the room refused to grow; the offset is that of the node that
///   got no entry.
/// - `Read`: if and only if a read failed; at which token is only tested.
pub fn index<S: Source, A: Allocator>(
    source: &mut S,
    room: &mut Room<A>,
) -> Result<Blob, IndexFault>
    ensures uses { UsesWithin index_cost (is_read result) S.device source }
    ensures nodes { KeepsWithin nodes_met (S.device source.old) room.new }
    ensures room { TakesNodes (S.device source.old) (is_out_of_memory result) room.old room.new }
    ensures prefix { LeavesPrefix (S.device source.old) result room.new.entries }
    ensures so_far { LeavesSoFar (S.device source.old) result room.new.entries }
    ensures no_making { is_of_making result ≡ false }
    ensures found { IfOk result (λ blob. Finds (S.device source.old) blob room.new.entries) }
    ensures indexes { IndexesTree (S.device source.old) result room.new.entries }
    ensures totalsize { HonestSource S.device source →
        IfOk result (λ blob. blob.totalsize ≡ be32 (S.device source.old).bytes 4) }
{
    room.clear();
    let extent = read_extent(source)?;
    let state = pass(source, room, extent)?;
    Ok(Blob {
        totalsize: extent.totalsize as u32,
        images: state.images,
        configurations: state.configurations,
    })
}
