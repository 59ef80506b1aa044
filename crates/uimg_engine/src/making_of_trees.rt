//! Builds of FIT images from trees in memory.

ghost use Rattle.std.specs.Prelude.{◌≡◌, Some, [], IsTrue, IfOk};
ghost use Rattle.uimg_blob_writing.specs.{LentFiles.IfInFull, Trees.node_of};
ghost use Rattle.uimg_fit_building.specs.OpenedFiles.{OpensNamed, built_files};
ghost use Rattle.uimg_engine.specs.MakingOfTrees.{MakesOfTree, ListsTree};

use crate::engine::run_by;
use crate::fault::Fault;
use crate::making::{keep, write_out};
use std::alloc::Allocator;
use std::io::Write;
use uimg_base::{Files, Out, Room, Shelf};
use uimg_blob_writing::{Reservation, Tree};
use uimg_fit_base::AlignedPlacement;
use uimg_fit_building::{Frame, build_with};
use uimg_requests::{Action, Command, Form};
use uimg_texts::Naming;

/// How a FIT image is made from a tree.
#[derive(Clone, Copy)]
pub struct TreeManner<'a> {
    /// Where its payloads go.
    pub placement: AlignedPlacement,

    /// The memory that its blob reserves.
    pub reservations: &'a [Reservation],

    /// The names for the listing of the image.
    pub naming: Naming,
}

/// Makes a FIT image from a tree: builds it on the shelf as `uimg_fit::build` does, with
/// reservations, reopens it, and writes its listing to `out`. Returns what was kept.
///
/// Over honest files of the sizes that the tree keeps, and an honest, empty shelf, what is kept are
/// the bytes of `built_with`; if the tree is filled, they read back.
///
/// - `Fault::Blob`, `Fault::Fit`, `Fault::Read`, `Fault::Put`: as `uimg_fit::build` returns them.
/// - `Fault::Keep`: what was written could not be reopened.
/// - The faults of the listing.
pub fn make_tree<F: Files, H: Shelf, W: Write, A: Allocator + Copy, B: Allocator>(
    alloc: A,
    tree: &Tree<A>,
    manner: TreeManner<'_>,
    files: &mut F,
    shelf: H,
    room: &mut Room<B>,
    out: &mut Out<W>,
) -> Result<H::Kept, Fault>
    ensures made { IsTrue H.honest → H.contents shelf ≡ Some [] →
        IfInFull F.map files (node_of tree.now.root) (λ t.
        IfOk result (λ kept. MakesOfTree manner.entry.reservations.now t manner.entry.placement
        (H.Kept.device kept))) }
    ensures opened { OpensNamed F.map
        (built_files (node_of tree.now.root) manner.entry.placement) result files }
    ensures listed { IfOk result (ListsTree H.Kept.device manner.entry.naming out) }
    ensures kept_reads { IfOk result (λ kept. (H.Kept.device kept).failures ≡ 0) }
{
    room.clear();
    let mut image = Out::new(shelf);
    let frame = Frame {
        placement: manner.placement,
        reservations: manner.reservations,
    };
    build_with(alloc, tree, files, frame, &mut image)?;
    let shelf = write_out(image)?;
    let mut kept = keep(shelf)?;
    let list = Command {
        action: Action::List,
        form: Form::Guess,
    };
    run_by(manner.naming, &list, &mut kept, room, out)?;
    Ok(kept)
}
