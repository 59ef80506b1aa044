//! Writes the image of a tree, as mkimage does.

ghost use Rattle.std.specs.Prelude.{◌≡◌, IsTrue, OnOk, Some, [], is_err, string_bytes};
ghost use Rattle.uimg_blob_writing.specs.{LentFiles.IfInFull, Trees.node_of};
ghost use Rattle.uimg_tool.specs.{Complaints.Ends, OldMakings.{IsNew, LendsAt, MakesFor, path_for}, RequestEnds.TreeEnds, TreesMade.{KeepsBegun, KeepsTree, MakesKept}};

use crate::complaints::Complaints;
use crate::made::Made;
use crate::old_files::{Begun, about_end, tell_end, tell_made};
use crate::reasons::{ReasonKeeper, reason_of_code};
use crate::request_fault::RequestFault;
use crate::writing::begin_image;
use std::alloc::Global;
use std::cell::Cell;
use std::io;
use std::io::Write;
use uimg_base::{Files, Out, Room, Shelf, Status};
use uimg_blob_writing::{Reservation, Tree};
use uimg_engine::{Fault, TreeManner, make_tree};
use uimg_fit_base::AlignedPlacement;
use uimg_requests::Manner;
use uimg_world::MakingWorld;

/// The image that is made of a tree: the path of its source, its own path, whether a device there is
/// written in place, how it is made, and the memory that it reserves.
#[derive(Clone, Copy)]
pub(crate) struct TreeRequest<'a, 'p> {
    pub(crate) source: &'a str,
    pub(crate) image: &'p str,
    pub(crate) in_place: bool,
    pub(crate) placement: AlignedPlacement,
    pub(crate) reservations: &'a [Reservation],
    pub(crate) manner: Manner,
    pub(crate) is_quiet: bool,
}

/// Writes the image beside its name, which it gets when it is complete, or in place if the request
/// says so and something else than a regular file is there.
#[tactic(auto, using(crate::proofs::TreeLaws::in_new_file))]
pub(crate) fn write_image<'p, D: MakingWorld<'p>, F: Files, W: Write, V: Write>(
    world: &mut D,
    request: TreeRequest<'_, 'p>,
    tree: &Tree<Global>,
    files: &mut F,
    out: &mut W,
    complaints: &mut Complaints<'_, V>,
) -> u8
    ensures ends { Ends result complaints.old.count complaints.new.count }
    ensures made { MakesFor request.entry.image.now result (D.trace world.old) (D.trace world.new) }
    ensures kept { IsTrue D.knows → result ≡ 0 → IfInFull F.map files (node_of tree.now.root)
        (KeepsTree D.Shelf.Kept.device D.NewShelf.Kept.device request.entry) }
{
    match begin_image(world, request.image, complaints) {
        Ok(Some((file, path))) => {
            let begun = Begun { file, path: &path };
            let made = make_listed(world, request, tree, files, Some(begun), out);
            let about = about_end(&made.end, request.source, request.image);
            tell_made(world, &path, &made, about, complaints)
        }
        Ok(None) => {
            if !request.in_place {
                let reason = io::Error::other("it is not a regular file");
                return complaints.tell_unwritten(request.image, &reason);
            }
            let made = make_listed(world, request, tree, files, None, out);
            let end = made.told();
            let about = about_end(&end, request.source, request.image);
            tell_end(world, &end, about, complaints)
        }
        Err(status) => status,
    }
}

// A quiet build prints nothing.
fn make_listed<'p, D: MakingWorld<'p>, F: Files, W: Write>(
    world: &mut D,
    request: TreeRequest<'_, 'p>,
    tree: &Tree<Global>,
    files: &mut F,
    begun: Option<Begun<'_, D::File>>,
    out: &mut W,
) -> Made<'p>
    ensures ends { TreeEnds request.entry.image result.end }
    ensures lent { LendsAt (path_for request.entry.image.now begun.entry) (is_err result.end)
        (D.trace world.old) (D.trace world.new) }
    ensures kept { IsTrue D.knows → IsNew D.File.contents begun.entry →
        IfInFull F.map files (node_of tree.now.root) (λ t. OnOk result.end
        (KeepsBegun begun.entry D.Shelf.Kept.device D.NewShelf.Kept.device request.entry t)) }
{
    if request.is_quiet {
        make_in(world, request, tree, files, begun, &mut io::sink())
    } else {
        make_in(world, request, tree, files, begun, out)
    }
}

// Returns how the build ended, and how the flush of the listing did.
fn make_in<'p, D: MakingWorld<'p>, F: Files, W: Write>(
    world: &mut D,
    request: TreeRequest<'_, 'p>,
    tree: &Tree<Global>,
    files: &mut F,
    begun: Option<Begun<'_, D::File>>,
    out: &mut W,
) -> Made<'p>
    ensures ends { TreeEnds request.entry.image result.end }
    ensures lent { LendsAt (path_for request.entry.image.now begun.entry) (is_err result.end)
        (D.trace world.old) (D.trace world.new) }
    ensures kept { IsTrue D.knows → IsNew D.File.contents begun.entry →
        IfInFull F.map files (node_of tree.now.root) (λ t. OnOk result.end
        (KeepsBegun begun.entry D.Shelf.Kept.device D.NewShelf.Kept.device request.entry t)) }
{
    let end = match begun {
        Some(Begun { file, path }) => match world.shelf_in(path.new.as_str(), file) {
            Ok(shelf) => make_on(world.alloc(), request, tree, files, shelf, out),
            Err(_) => Err(RequestFault::OutOfMemory),
        },
        None => {
            let shelf = world.shelf_at(request.image);
            make_on(world.alloc(), request, tree, files, shelf, out)
        }
    };
    let printed = out.flush();
    Made { end, printed }
}

fn make_on<'p, F: Files, H: Shelf, W: Write>(
    alloc: Global,
    request: TreeRequest<'_, 'p>,
    tree: &Tree<Global>,
    files: &mut F,
    shelf: H,
    out: &mut W,
) -> Result<Status, RequestFault<'p>>
    ensures ends { TreeEnds request.entry.image result }
    ensures kept { IsTrue H.honest → H.contents shelf ≡ Some [] →
        IfInFull F.map files (node_of tree.now.root) (λ t. OnOk result
        (MakesKept H.Kept.device request.entry t)) }
{
    let code = Cell::new(None);
    let manner = TreeManner {
        placement: request.placement,
        reservations: request.reservations,
        naming: request.manner.naming,
    };
    let made = make_tree(
        alloc,
        tree,
        manner,
        files,
        ReasonKeeper::new(shelf, &code),
        &mut Room::new(alloc),
        &mut Out::new(out),
    );
    match (made, code.get()) {
        (Ok(_), _) => Ok(Status::Done),
        (Err(Fault::Put), Some(code)) => {
            Err(RequestFault::NotPut(request.image, reason_of_code(Some(code))))
        }
        (Err(Fault::Keep), _) => Err(RequestFault::CannotRead(request.image)),
        (Err(fault), _) => Err(RequestFault::Stopped(fault)),
    }
}
