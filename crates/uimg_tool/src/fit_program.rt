//! FIT images that mkimage makes from a source.

ghost use Rattle.std.specs.Prelude.{◌≡◌, ◌≢◌, [], IfOk, IsTrue, codes, length};
ghost use Rattle.std.specs.Path.{path_buf_bytes};
ghost use Rattle.uimg_base.specs.Named.{SameFiles};
ghost use Rattle.uimg_blob_writing.specs.{Content.FilesAtData, LentFiles.IfInFull, Trees.node_of};
ghost use Rattle.uimg_fit_base.specs.Placements.{aligned_by};
ghost use Rattle.uimg_requests.specs.Requests.{folder_of};
ghost use Rattle.uimg_tool.specs.{Complaints.Ends, OldMakings.MakesWithin};
ghost use Rattle.uimg_tool.specs.TreesMade.{BuildsPath, BuildsText, KeepsEither};
ghost use Rattle.uimg_world.specs.Deeds.{changes};

use crate::complaints::Complaints;
use crate::no_tree::{NoTree, tell_no_tree};
use crate::request_fault::{RequestFault, WRONG_LINE};
use crate::sources::{SourceText, files_of, read_source, tree_of, unread};
use crate::tree_program::{TreeRequest, write_image};
use std::alloc::Global;
use std::io::Write;
use uimg_base::Files;
use uimg_compat::{AutoRequest, AutoSource, FitRequest, OldFault, warn};
use uimg_dts::Compiled;
use uimg_engine::Fault;
use uimg_fit_building::fill_by;
use uimg_its::compile;
use uimg_requests::cut_behind_folder;
use uimg_texts::Naming;
use uimg_world::{MakingWorld, Target, World};

/// What faults call the source that mkimage makes itself.
const OWN_SOURCE: &str = "-f auto";

/// Makes the image of a source that is a file, or standard input.
pub(crate) fn make_fit<'p, D: MakingWorld<'p>, W: Write, V: Write>(
    world: &mut D,
    request: &FitRequest<'p>,
    out: &mut W,
    complaints: &mut Complaints<'_, V>,
) -> u8
    ensures ends { Ends result complaints.old.count complaints.new.count }
    ensures made { MakesWithin request.now.outfile.now result (D.trace world.old)
        (D.trace world.new) }
    ensures built { request.now.source.now ≢ codes "-" → BuildsPath D.Shelf.Kept.device
        D.NewShelf.Kept.device request.now (D.map world.old) result }
{
    if is_key(world, request.key) {
        return complaints.tell(&OldFault::Signs('g'), WRONG_LINE);
    }
    match read_source(world, request) {
        Ok(source) => make_of_text(world, request, source, out, complaints),
        Err(reason) => tell_no_tree(world, request.source, request.outfile, &reason, complaints),
    }
}

/// Returns whether anything is at the path of a key, if there is one.
fn is_key<D: World>(world: &mut D, key: Option<&str>) -> bool
    ensures same { SameFiles (D.map world.old) (D.map world.new) }
    ensures kept { changes (D.trace world.new) ≡ changes (D.trace world.old) }
{
    match key {
        Some(path) => leads_somewhere(world.target_of(path)),
        None => false,
    }
}

fn leads_somewhere(target: Target) -> bool {
    match target {
        Target::Nothing => false,
        Target::File => true,
        Target::Pipe => true,
        Target::Other => true,
    }
}

// The files are in the source's folder.
fn make_of_text<'p, D: MakingWorld<'p>, W: Write, V: Write>(
    world: &mut D,
    request: &FitRequest<'p>,
    source: SourceText,
    out: &mut W,
    complaints: &mut Complaints<'_, V>,
) -> u8
    ensures ends { Ends result complaints.old.count complaints.new.count }
    ensures made { MakesWithin request.now.outfile.now result (D.trace world.old)
        (D.trace world.new) }
    ensures built { BuildsText D.Shelf.Kept.device D.NewShelf.Kept.device request.now
        (folder_of (path_buf_bytes source.path)) source.text.items (D.map world.old) result }
{
    let SourceText { path, text } = source;
    let path = path.as_str();
    let (folder, _) = cut_behind_folder(path);
    let alloc = world.alloc();
    let others = request.dtc.folders.as_slice();
    let mut files = files_of(world.reader(), alloc, folder, others, request.outfile);
    let compiled = tree_of(alloc, request, &text, &mut files);
    drop(text);
    match compiled {
        Ok(compiled) => {
            warn(alloc, &compiled.tree, request.dtc.silenced, complaints.err);
            make_compiled(
                world,
                fit_request(request, path),
                compiled,
                &mut files,
                out,
                complaints,
            )
        }
        Err(reason) => tell_no_tree(world, path, request.outfile, &reason, complaints),
    }
}

fn fit_request<'a, 'p>(request: &FitRequest<'p>, source: &'a str) -> TreeRequest<'a, 'p>
    ensures made { result.image ≡ request.now.outfile }
    ensures placed { (result.placement ≡ aligned_by request.now.placement request.now.manner.align)
        × (result.manner ≡ request.now.manner) }
{
    TreeRequest {
        source,
        image: request.outfile,
        in_place: true,
        placement: request.placement.aligned_by(request.manner.align),
        reservations: &[],
        manner: request.manner,
        is_quiet: request.is_quiet,
    }
}

// Fills the tree by all algorithms.
fn make_compiled<'p, D: MakingWorld<'p>, F: Files, W: Write, V: Write>(
    world: &mut D,
    making: TreeRequest<'_, 'p>,
    compiled: Compiled<Global>,
    files: &mut F,
    out: &mut W,
    complaints: &mut Complaints<'_, V>,
) -> u8
    requires { FilesAtData (node_of compiled.tree.root) }
    ensures ends { Ends result complaints.old.count complaints.new.count }
    ensures made { MakesWithin making.entry.image.now result (D.trace world.old) (D.trace world.new) }
    ensures kept { IsTrue D.knows → compiled.reservations.items ≡ [] → result ≡ 0 →
        IfInFull F.map files (node_of compiled.tree.root) (λ t. KeepsEither D.Shelf.Kept.device
        D.NewShelf.Kept.device t making.entry.manner.time making.entry.placement) }
{
    let Compiled { tree, reservations } = compiled;
    match fill_by(world.alloc(), tree, making.manner.time, Naming::All, files) {
        Ok(tree) => {
            let making = TreeRequest {
                reservations: reservations.as_slice(),
                ..making
            };
            write_image(world, making, &tree, files, out, complaints)
        }
        Err(fault) => {
            let reason = NoTree::Stopped(RequestFault::Stopped(Fault::Fit(fault)));
            tell_no_tree(world, making.source, making.image, &reason, complaints)
        }
    }
}

/// Makes the image of the source that mkimage makes itself. Its text is in memory, and its files are
/// in the current folder.
pub(crate) fn make_auto<'p, D: MakingWorld<'p>, W: Write, V: Write>(
    world: &mut D,
    request: &AutoRequest<'p>,
    out: &mut W,
    complaints: &mut Complaints<'_, V>,
) -> u8
    ensures ends { Ends result complaints.old.count complaints.new.count }
    ensures made { MakesWithin request.now.outfile.now result (D.trace world.old)
        (D.trace world.new) }
{
    if is_key(world, request.key) {
        return complaints.tell(&OldFault::Signs('g'), WRONG_LINE);
    }
    if let Some(path) = unread_file(world, &request.source) {
        return complaints.tell_unread(world, path);
    }
    let alloc = world.alloc();
    let mut text = Vec::new(alloc);
    if write!(text, "{}", request.source).is_err() {
        return complaints.tell_no_memory();
    }
    let mut files = files_of(world.reader(), alloc, "", &[], request.outfile);
    let compiled = compile(alloc, &text, &mut files);
    drop(text);
    match compiled {
        Ok(tree) => {
            let compiled = Compiled {
                tree,
                reservations: Vec::new(alloc),
            };
            make_compiled(
                world,
                auto_request(request),
                compiled,
                &mut files,
                out,
                complaints,
            )
        }
        Err(fault) => {
            let reason = unread(request.outfile, files.has_met_left_out(), fault);
            tell_no_tree(world, OWN_SOURCE, request.outfile, &reason, complaints)
        }
    }
}

fn auto_request<'p>(request: &AutoRequest<'p>) -> TreeRequest<'p, 'p>
    ensures { result.image ≡ request.now.outfile }
{
    TreeRequest {
        source: OWN_SOURCE,
        image: request.outfile,
        in_place: true,
        placement: request.placement.aligned_by(request.manner.align),
        reservations: &[],
        manner: request.manner,
        is_quiet: request.is_quiet,
    }
}

// Returns the first path of a source whose file cannot be opened: the data, a device tree or the
// RAM disk.
fn unread_file<'a, D: World>(world: &mut D, source: &AutoSource<'a>) -> Option<&'a str>
    ensures { changes (D.trace world.new) ≡ changes (D.trace world.old) }
{
    if world.open(source.data).is_err() {
        return Some(source.data);
    }
    let mut left = source.trees();
    while let Some(path) = left.take() {
        if world.open(path).is_err() {
            return Some(path);
        }
    }
    match source.ramdisk {
        Some(path) if world.open(path).is_err() => Some(path),
        _ => None,
    }
}
