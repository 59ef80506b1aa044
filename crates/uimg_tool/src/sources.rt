//! The sources of FIT images: their texts, and the trees that these are compiled to.

ghost use Rattle.std.specs.{Path.path_buf_bytes, Prelude.{◌≡◌, ◌≢◌, IfOk, IfSome, IsTrue, codes, length, not}};
ghost use Rattle.uimg_base.specs.Named.{Opens, SameFiles};
ghost use Rattle.uimg_blob_writing.specs.{Content.FilesAtData, Trees.node_of};
ghost use Rattle.uimg_its.specs.Answers.{is_outside_text};
ghost use Rattle.uimg_tool.specs.{LeavingOut.seen_in, Sources.{IsText, Spelled}};
ghost use Rattle.uimg_world.specs.Deeds.{changes};

use crate::folder_files::FolderFiles;
use crate::images::is_same_file;
use crate::lookup::Folders;
use crate::no_tree::{NoTree, refused_status};
use crate::request_fault::{REFUSED, RequestFault};
use std::alloc::{AllocError, Global};
use std::io;
use std::io::Read;
use std::mem::replace;
use std::path::{Path, PathBuf};
use uimg_base::Files;
use uimg_compat::{FitRequest, OldFault, has_labels};
use uimg_dts::{Compiled, DtsFault, DtsKind, compile_all};
use uimg_engine::{Fault, whole_text};
use uimg_its::{FaultKind, ItsFault, compile};
use uimg_world::{Reader, World};

/// The name of standard input as a source, and its path.
const INPUT_NAME: &str = "-";

const INPUT: &str = "/dev/stdin";

/// The most bytes that are read of standard input.
const MOST_INPUT: u64 = 1 << 26;

/// The text of a source, and its path.
#[derive(Drop)]
pub(crate) struct SourceText {
    pub(crate) path: PathBuf,
    pub(crate) text: Vec<u8>,
}

/// Reads the source of a request: the file at its path, or in the first folder for dtc that has it,
/// or standard input. The image is not written to what is read.
pub(crate) fn read_source<'p, D: World>(
    world: &mut D,
    request: &FitRequest<'p>,
) -> Result<SourceText, NoTree<'p>>
    ensures same { SameFiles (D.map world.old) (D.map world.new) }
    ensures kept { changes (D.trace world.new) ≡ changes (D.trace world.old) }
    ensures text { request.now.source.now ≢ codes "-" → IsTrue (D.map world.old).honest →
        length request.now.dtc.folders.items ≡ 0 →
        IfOk result (IsText (D.map world.old).bytes request.now.source.now) }
{
    if request.source == INPUT_NAME {
        return read_input(world, request.outfile);
    }
    match open_source(world, request) {
        Ok(Some((mut source, path))) => {
            if is_same_file(world, request.outfile, path.as_str()) {
                return Err(writes_source(request.outfile));
            }
            match whole_text(world.alloc(), &mut source) {
                Ok(text) => Ok(SourceText { path, text }),
                Err(fault) => Err(NoTree::Stopped(RequestFault::Stopped(fault))),
            }
        }
        Ok(None) => Err(NoTree::Stopped(RequestFault::CannotRead(request.source))),
        Err(_) => Err(NoTree::Stopped(RequestFault::OutOfMemory)),
    }
}

fn writes_source<'a>(outfile: &'a str) -> NoTree<'a> {
    NoTree::Stopped(RequestFault::WritesWhatIsRead(outfile))
}

// Opens the file at the path of the source, or in the first folder for dtc that has it.
fn open_source<D: World>(
    world: &mut D,
    request: &FitRequest<'_>,
) -> Result<Option<(D::Opened, PathBuf)>, AllocError>
    ensures same { SameFiles (D.map world.old) (D.map world.new) }
    ensures kept { changes (D.trace world.new) ≡ changes (D.trace world.old) }
    ensures opened { length request.now.dtc.folders.items ≡ 0 → IfOk result (λ found.
        IfSome found (λ source. (path_buf_bytes source.1 ≡ request.now.source.now)
        × Opens (D.map world.old) request.now.source.now (D.Opened.device source.0))) }
{
    let alloc = world.alloc();
    if let Ok(source) = world.open(request.source) {
        return Ok(Some((source, PathBuf::from_str(alloc, request.source)?)));
    }
    for folder in request.dtc.folders.as_slice() {
        let path = Path::new(folder).join(alloc, request.source)?;
        if let Ok(source) = world.open(path.as_str()) {
            return Ok(Some((source, path)));
        }
    }
    Ok(None)
}

fn read_input<'p, D: World>(world: &mut D, outfile: &'p str) -> Result<SourceText, NoTree<'p>>
    ensures same { SameFiles (D.map world.old) (D.map world.new) }
    ensures kept { changes (D.trace world.new) ≡ changes (D.trace world.old) }
{
    if is_same_file(world, outfile, INPUT) {
        return Err(writes_source(outfile));
    }
    let Ok(text) = input_text(world) else {
        return Err(NoTree::Stopped(RequestFault::CannotRead(INPUT)));
    };
    if text.len() as u64 > MOST_INPUT {
        return Err(NoTree::TooLong);
    }
    match PathBuf::from_str(world.alloc(), INPUT_NAME) {
        Ok(path) => Ok(SourceText { path, text }),
        Err(_) => Err(NoTree::Stopped(RequestFault::OutOfMemory)),
    }
}

// Reads standard input to its end, or one byte more than the most.
fn input_text<D: World>(world: &mut D) -> io::Result<Vec<u8>>
    ensures same { SameFiles (D.map world.old) (D.map world.new) }
    ensures kept { changes (D.trace world.new) ≡ changes (D.trace world.old) }
{
    let mut text = Vec::new(world.alloc());
    let input = world.read(INPUT)?;
    input.take(MOST_INPUT + 1).read_to_end(&mut text)?;
    Ok(text)
}

/// Returns the files of a source: those of its folder, then those of the other folders. The file of
/// the image is left out.
pub(crate) fn files_of<'a, R: Reader>(
    reader: R,
    alloc: Global,
    folder: &'a str,
    others: &'a [&'a str],
    outfile: &'a str,
) -> FolderFiles<'a, R, ()>
    ensures { ⟦<FolderFiles<'a, R, ()> as Files>⟧.map result ≡
        seen_in folder.entry.now (length others.entry.now) (R.map reader) }
{
    FolderFiles::new(Folders::new(reader, alloc, folder, others, outfile), false)
}

/// Compiles the text of a source. A text that the profile refuses is read in the language of dtc.
pub(crate) fn tree_of<'f, 'p, R: Reader>(
    alloc: Global,
    request: &FitRequest<'p>,
    text: &[u8],
    files: &mut FolderFiles<'f, R, ()>,
) -> Result<Compiled<Global>, NoTree<'p>>
    ensures same { SameFiles (⟦<FolderFiles<'f, R, ()> as Files>⟧.map files.old)
        (⟦<FolderFiles<'f, R, ()> as Files>⟧.map files.new) }
    ensures at_data { IfOk result (λ compiled. FilesAtData (node_of compiled.tree.root)) }
    ensures spelled { IsTrue (⟦<FolderFiles<'f, R, ()> as Files>⟧.map files.old).honest →
        IfOk result (Spelled (⟦<FolderFiles<'f, R, ()> as Files>⟧.map files.old).bytes text.now) }
{
    if request.dtc.has_symbols && has_labels(text) {
        return Err(NoTree::NotDone(OldFault::DtcSymbols));
    }
    match compile(alloc, text, files) {
        Ok(tree) => Ok(Compiled {
            tree,
            reservations: Vec::new(alloc),
        }),
        Err(fault) if is_of_text(fault.kind) => tree_by_dtc(alloc, request, fault, text, files),
        Err(fault) => {
            let has_met_outfile = files.has_met_left_out();
            Err(unread(request.outfile, has_met_outfile, fault))
        }
    }
}

// The fault is of the text only.
fn is_of_text(kind: FaultKind) -> bool
    ensures { result ≡ not (is_outside_text kind) }
{
    match kind {
        FaultKind::BadToken | FaultKind::BadSyntax | FaultKind::BadNumber => true,
        FaultKind::OutOfProfile(_) => true,
        FaultKind::NoFile | FaultKind::ReadFailed | FaultKind::OutOfMemory => false,
    }
}

/// Returns why a file of a source, or memory for it, is missing: the image would be written while it
/// is read, or a fault.
pub(crate) fn unread<'a>(outfile: &'a str, has_met_outfile: bool, fault: ItsFault) -> NoTree<'a> {
    if has_met_outfile {
        return writes_source(outfile);
    }
    NoTree::Stopped(RequestFault::Stopped(Fault::Its(fault)))
}

// The profile refuses the text with a fault.
fn tree_by_dtc<'f, 'p, R: Reader>(
    alloc: Global,
    request: &FitRequest<'p>,
    known: ItsFault,
    text: &[u8],
    files: &mut FolderFiles<'f, R, ()>,
) -> Result<Compiled<Global>, NoTree<'p>>
    ensures same { SameFiles (⟦<FolderFiles<'f, R, ()> as Files>⟧.map files.old)
        (⟦<FolderFiles<'f, R, ()> as Files>⟧.map files.new) }
    ensures at_data { IfOk result (λ compiled. FilesAtData (node_of compiled.tree.root)) }
{
    if request.dtc.has_symbols {
        return Err(NoTree::NotDone(OldFault::DtcSymbols));
    }
    let compiled = compile_all(alloc, text, files);
    if compiled.is_err() && files.has_met_left_out() {
        return Err(writes_source(request.outfile));
    }
    if files.folders.is_ambiguous {
        return Err(NoTree::InSeveral);
    }
    match compiled {
        Ok(compiled) => Ok(compiled),
        Err(fault) if fault.kind == DtsKind::NoFile => {
            let name = replace(&mut files.missing, Vec::new(alloc));
            Err(NoTree::NotOpened(fault.line, name))
        }
        Err(fault) => Err(refused(known, fault)),
    }
}

// The fault of the profile counts if it is for the same line and not for a construct of the whole
// language.
fn refused<'a>(known: ItsFault, fault: DtsFault) -> NoTree<'a> {
    match known.kind {
        FaultKind::BadToken | FaultKind::BadSyntax | FaultKind::BadNumber
            if refused_status(fault.kind) == REFUSED && known.line == fault.line => {
            NoTree::Stopped(RequestFault::Stopped(Fault::Its(known)))
        }
        _ => NoTree::Refused(fault),
    }
}
