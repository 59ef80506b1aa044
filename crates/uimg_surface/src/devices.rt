//! The calls of `uimg_base` on devices: sources, outputs, shelves and files.

ghost use Rattle.std.specs.Prelude.{◌≡◌, ◌+◌, ◌<◌, ◌≤◌, [], length, Some, None, true, false, is_err, IsTrue, IsOk, IfOk, OnOk};
ghost use Rattle.uimg_texts.specs.Slices.{slice};
ghost use Rattle.uimg_base.specs.Device.{RisesIf, SameDevice, IsFresh, asked_more};
ghost use Rattle.uimg_base.specs.Honest.{HonestSource};
ghost use Rattle.uimg_base.specs.Named.{SameFiles, Opens, bytes_named};
ghost use Rattle.uimg_base.specs.Sink.{AppendsAll, AppendsPrefix};

use std::alloc::Allocator;
use std::io::Write;
use std::rt;
use uimg_base::{
    FileShelf, FileSource, Files, FuseFiles, FuseSource, FuseWriter, MemFiles, MemKept, MemShelf,
    MemSource, Out, PutFault, Shelf, Source, SourceFault,
};

// Sources.

/// Returns the length of a source in bytes. It never changes, and no byte is requested.
///
/// Returns `SourceFault` only if `failures` rose.
pub fn size<S: Source>(source: &mut S) -> Result<u64, SourceFault>
    ensures length { IfOk result (λ n. n ≡ length (S.device source.old).bytes) }
    ensures same { SameDevice (S.device source.old) (S.device source.new) }
    ensures asked { (S.device source.new).asked ≡ (S.device source.old).asked }
    ensures failures { RisesIf (is_err result) (S.device source.old).failures
        (S.device source.new).failures }
{
    source.size()
}

/// Fills `to` with the bytes of a source at an offset. The range must be inside the source.
///
/// An honest source returns its bytes there. `asked` rises by the length of `to`, after a failure
/// too. Returns `SourceFault` only if `failures` rose.
pub fn fill_at<S: Source>(source: &mut S, at: u64, to: &mut [u8]) -> Result<(), SourceFault>
    requires { at + length to.old ≤ length (S.device source.old).bytes }
    ensures bytes { HonestSource S.device source →
        OnOk result (to.new ≡ slice (S.device source.old).bytes at (length to.old)) }
    ensures same { SameDevice (S.device source.old) (S.device source.new) }
    ensures asked { (S.device source.new).asked
        ≡ asked_more (S.device source.old).asked (length to.old) }
    ensures failures { RisesIf (is_err result) (S.device source.old).failures
        (S.device source.new).failures }
{
    source.fill_at(at, to)
}

/// Returns how many bytes were requested of a source, by failed reads too. It saturates.
pub fn asked<S: Source>(source: &S) -> u128
    ensures { result ≡ (S.device source.now).asked }
{
    source.asked()
}

/// Returns how many calls of a source failed. It saturates.
pub fn failures<S: Source>(source: &S) -> u64
    ensures { result ≡ (S.device source.now).failures }
{
    source.failures()
}

/// Creates a source of bytes in memory. It is honest.
pub fn mem_source<'a>(bytes: &'a [u8]) -> MemSource<'a>
    ensures { ⟦<MemSource<'a> as Source>⟧.device result
        ≡ record { bytes = bytes.now; honest = true; asked = 0; failures = 0 } }
{
    MemSource::new(bytes)
}

/// Opens a file as a source. No byte is requested. It is not claimed to be honest.
///
/// Returns `SourceFault` if the file cannot be opened, is a folder, or has no known length.
pub fn file_source<R: rt::Files + AllocGlobal>(
    rt: &R,
    path: &str,
) -> Result<FileSource<R::File>, SourceFault>
    ensures { IfOk result (λ source. IsFresh (⟦<FileSource<R::File> as Source>⟧.device source)) }
{
    FileSource::open(rt, path)
}

/// Puts a fuse on a source: its first calls of `size` and `fill_at`, `calls` of them, are passed
/// on, and all later ones fail. For tests.
pub fn fuse_source<S: Source>(source: S, calls: u64) -> FuseSource<S>
    ensures { ⟦<FuseSource<S> as Source>⟧.device result ≡ S.device source }
{
    FuseSource::new(source, calls)
}

// Outputs.

/// Creates an output to a writer, with no failed write yet.
pub fn out_of<W: Write>(writer: W) -> Out<W>
    ensures { result ≡ record { contents = W.contents writer; faults = 0 } }
{
    Out::new(writer)
}

/// Returns the writer of an output, with all that was written to it.
pub fn into_inner<W: Write>(out: Out<W>) -> W
    ensures { W.contents result ≡ out.contents }
{
    out.into_inner()
}

/// Writes all the bytes to an output.
///
/// Returns `PutFault` if and only if `write` returned an error or accepted nothing. Then the count
/// of failed writes rose, and a prefix of the bytes was written.
pub fn put_all<W: Write>(out: &mut Out<W>, bytes: &[u8]) -> Result<(), PutFault>
    ensures all { OnOk result (AppendsAll out.old out.new bytes.now) }
    ensures prefix { AppendsPrefix out.old out.new bytes.now }
    ensures faults { RisesIf (is_err result) out.old.faults out.new.faults }
{
    out.put_all(bytes)
}

/// Puts a fuse on a writer: it accepts `bytes` bytes in all, then fails. For tests.
pub fn fuse_writer<W: Write>(writer: W, bytes: u64) -> FuseWriter<W>
    ensures { ⟦<FuseWriter<W> as Write>⟧.contents result ≡ W.contents writer }
{
    FuseWriter::new(writer, bytes)
}

// Shelves.

/// Ends the writing to a shelf and returns what was written as a source, with no byte requested. An
/// honest shelf returns an honest source of exactly the written bytes.
///
/// Returns `SourceFault` if what was written cannot be read.
pub fn keep<H: Shelf>(shelf: H) -> Result<H::Kept, SourceFault>
    ensures bytes { IsTrue H.honest →
        IfOk result (λ kept. H.contents shelf ≡ Some (H.Kept.device kept).bytes) }
    ensures honest { IsTrue H.honest →
        IfOk result (λ kept. IsTrue (H.Kept.device kept).honest) }
    ensures fresh { IfOk result (λ kept. IsFresh (H.Kept.device kept)) }
{
    shelf.keep()
}

/// Creates an empty shelf in memory.
pub fn mem_shelf<A: Allocator>(alloc: A) -> MemShelf<A>
    ensures { ⟦<MemShelf<A> as Write>⟧.contents result ≡ Some [] }
{
    MemShelf::new(alloc)
}

/// Returns what was written to a shelf in memory as an honest source. It never fails.
pub fn mem_keep<A: Allocator>(shelf: MemShelf<A>) -> Result<MemKept<A>, SourceFault>
    ensures ok { IsOk result }
    ensures bytes { IfOk result (λ kept. ⟦<MemShelf<A> as Write>⟧.contents shelf
        ≡ Some (⟦<MemKept<A> as Source>⟧.device kept).bytes) }
    ensures honest { IfOk result (λ kept. IsTrue (⟦<MemKept<A> as Source>⟧.device kept).honest) }
{
    shelf.keep()
}

/// Creates a shelf in a file. The first write creates the file. It is not claimed to be honest.
pub fn file_shelf<'a, R: rt::Files + AllocGlobal>(rt: &'a R, path: &'a str) -> FileShelf<'a, R>
    ensures { result.file ≡ None }
{
    FileShelf::new(rt, path)
}

// Files.

/// Opens a file by name as a source, with no byte requested. Honest files open an honest source of
/// the bytes at the name.
///
/// Returns `SourceFault` only if the count of refused opens rose.
pub fn open<F: Files>(files: &mut F, name: &[u8]) -> Result<F::Opened, SourceFault>
    ensures opened { IfOk result (λ opened.
        Opens (F.map files.old) name.now (F.Opened.device opened)) }
    ensures same { SameFiles (F.map files.old) (F.map files.new) }
    ensures refusals { RisesIf (is_err result) (F.map files.old).refusals
        (F.map files.new).refusals }
{
    files.open(name)
}

/// Creates files in memory: pairs of a name and its bytes. Of equal names, the first counts. They
/// are honest.
pub fn mem_files<'a>(files: &'a [(&'a [u8], &'a [u8])]) -> MemFiles<'a>
    ensures { ⟦<MemFiles<'a> as Files>⟧.map result ≡ record {
      bytes = λ name. bytes_named name files.now;
      honest = true;
      complete = true;
      refusals = 0;
      opened = [];
    } }
{
    MemFiles::new(files)
}

/// Puts a fuse on files. Opens are counted from 0. Open number `from` and all later ones are
/// refused, and open number `turn` returns a source that fails after `calls` calls. For tests.
pub fn fuse_files<F: Files>(files: F, from: u64, turn: u64, calls: u64) -> FuseFiles<F>
    ensures { ⟦<FuseFiles<F> as Files>⟧.map result
        ≡ record (F.map files) { complete = false; refusals = 0; opened = [] } }
{
    FuseFiles::new(files, from, turn, calls)
}
