//! The call of `uimg_its`: image-tree source, compiled to its tree.

ghost use Rattle.std.specs.Prelude.{IfOk};
ghost use Rattle.uimg_blob_reading.specs.Plain.{Nodes};
ghost use Rattle.uimg_blob_writing.specs.{Content.{AreKept, FilesAtData, in_full}, Trees.node_of};
ghost use Rattle.uimg_blob_writing.specs.{UsingFiles.UsesFiles, LentFiles.OfHonest};
ghost use Rattle.uimg_its.specs.{Words.words, Grammar.Spells, Compiled.{Accepts, finds_no_file}};

use std::alloc::Allocator;
use uimg_blob::Tree;
use uimg_its::{Files, ItsFault};

/// Compiles a source text to its tree (Devicetree Specification 0.4, chapter 6, and dtc's
/// `/incbin/`). The value of a property `data` that is one `/incbin/` stays a file, opened for its
/// size alone; any other file is read whole.
///
/// Over honest files, at `Ok` the text spells the tree, and each file of it has its stored size. If
/// the text spells a tree, that tree is returned, unless the fault is one of the last three.
///
/// - `BadToken`, `BadSyntax`, `OutOfProfile`, `BadNumber`: the text spells no tree.
/// - `NoFile`: if and only if an open was refused.
/// - `ReadFailed`: a read of an opened file failed.
/// - `OutOfMemory`: memory was refused.
pub fn compile<F: Files, A: Allocator + Copy>(
    alloc: A,
    text: &[u8],
    files: &mut F,
) -> Result<Tree<A>, ItsFault>
    ensures only { OfHonest F.map files (λ there. IfOk result (λ tree.
        Spells (words text.now) there (in_full there (node_of tree.root)))) }
    ensures accepted { OfHonest F.map files (λ there.
        (t : Nodes) → Spells (words text.now) there t → Accepts there result t) }
    ensures kept { OfHonest F.map files (λ there.
        IfOk result (λ tree. AreKept there (node_of tree.root))) }
    ensures at_data { IfOk result (λ tree. FilesAtData (node_of tree.root)) }
    ensures files { UsesFiles (finds_no_file result) (F.map files.old) (F.map files.new) }
{
    uimg_its::compile(alloc, text, files)
}
