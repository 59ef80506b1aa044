//! FIT images that are made from image-tree source.
ghost use Rattle.std.specs.Prelude.{◌≡◌, ◌∷◌, false, Some, is_err, IsTrue, IfErr};
ghost use Rattle.uimg_base.specs.Honest.{HonestSource};
ghost use Rattle.uimg_blob_writing.specs.{Trees.node_of, UsingFiles.UsesFiles};
ghost use Rattle.uimg_engine.specs.Faults.{LosesNothing, is_unread, is_lost_payload, is_put, is_keep, is_no_file, is_no_text, is_no_payload};
ghost use Rattle.uimg_engine.specs.Commands.{HonestFiles, LacksSource, OpensSource};
ghost use Rattle.uimg_engine.specs.{Making.WritesImage, OpenedFiles.{made, OpensToFill, OpensFrom}};
ghost use Rattle.uimg_engine.specs.MakingTrees.{ReadsSourceText, ReadsTree, BuildsSource};

use crate::fault::Fault;
use std::alloc::Allocator;
use std::io::Write;
use uimg_base::{Files, MoveFault, Out, Source, WINDOW, copy_through};
use uimg_blob_writing::Tree;
use uimg_fit_base::AlignedPlacement;
use uimg_fit_building::{build_by, fill};
use uimg_its::compile;

/// Reads the text of a source: all its bytes.
///
/// - `Read`: a read failed.
/// - `OutOfMemory`: memory for the text was refused.
// Not inlined, so that its window is in no stack frame below which the source is compiled.
#[inline(never)]
pub fn whole_text<S: Source, A: Allocator>(alloc: A, source: &mut S) -> Result<Vec<u8, A>, Fault>
    ensures text { HonestSource S.device source →
        ReadsSourceText (λ text. text.items) (Some (S.device source.old).bytes) result }
    ensures steady { IsTrue S.steady → is_unread result ≡ false }
    ensures only_reads { (is_put result ≡ false) × (is_keep result ≡ false)
        × (is_no_file result ≡ false) × (is_no_text result ≡ false)
        × (is_no_payload result ≡ false) × (is_lost_payload result ≡ false) }
{
    let size = source.size()?;
    let mut window = [0; WINDOW];
    let mut text = Out::new(Vec::new(alloc));
    match copy_through(source, &mut window, 0, size, &mut text) {
        Ok(()) => Ok(text.into_inner()),
        Err(MoveFault::Read) => Err(Fault::Read),
        Err(MoveFault::Put) => Err(Fault::OutOfMemory),
    }
}

fn read_text<F: Files, A: Allocator>(
    alloc: A,
    name: &[u8],
    files: &mut F,
) -> Result<Vec<u8, A>, Fault>
    ensures files { UsesFiles (is_no_file result) (F.map files.old) (F.map files.new) }
    ensures noted { (F.map files.new).opened ≡ name.now ∷ (F.map files.old).opened }
    ensures missing { IsTrue (F.map files.old).complete →
        IfErr result (LacksSource (F.map files.old).bytes name.now) }
    ensures text { HonestFiles F.map files →
        ReadsSourceText (λ text. text.items) ((F.map files.old).bytes name.now) result }
    ensures steady { IsTrue F.Opened.steady → is_unread result ≡ false }
    ensures only_opens { (is_put result ≡ false) × (is_keep result ≡ false)
        × (is_no_text result ≡ is_no_file result) × (is_no_payload result ≡ false)
        × (is_lost_payload result ≡ false) }
{
    match files.open(name) {
        Ok(mut source) => whole_text(alloc, &mut source),
        Err(_) => Err(Fault::NoFile(0)),
    }
}

fn filled_tree<F: Files, A: Allocator + Copy>(
    alloc: A,
    name: &[u8],
    time: u32,
    files: &mut F,
) -> Result<Tree<A>, Fault>
    ensures files { OpensSource name.now result (F.map files.old) (F.map files.new) }
    ensures opened { OpensToFill name.now time (made (λ tree. node_of tree.root) result)
        (is_err result) (F.map files.old) (F.map files.new) }
    ensures tree { HonestFiles F.map files →
        ReadsTree (λ tree. node_of tree.root) (F.map files.old).bytes name.now time result }
    ensures steady { IsTrue F.Opened.steady → is_unread result ≡ false }
    ensures payloads { IsTrue F.Opened.steady → HonestFiles F.map files →
        is_lost_payload result ≡ false }
    ensures only_reads { (is_put result ≡ false) × (is_keep result ≡ false) }
{
    let text = read_text(alloc, name, files)?;
    let tree = compile(alloc, &text, files)?;
    drop(text);
    let filled = fill(alloc, tree, time, files)?;
    Ok(filled)
}

pub(crate) fn build_tree<F: Files, W: Write, A: Allocator + Copy>(
    alloc: A,
    name: &[u8],
    placement: AlignedPlacement,
    time: u32,
    files: &mut F,
    image: &mut Out<W>,
) -> Result<(), Fault>
    ensures built { HonestFiles F.map files →
        BuildsSource (F.map files.old).bytes name.now time placement result image.old image.new }
    ensures files { OpensSource name.now result (F.map files.old) (F.map files.new) }
    ensures opened { OpensFrom name.now time placement (is_err result)
        (F.map files.old) (F.map files.new) }
    ensures image { WritesImage result image }
    ensures steady { IsTrue F.Opened.steady → HonestFiles F.map files → LosesNothing result }
{
    let tree = filled_tree(alloc, name, time, files)?;
    build_by(alloc, &tree, files, placement, image)?;
    Ok(())
}
