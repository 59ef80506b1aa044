//! Files as values of a blob, copied through a window.

ghost use Rattle.std.specs.Prelude.{◌≡◌, ◌≤◌, ◌+◌, ◌∷◌, [], length, OnOk, is_err, false};
ghost use Rattle.uimg_base.specs.{Honest.HonestSource, Device.RisesIf, Writing.Written};
ghost use Rattle.uimg_blob_writing.specs.{Content.file, Faults.{is_put, is_read, is_no_file}};
ghost use Rattle.uimg_blob_writing.specs.Pieces.{WritesPieces};

use crate::fault::TreeFault;
use std::io::Write;
use uimg_base::{Files, Out, Source, WINDOW, copy_through};

// Writes all of a source that has `size` bytes. A source of another size counts as a failed read.
// If it has `size` bytes, returns `Read` if and only if the source failed.
fn put_source<S: Source, W: Write>(
    source: &mut S,
    size: u64,
    window: &mut [u8; WINDOW],
    out: &mut Out<W>,
) -> Result<(), TreeFault>
    ensures opened { is_no_file result ≡ false }
    ensures asked { (S.device source.new).asked ≤ (S.device source.old).asked + size }
    ensures sized { OnOk result (length (S.device source.old).bytes ≡ size) }
    ensures failures { length (S.device source.old).bytes ≡ size →
        RisesIf (is_read result) (S.device source.old).failures (S.device source.new).failures }
    ensures faults { RisesIf (is_put result) out.old.faults out.new.faults }
    ensures written { HonestSource S.device source →
        Written (is_err result) out.old out.new (S.device source.old).bytes }
{
    if source.size()? != size {
        return Err(TreeFault::Read);
    }
    copy_through(source, window, 0, size, out)?;
    Ok(())
}

// Not inlined, to keep its window and its source out of the frames of recursive functions.
#[inline(never)]
pub(crate) fn put_file<F: Files, W: Write>(
    name: &[u8],
    size: u64,
    files: &mut F,
    window: &mut [u8; WINDOW],
    out: &mut Out<W>,
) -> Result<(), TreeFault>
    ensures { WritesPieces F.Opened.steady result (F.map files.old) (F.map files.new)
        out.old out.new
        (file name.now size ∷ []) }
{
    let Ok(mut source) = files.open(name) else {
        return Err(TreeFault::NoFile);
    };
    put_source(&mut source, size, window, out)
}
