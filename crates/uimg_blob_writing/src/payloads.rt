//! Writing of a value with its padding.

ghost use Rattle.std.specs.Prelude.{◌≡◌, ◌∷◌, []};
ghost use Rattle.uimg_blob_writing.specs.{Alignment.padding_by, Content.{bytes, size_of}};
ghost use Rattle.uimg_blob_writing.specs.{Pieces.WritesPieces, Properties.content};

use crate::alignment::put_gap;
use crate::fault::TreeFault;
use crate::file_pieces::put_file;
use crate::props::Value;
use std::alloc::Allocator;
use std::io::Write;
use uimg_base::{Files, Out, WINDOW};

#[tactic(auto, using(crate::proofs::OpenedLaws::each_none))]
fn put_value<F: Files, W: Write, A: Allocator>(
    value: &Value<A>,
    files: &mut F,
    window: &mut [u8; WINDOW],
    out: &mut Out<W>,
) -> Result<(), TreeFault>
    ensures { WritesPieces F.Opened.steady result (F.map files.old) (F.map files.new)
        out.old out.new (content value.now ∷ []) }
{
    match value {
        Value::Bytes(list) => {
            out.put_all(list.items())?;
            Ok(())
        }
        Value::File { name, size } => put_file(name.items(), *size, files, window, out),
    }
}

/// Returns the size of a value in bytes; for a file, the size that the tree stores.
pub fn value_size<A: Allocator>(value: &Value<A>) -> u64
    ensures { result ≡ size_of (content value.now) }
{
    match value {
        Value::Bytes(list) => list.items().len() as u64,
        Value::File { name: _, size } => *size,
    }
}

/// Writes a value and the zeros that pad it to an alignment.
///
/// A file is opened and copied through the window, never held in memory as a whole. If its size is
/// not the stored one, that counts as a failed read, before any of its bytes is written. Over
/// honest files of the stored sizes all was written, or at a fault a prefix.
///
/// - `Put`: if and only if a write failed.
/// - `NoFile`: if and only if an open was refused.
pub fn put_aligned<F: Files, W: Write, A: Allocator>(
    value: &Value<A>,
    align: u32,
    files: &mut F,
    window: &mut [u8; WINDOW],
    out: &mut Out<W>,
) -> Result<(), TreeFault>
    ensures { WritesPieces F.Opened.steady result (F.map files.old) (F.map files.new)
        out.old out.new (content value.now ∷ bytes (padding_by align (size_of (content value.now))) ∷ []) }
{
    put_value(value, files, window, out)?;
    put_gap(value_size(value), align, out)?;
    Ok(())
}
