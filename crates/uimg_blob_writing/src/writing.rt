//! Writing of a tree's blob.

ghost use Rattle.std.specs.Prelude.{◌≡◌, ◌<◌, ◌^◌, length, is_err};
ghost use Rattle.uimg_base.specs.Writing.{Writes};
ghost use Rattle.uimg_blob_writing.specs.Encoding.{with_nul, header, strings, structure_offset};
ghost use Rattle.uimg_blob_writing.specs.{Names.name_texts, TreeWriting.WritesTree};
ghost use Rattle.uimg_blob_writing.specs.Layouts.{plan_with, totalsize};
ghost use Rattle.uimg_blob_writing.specs.{Pieces.{blob_pieces, WritesPieces}, Trees.node_of};

use crate::alignment::put_zeros;
use crate::fault::TreeFault;
use crate::layout::{Layout, RESERVATION_OFFSET};
use crate::nodes::{ThisNode, put_node};
use crate::reservation::put_reservations;
use crate::tokens::put_end;
use crate::tree::Tree;
use std::alloc::Allocator;
use std::io::Write;
use uimg_base::{Files, Out, PutFault, WINDOW};
use uimg_blob_reading::BLOB_MAGIC;

// The fields of the header (Devicetree Specification, section 5.2).
const VERSION: u32 = 17;

const LAST_COMPATIBLE: u32 = 16;

const BOOT_CPU: u32 = 0;

fn put_header<W: Write, A: Allocator>(layout: &Layout<A>, out: &mut Out<W>) -> Result<(), PutFault>
    ensures { Writes (is_err result) out.old out.new
        (header (totalsize layout.now) (structure_offset layout.now.reservations)
        layout.now.structure (length (strings layout.now.names))) }
{
    let offset = layout.structure_offset();
    let structure = layout.structure_size;
    let strings = layout.strings_size;
    out.put_pieces(&[
        &BLOB_MAGIC.to_be_bytes(),
        &layout.totalsize().to_be_bytes(),
        &offset.to_be_bytes(),
        &(offset + structure).to_be_bytes(),
        &RESERVATION_OFFSET.to_be_bytes(),
        &VERSION.to_be_bytes(),
        &LAST_COMPATIBLE.to_be_bytes(),
        &BOOT_CPU.to_be_bytes(),
        &strings.to_be_bytes(),
        &structure.to_be_bytes(),
    ])
}

fn put_name<W: Write>(name: &[u8], out: &mut Out<W>) -> Result<(), PutFault>
    ensures { Writes (is_err result) out.old out.new (with_nul name.now) }
{
    out.put_pieces(&[name, &[0]])
}

fn put_strings<W: Write>(names: &[&[u8]], out: &mut Out<W>) -> Result<(), PutFault>
    ensures { Writes (is_err result) out.old out.new (strings (name_texts names.now)) }
{
    for name in names {
        put_name(name, out)?;
    }
    Ok(())
}

fn put_blob<F: Files, W: Write, A: Allocator>(
    tree: &Tree<A>,
    layout: &Layout<A>,
    files: &mut F,
    out: &mut Out<W>,
) -> Result<(), TreeFault>
    requires { layout.now ≡ plan_with layout.now.ending layout.now.reservations (node_of tree.now.root) }
    ensures fits { totalsize layout.now < 2 ^ 32 }
    ensures writes { WritesPieces F.Opened.steady result (F.map files.old) (F.map files.new)
        out.old out.new
        (blob_pieces layout.now (node_of tree.now.root)) }
{
    let mut window = [0; WINDOW];
    let names = layout.names.as_slice();
    put_header(layout, out)?;
    put_reservations(layout.reservations, out)?;
    put_node(
        ThisNode { node: &tree.root },
        names,
        files,
        &mut window,
        out,
    )?;
    put_end(out)?;
    put_strings(names, out)?;
    put_zeros(layout.room(), out)?;
    Ok(())
}

/// Writes the blob of a tree (Devicetree Specification, chapter 5). It has the header, the
/// reservation block, the nodes and properties in order, each property's name once, and zeros up to
/// the end of the blob.
///
/// The layout must be the one that `measure` or `measure_with` made of this tree. A
/// file is opened when its value is written, and copied through a window of 8192 bytes; it is never
/// held in memory as a whole. If its size is not the one that the tree stores, that counts as a
/// failed read, before any of its bytes is written.
///
/// Over honest files of the stored sizes the bytes of `encode_with` were written, or at a fault a
/// prefix of them. A file that begins with these bytes reads back as the tree. Takes no memory. Its
/// calls nest as deep as the tree.
///
/// - `Put`: if and only if a write failed. Only this refuses a tree without files.
/// - `NoFile`: if and only if an open was refused.
/// - `Read`: a read of a file failed or its size differs. This never happens over honest files of
///   the stored sizes that are opened as steady sources (those in memory).
pub fn write_tree<F: Files, W: Write, A: Allocator>(
    tree: &Tree<A>,
    layout: &Layout<A>,
    files: &mut F,
    out: &mut Out<W>,
) -> Result<(), TreeFault>
    requires { layout.now ≡ plan_with layout.now.ending layout.now.reservations (node_of tree.now.root) }
    ensures { WritesTree F.Opened.steady F.map layout.now.ending layout.now.reservations
        (node_of tree.now.root) result files out }
{
    put_blob(tree, layout, files, out)
}
