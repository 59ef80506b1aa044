//! Writing of properties.

ghost use Rattle.std.specs.{Prelude.{◌^◌, ◌<◌, ◌∷◌, [], length}, List.{flat_map, AllByRecursion}};
ghost use Rattle.uimg_blob_writing.specs.{Content.{bytes, file, size_of}, Encoding.strings};
ghost use Rattle.uimg_blob_writing.specs.{Names.name_texts, Properties.{content, property}};
ghost use Rattle.uimg_blob_writing.specs.Pieces.{head_bytes, padding, property_pieces, WritesPieces};

use crate::fault::TreeFault;
use crate::file_pieces::put_file;
use crate::names::name_offset;
use crate::props::{Prop, Props, Value};
use crate::tokens::{put_head, put_padding, put_whole};
use std::alloc::Allocator;
use std::io::Write;
use uimg_base::{Files, Out, WINDOW};

fn put_from_file<F: Files, W: Write>(
    offset: u32,
    name: &[u8],
    size: u32,
    files: &mut F,
    window: &mut [u8; WINDOW],
    out: &mut Out<W>,
) -> Result<(), TreeFault>
    ensures { WritesPieces F.Opened.steady result (F.map files.old) (F.map files.new)
        out.old out.new
        (bytes (head_bytes size offset) ∷ file name.now size ∷ bytes (padding size) ∷ []) }
{
    put_head(size, offset, out)?;
    put_file(name, size as u64, files, window, out)?;
    put_padding(size as u64, out)?;
    Ok(())
}

fn put_property<F: Files, W: Write, A: Allocator>(
    prop: &Prop<A>,
    names: &[&[u8]],
    files: &mut F,
    window: &mut [u8; WINDOW],
    out: &mut Out<W>,
) -> Result<(), TreeFault>
    requires strings { length (strings (name_texts names.now)) < 2 ^ 32 }
    requires fits { size_of (content prop.now.value) < 2 ^ 32 }
    ensures { WritesPieces F.Opened.steady result (F.map files.old) (F.map files.new)
        out.old out.new
        (property_pieces (name_texts names.now) (property prop.now)) }
{
    let offset = name_offset(names, prop.name.items());
    match &prop.value {
        Value::Bytes(value) => {
            put_whole(offset, value.items(), out)?;
            Ok(())
        }
        Value::File { name, size } => {
            put_from_file(offset, name.items(), *size as u32, files, window, out)
        }
    }
}

pub(crate) fn put_properties<F: Files, W: Write, A: Allocator>(
    props: &Props<A>,
    names: &[&[u8]],
    files: &mut F,
    window: &mut [u8; WINDOW],
    out: &mut Out<W>,
) -> Result<(), TreeFault>
    requires strings { length (strings (name_texts names.now)) < 2 ^ 32 }
    requires fit { AllByRecursion (λ p. size_of p.value < 2 ^ 32) props.now }
    ensures { WritesPieces F.Opened.steady result (F.map files.old) (F.map files.new)
        out.old out.new
        (flat_map (property_pieces (name_texts names.now)) props.now) }
{
    for prop in props.items() {
        put_property(prop, names, files, window, out)?;
    }
    Ok(())
}
