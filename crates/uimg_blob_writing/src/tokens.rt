//! Writing of the tokens of a blob.

ghost use Rattle.std.specs.Prelude.{◌≡◌, ◌++◌, ◌-◌, ◌^◌, ◌<◌, length, is_err};
ghost use Rattle.uimg_base.specs.Writing.{Writes};
ghost use Rattle.uimg_texts.specs.Numbers.{up4};
ghost use Rattle.uimg_blob_writing.specs.{Encoding.word, Pieces.{begin_bytes, head_bytes, padding}};

use std::io::Write;
use uimg_base::{Out, PutFault};

// The first words of the tokens of the structure block (Devicetree Specification, section 5.4.1).
const BEGIN_NODE: u32 = 1;

const END_NODE: u32 = 2;

const PROP: u32 = 3;

const END: u32 = 9;

// Zeros for padding: at most four end a token.
const ZEROS: [u8; 4] = [0; 4];

// Pads to a multiple of 4.
fn padding_size(size: u64) -> usize
    ensures few { result < 4 }
    ensures size { result ≡ up4 size - size }
{
    ((4 - size % 4) % 4) as usize
}

// Pads to a multiple of 4.
pub(crate) fn put_padding<W: Write>(size: u64, out: &mut Out<W>) -> Result<(), PutFault>
    ensures { Writes (is_err result) out.old out.new (padding size) }
{
    out.put_all(&ZEROS[..padding_size(size)])
}

pub(crate) fn put_begin_node<W: Write>(name: &[u8], out: &mut Out<W>) -> Result<(), PutFault>
    ensures { Writes (is_err result) out.old out.new (begin_bytes name.now) }
{
    let zeros = ZEROS;
    out.put_pieces(&[
        &BEGIN_NODE.to_be_bytes(),
        name,
        &zeros[..4 - name.len() % 4],
    ])
}

pub(crate) fn put_end_node<W: Write>(out: &mut Out<W>) -> Result<(), PutFault>
    ensures { Writes (is_err result) out.old out.new (word 2) }
{
    out.put_all(&END_NODE.to_be_bytes())
}

pub(crate) fn put_end<W: Write>(out: &mut Out<W>) -> Result<(), PutFault>
    ensures { Writes (is_err result) out.old out.new (word 9) }
{
    out.put_all(&END.to_be_bytes())
}

// Writes what comes before a property's value: the token, its size in bytes, its name's offset.
pub(crate) fn put_head<W: Write>(size: u32, offset: u32, out: &mut Out<W>) -> Result<(), PutFault>
    ensures { Writes (is_err result) out.old out.new (head_bytes size offset) }
{
    out.put_pieces(&[
        &PROP.to_be_bytes(),
        &size.to_be_bytes(),
        &offset.to_be_bytes(),
    ])
}

pub(crate) fn put_whole<W: Write>(
    offset: u32,
    value: &[u8],
    out: &mut Out<W>,
) -> Result<(), PutFault>
    requires { length value.now < 2 ^ 32 }
    ensures { Writes (is_err result) out.old out.new
        (head_bytes (length value.now) offset ++ value.now ++ padding (length value.now)) }
{
    let zeros = ZEROS;
    out.put_pieces(&[
        &PROP.to_be_bytes(),
        &(value.len() as u32).to_be_bytes(),
        &offset.to_be_bytes(),
        value,
        &zeros[..padding_size(value.len() as u64)],
    ])
}
