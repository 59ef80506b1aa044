//! The lines of a listing.

ghost use Rattle.std.specs.Prelude.{◌≡◌, ◌++◌, codes, is_err};
ghost use Rattle.uimg_base.specs.{Outcome.line, Writing.Writes};
ghost use Rattle.uimg_texts.specs.Sizes.{size_text};
ghost use Rattle.uimg_legacy.specs.Listing.{labelled, type_text, address_text, name_line, time_line, type_line, size_line, load_line, entry_line, head_text, part_line};

use crate::header::Header;
use itoa::Buffer;
use std::io::Write;
use uimg_base::{Out, PutFault, before_nul, size_text, time_text};
use uimg_texts::{Field, Naming};

// Eight lower-case hexadecimal digits.
fn address_text(address: u32) -> [u8; 8]
    ensures { result ≡ address_text address }
{
    let mut text = [0; 8];
    if hex::encode_to_slice(address.to_be_bytes(), &mut text).is_err() {
        unreachable!();
    }
    text
}

#[tactic(auto, using(uimg_base::proofs::WritingLaws::writing))]
fn put_size<W: Write>(before: &[u8], size: u32, out: &mut Out<W>) -> Result<(), PutFault>
    ensures { Writes (is_err result) out.old out.new (line (before.now ++ size_text size)) }
{
    out.put_all(before)?;
    size_text(size, out)?;
    out.put_all(b"\n")
}

// Blanks pad the label.
fn put_line<W: Write>(label: &[u8], value: &[u8], out: &mut Out<W>) -> Result<(), PutFault>
    ensures { Writes (is_err result) out.old out.new (line (label.now ++ value.now)) }
{
    out.put_pieces(&[label, value, b"\n"])
}

fn put_type_names<W: Write>(
    arch: &str,
    os: &str,
    kind: &str,
    comp: &str,
    out: &mut Out<W>,
) -> Result<(), PutFault>
    ensures { Writes (is_err result) out.old out.new
        (labelled (codes "Image Type:") (type_text arch.now os.now kind.now comp.now)) }
{
    out.put_pieces(&[
        b"Image Type:   ",
        arch.as_bytes(),
        b" ",
        os.as_bytes(),
        b" ",
        kind.as_bytes(),
        b" (",
        comp.as_bytes(),
        b")\n",
    ])
}

#[tactic(auto, unfolding(crate::specs::Listing::type_line))]
fn put_type<W: Write>(header: &Header, naming: Naming, out: &mut Out<W>) -> Result<(), PutFault>
    ensures { Writes (is_err result) out.old out.new (type_line naming header.now) }
{
    let arch = naming.code_text(Field::Architecture, header.arch);
    let os = naming.code_text(Field::System, header.os);
    let kind = naming.code_text(Field::Kind, header.kind);
    let comp = naming.code_text(Field::Compression, header.comp);
    put_type_names(arch, os, kind, comp, out)
}

#[tactic(auto, unfolding(crate::specs::Listing::name_line))]
fn put_name<W: Write>(header: &Header, out: &mut Out<W>) -> Result<(), PutFault>
    ensures { Writes (is_err result) out.old out.new (name_line header.now) }
{
    put_line(b"Image Name:   ", before_nul(&header.name), out)
}

#[tactic(auto, unfolding(crate::specs::Listing::time_line))]
fn put_time<W: Write>(header: &Header, out: &mut Out<W>) -> Result<(), PutFault>
    ensures { Writes (is_err result) out.old out.new (time_line header.now) }
{
    put_line(b"Created:      ", &time_text(header.time), out)
}

#[tactic(auto, unfolding(crate::specs::Listing::size_line))]
fn put_data_size<W: Write>(header: &Header, out: &mut Out<W>) -> Result<(), PutFault>
    ensures { Writes (is_err result) out.old out.new (size_line header.now) }
{
    put_size(b"Data Size:    ", header.size, out)
}

#[tactic(auto, unfolding(crate::specs::Listing::load_line))]
fn put_load<W: Write>(header: &Header, out: &mut Out<W>) -> Result<(), PutFault>
    ensures { Writes (is_err result) out.old out.new (load_line header.now) }
{
    put_line(b"Load Address: ", &address_text(header.load), out)
}

#[tactic(auto, unfolding(crate::specs::Listing::entry_line))]
fn put_entry<W: Write>(header: &Header, out: &mut Out<W>) -> Result<(), PutFault>
    ensures { Writes (is_err result) out.old out.new (entry_line header.now) }
{
    put_line(b"Entry Point:  ", &address_text(header.ep), out)
}

#[tactic(auto, unfolding(crate::specs::Listing::part_line))]
pub(crate) fn put_part_line<W: Write>(i: u32, size: u32, out: &mut Out<W>) -> Result<(), PutFault>
    ensures { Writes (is_err result) out.old out.new (part_line i size) }
{
    out.put_pieces(&[b"   Image ", Buffer::new().format(i).as_bytes(), b": "])?;
    put_size(b"", size, out)
}

// Writes the six lines that each image has.
#[tactic(auto, using(uimg_base::proofs::WritingLaws::writing))]
pub(crate) fn put_head<W: Write>(
    header: &Header,
    naming: Naming,
    out: &mut Out<W>,
) -> Result<(), PutFault>
    ensures { Writes (is_err result) out.old out.new (head_text naming header.now) }
{
    put_name(header, out)?;
    put_time(header, out)?;
    put_type(header, naming, out)?;
    put_data_size(header, out)?;
    put_load(header, out)?;
    put_entry(header, out)
}
