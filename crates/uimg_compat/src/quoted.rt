//! Texts in image-tree source.

ghost use Rattle.std.specs.Prelude.{Some};
ghost use Rattle.std.specs.Fmt.{WritesOnOk};
ghost use Rattle.uimg_compat.specs.ImageTree.{escaped, escaped_byte, quoted};

use std::fmt;
use std::fmt::{Display, Formatter, Write};
use uimg_printing::Hexadecimal;

/// A text on one line: each byte that is not a printable ASCII letter, or is a quote or a
/// backslash, is printed as `\xNN`.
#[derive(Clone, Copy, Debug)]
pub struct Escaped<'a>(pub &'a [u8]);

impl<'a> Display for Escaped<'a> {
    ghost output = { λ it. Some (escaped it.0.now) };

    fn fmt<W: Write>(&self, f: &mut Formatter<W>) -> fmt::Result {
        put_escaped(self.0, f)
    }
}

/// The same in quotes, as in image-tree source.
#[derive(Clone, Copy, Debug)]
pub struct Quoted<'a>(pub &'a [u8]);

impl<'a> Display for Quoted<'a> {
    ghost output = { λ it. Some (quoted it.0.now) };

    fn fmt<W: Write>(&self, f: &mut Formatter<W>) -> fmt::Result {
        write!(f, "\"{}\"", Escaped(self.0))
    }
}

#[tactic(auto, unfolding(crate::specs::ImageTree::escaped))]
fn put_escaped<W: Write>(text: &[u8], f: &mut Formatter<W>) -> fmt::Result
    ensures { WritesOnOk W.Write.write_str_gives f.old result (escaped text.now) f.new }
{
    for byte in text {
        put_byte(*byte, f)?;
    }
    Ok(())
}

fn put_byte<W: Write>(byte: u8, f: &mut Formatter<W>) -> fmt::Result
    ensures { WritesOnOk W.Write.write_str_gives f.old result (escaped_byte byte) f.new }
{
    if byte < b' ' || byte > b'~' || byte == b'"' || byte == b'\\' {
        return write!(f, "\\x{}", Hexadecimal(&[byte]));
    }
    f.write_char(byte as char)
}
