//! The hexadecimal digits of a byte.

ghost use Rattle.std.specs.{Prelude.{◌≡◌, ◌<◌, false}, Fmt.{digit_glyph, WritesOnOk}};
ghost use Rattle.uimg_printing.specs.Printing.{digits_of};

use std::fmt;
use std::fmt::{Formatter, Write};

fn digit(value: u8) -> u8
    requires { value < 16 }
    ensures { result ≡ digit_glyph false value }
{
    if value < 10 {
        b'0' + value
    } else {
        b'a' - 10 + value
    }
}

pub(crate) fn put_digits<W: Write>(byte: u8, f: &mut Formatter<W>) -> fmt::Result
    ensures { WritesOnOk W.Write.write_str_gives f.old result (digits_of byte) f.new }
{
    f.write_char(digit(byte / 16) as char)?;
    f.write_char(digit(byte % 16) as char)
}
