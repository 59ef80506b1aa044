//! Counts with a noun, and bytes in hexadecimal.

ghost use Rattle.std.specs.{Prelude.Some, Fmt.WritesOnOk, List.flat_map};
ghost use Rattle.uimg_printing.specs.{Counting.counted, Printing.digits_of};

use crate::digits::put_digits;
use std::fmt;
use std::fmt::{Display, Formatter, Write};

/// A count with its noun: `1 hash`, `2 hashes`.
#[derive(Clone, Copy, Debug)]
pub struct Counted {
    /// The count.
    pub count: u64,

    /// The noun in the singular.
    pub one: &'static str,

    /// The noun in the plural.
    pub many: &'static str,
}

impl Display for Counted {
    ghost output = { λ it. Some (counted it.count it.one.now it.many.now) };

    #[tactic(auto, unfolding(crate::specs::Counting::counted))]
    fn fmt<W: Write>(&self, f: &mut Formatter<W>) -> fmt::Result {
        let word = if self.count == 1 { self.one } else { self.many };
        write!(f, "{} {word}", self.count)
    }
}

/// Bytes in hexadecimal, two lowercase digits each.
#[derive(Clone, Copy, Debug)]
pub struct Hexadecimal<'a>(pub &'a [u8]);

impl<'a> Display for Hexadecimal<'a> {
    ghost output = { λ it. Some (flat_map digits_of it.0.now) };

    fn fmt<W: Write>(&self, f: &mut Formatter<W>) -> fmt::Result {
        put_all(self.0, f)
    }
}

fn put_all<W: Write>(bytes: &[u8], f: &mut Formatter<W>) -> fmt::Result
    ensures { WritesOnOk W.Write.write_str_gives f.old result (flat_map digits_of bytes.now) f.new }
{
    for byte in bytes {
        put_digits(*byte, f)?;
    }
    Ok(())
}
