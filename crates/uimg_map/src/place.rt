//! Where a row is, as text.

ghost use Rattle.std.specs.Prelude.{Some};
ghost use Rattle.uimg_map.specs.Lines.{place_text};

use crate::row::Row;
use std::fmt;
use std::fmt::{Display, Formatter, Write};

/// Where a row begins and ends, in hexadecimal, and its size.
#[derive(Clone, Copy, Debug)]
pub(crate) struct Place<'a>(pub(crate) &'a Row);

impl<'a> Display for Place<'a> {
    ghost output = { λ it. Some (place_text it.0.now) };

    #[tactic(auto, unfolding(crate::specs::Lines::place_text))]
    fn fmt<W: Write>(&self, f: &mut Formatter<W>) -> fmt::Result {
        let (place, end) = (self.0.place(), self.0.end());
        let size = end.saturating_sub(place);
        write!(f, "{place:08x}-{end:08x} {size:>9} ")
    }
}
