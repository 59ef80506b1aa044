//! Text in XML (Extensible Markup Language 1.0).

use std::fmt;
use std::fmt::{Display, Formatter, Write};

/// A text, with its letters escaped (sections 2.2 and 2.4).
#[derive(Clone, Copy, Debug)]
pub(crate) struct Escaped<'a>(pub(crate) &'a str);

impl<'a> Display for Escaped<'a> {
    fn fmt<W: Write>(&self, f: &mut Formatter<W>) -> fmt::Result {
        put_text(self.0, f)
    }
}

/// A text of at most so many characters, escaped, or the beginning of a longer one, with an ellipsis.
#[derive(Clone, Copy, Debug)]
pub(crate) struct Cut<'a> {
    pub(crate) text: &'a str,
    pub(crate) most: usize,
}

impl<'a> Display for Cut<'a> {
    fn fmt<W: Write>(&self, f: &mut Formatter<W>) -> fmt::Result {
        if fits(self.text, self.most) {
            return put_text(self.text, f);
        }
        put_first(self.text, self.most.saturating_sub(1), f)?;
        f.write_char('\u{2026}')
    }
}

pub(crate) fn fits(text: &str, most: usize) -> bool {
    text.chars().count() <= most
}

fn put_text<W: Write>(text: &str, f: &mut Formatter<W>) -> fmt::Result {
    let mut rest = text.chars();
    while let Some(letter) = rest.next() {
        put_letter(letter, f)?;
    }
    Ok(())
}

fn put_first<W: Write>(text: &str, count: usize, f: &mut Formatter<W>) -> fmt::Result {
    let mut rest = text.chars();
    for _left in 0..count {
        let Some(letter) = rest.next() else {
            return Ok(());
        };
        put_letter(letter, f)?;
    }
    Ok(())
}

fn put_letter<W: Write>(letter: char, f: &mut Formatter<W>) -> fmt::Result {
    match letter {
        '&' => f.write_str("&amp;"),
        '<' => f.write_str("&lt;"),
        '>' => f.write_str("&gt;"),
        '\u{fffe}' | '\u{ffff}' => f.write_str("?"),
        _ => f.write_char(letter),
    }
}
