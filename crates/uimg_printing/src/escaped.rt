//! Texts in XML documents.

ghost use Rattle.std.specs.{Prelude.{◌≡◌, Some, chars}, Fmt.WritesOnOk, List.flat_map};
ghost use Rattle.uimg_printing.specs.Escaping.{escaped, escaped_letter, held, is_unheld};

use crate::printed::put_bytes;
use std::fmt;
use std::fmt::{Display, Formatter, Write};

/// A text in an XML document, between tags or in quotes as the value of an attribute. Written as
/// entities are `&`, `<`, `>` and quotes. Written as `\xNN`, byte by byte, are the characters that XML
/// 1.0 cannot have, tabs and line ends. So the text begins and ends no tag and no attribute
/// (`proofs/EscapingLaws.antt`).
#[derive(Clone, Copy, Debug)]
pub struct Escaped<'a>(pub &'a str);

impl<'a> Display for Escaped<'a> {
    ghost output = { λ text. Some (escaped text.0.now) };

    #[tactic(auto, unfolding(crate::specs::Escaping::escaped))]
    fn fmt<W: Write>(&self, f: &mut Formatter<W>) -> fmt::Result {
        put_text(self.0, f)
    }
}

fn put_text<W: Write>(text: &str, f: &mut Formatter<W>) -> fmt::Result
    ensures { WritesOnOk W.Write.write_str_gives f.old result
        (flat_map escaped_letter (chars text.now)) f.new }
{
    let mut rest = text.chars();
    while let Some(letter) = rest.next() {
        put_letter(letter, f)?;
    }
    Ok(())
}

#[tactic(auto, unfolding(crate::specs::Escaping::escaped_letter))]
fn put_letter<W: Write>(letter: char, f: &mut Formatter<W>) -> fmt::Result
    ensures { WritesOnOk W.Write.write_str_gives f.old result (escaped_letter letter) f.new }
{
    if letter == '&' {
        f.write_str("&amp;")
    } else if letter == '<' {
        f.write_str("&lt;")
    } else if letter == '>' {
        f.write_str("&gt;")
    } else if letter == '"' {
        f.write_str("&quot;")
    } else if letter == '\'' {
        f.write_str("&apos;")
    } else {
        put_held(letter, f)
    }
}

fn is_unheld(letter: char) -> bool
    ensures { result ≡ is_unheld letter }
{
    letter < ' ' || letter == '\u{fffe}' || letter == '\u{ffff}'
}

#[tactic(auto, unfolding(crate::specs::Escaping::held))]
fn put_held<W: Write>(letter: char, f: &mut Formatter<W>) -> fmt::Result
    ensures { WritesOnOk W.Write.write_str_gives f.old result (held letter) f.new }
{
    if is_unheld(letter) {
        let mut bytes = [0; 4];
        put_bytes(letter.encode_utf8(&mut bytes).as_bytes(), f)
    } else {
        f.write_char(letter)
    }
}
