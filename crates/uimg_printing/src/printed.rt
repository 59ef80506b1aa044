//! Names in lines of text.

ghost use Rattle.std.specs.{Prelude.{◌≡◌, Some, true, false, chars}, Fmt.WritesOnOk, List.flat_map};
ghost use Rattle.uimg_printing.specs.Printing.{byte_text, ends_word, letter_text, odd_text, printed};

use crate::digits::put_digits;
use crate::hidden::is_hidden;
use std::fmt;
use std::fmt::{Display, Formatter, Write};

/// A name in a line of text. Printed as `\xNN`, byte by byte, are: backslashes; characters that are
/// control characters, end a line, change its direction or are not visible; and, in a name that is
/// not UTF-8, every byte that is not ASCII. The text never has a byte below 32 or a DEL
/// (`proofs/ShownLaws.antt`).
#[derive(Clone, Copy, Debug)]
pub struct Printed<'a>(pub &'a [u8]);

impl<'a> Display for Printed<'a> {
    ghost output = { λ name. Some (printed false name.0.now) };

    fn fmt<W: Write>(&self, f: &mut Formatter<W>) -> fmt::Result {
        put_name(self.0, false, f)
    }
}

/// A name that is one word of a line: as `Printed`, with spaces, colons and commas as `\xNN` too.
#[derive(Clone, Copy, Debug)]
pub struct PrintedWord<'a>(pub &'a [u8]);

impl<'a> Display for PrintedWord<'a> {
    ghost output = { λ name. Some (printed true name.0.now) };

    fn fmt<W: Write>(&self, f: &mut Formatter<W>) -> fmt::Result {
        put_name(self.0, true, f)
    }
}

#[tactic(auto, unfolding(crate::specs::Printing::printed))]
fn put_name<W: Write>(name: &[u8], is_word: bool, f: &mut Formatter<W>) -> fmt::Result
    ensures { WritesOnOk W.Write.write_str_gives f.old result (printed is_word name.now) f.new }
{
    match str::from_utf8(name) {
        Ok(text) => put_text(text, is_word, f),
        Err(_) => put_odd(name, is_word, f),
    }
}

fn put_text<W: Write>(text: &str, is_word: bool, f: &mut Formatter<W>) -> fmt::Result
    ensures { WritesOnOk W.Write.write_str_gives f.old result
        (flat_map (letter_text is_word) (chars text.now)) f.new }
{
    let mut rest = text.chars();
    while let Some(letter) = rest.next() {
        put_letter(letter, is_word, f)?;
    }
    Ok(())
}

// Writes a name that is not UTF-8.
fn put_odd<W: Write>(name: &[u8], is_word: bool, f: &mut Formatter<W>) -> fmt::Result
    ensures { WritesOnOk W.Write.write_str_gives f.old result
        (flat_map (odd_text is_word) name.now) f.new }
{
    for byte in name {
        put_odd_byte(*byte, is_word, f)?;
    }
    Ok(())
}

#[tactic(auto, unfolding(crate::specs::Printing::odd_text))]
fn put_odd_byte<W: Write>(byte: u8, is_word: bool, f: &mut Formatter<W>) -> fmt::Result
    ensures { WritesOnOk W.Write.write_str_gives f.old result (odd_text is_word byte) f.new }
{
    if byte < 128 {
        put_letter(byte as char, is_word, f)
    } else {
        put_byte(byte, f)
    }
}

fn ends_word(letter: char) -> bool
    ensures { result ≡ ends_word letter }
{
    letter == ' ' || letter == ':' || letter == ','
}

#[tactic(auto, unfolding(crate::specs::Printing::letter_text))]
fn put_letter<W: Write>(letter: char, is_word: bool, f: &mut Formatter<W>) -> fmt::Result
    ensures { WritesOnOk W.Write.write_str_gives f.old result (letter_text is_word letter) f.new }
{
    if is_hidden(letter) || (is_word && ends_word(letter)) {
        let mut bytes = [0; 4];
        put_bytes(letter.encode_utf8(&mut bytes).as_bytes(), f)
    } else {
        f.write_char(letter)
    }
}

pub(crate) fn put_bytes<W: Write>(bytes: &[u8], f: &mut Formatter<W>) -> fmt::Result
    ensures { WritesOnOk W.Write.write_str_gives f.old result (flat_map byte_text bytes.now) f.new }
{
    for byte in bytes {
        put_byte(*byte, f)?;
    }
    Ok(())
}

fn put_byte<W: Write>(byte: u8, f: &mut Formatter<W>) -> fmt::Result
    ensures { WritesOnOk W.Write.write_str_gives f.old result (byte_text byte) f.new }
{
    f.write_str("\\x")?;
    put_digits(byte, f)
}
