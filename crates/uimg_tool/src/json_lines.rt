//! Lines of JSON in which all control characters are escaped.

ghost use Rattle.std.specs.Prelude.{◌≡◌, ◌<◌, false, OnOk};
ghost use Rattle.std.specs.Fmt.{digit_glyph};
ghost use Rattle.std.specs.Io.KnownBytes.{Appends};
ghost use Rattle.uimg_tool.specs.JsonLines.{is_control, escape_of, shown, shown_from, shown_line};

use std::io;
use std::io::Write;

// The first of the two bytes of a character from U+0080 to U+00BF in UTF-8, which the second one
// numbers.
const LEAD: u8 = 0xc2;

/// A writer of JSON texts. A JSON text may have DEL and the characters U+0080 to U+009F as they are
/// (RFC 8259, section 7). They are escaped, and no terminal takes them for commands.
#[derive(Drop)]
pub(crate) struct JsonOut<'a, W: Write> {
    out: &'a mut W,
    is_after_lead: bool,
}

impl<'a, W: Write> JsonOut<'a, W> {
    pub(crate) fn new(out: &'a mut W) -> JsonOut<'a, W> {
        JsonOut {
            out,
            is_after_lead: false,
        }
    }
}

impl<'a, W: Write> Write for JsonOut<'a, W> {
    fn write(&mut self, buf: &[u8]) -> io::Result<usize> {
        put_text(buf, self.is_after_lead, self.out)?;
        if let Some(last) = buf.last() {
            self.is_after_lead = *last == LEAD;
        }
        Ok(buf.len())
    }

    fn flush(&mut self) -> io::Result<()> {
        self.out.flush()
    }
}

/// Escapes as `JsonOut` does.
pub(crate) fn put_json<W: Write>(text: &[u8], out: &mut W) -> io::Result<()>
    ensures { OnOk result (Appends (W.contents out.old) (W.contents out.new)
        (shown_line text.now)) }
{
    put_text(text, false, out)?;
    out.write_all(b"\n")
}

// The byte is DEL, or ends one of U+0080 to U+009F.
fn is_control(byte: u8, is_after_lead: bool) -> bool
    ensures { result ≡ is_control is_after_lead byte }
{
    byte == 0x7f || is_after_lead && 0x80 <= byte && byte <= 0x9f
}

fn digit(value: u8) -> u8
    requires { value < 16 }
    ensures { result ≡ digit_glyph false value }
{
    if value < 10 {
        b'0' + value
    } else {
        b'a' - 10 + value
    }
}

// The character is below U+0100.
fn escape(byte: u8) -> [u8; 6]
    ensures { result ≡ escape_of byte }
{
    [b'\\', b'u', b'0', b'0', digit(byte / 16), digit(byte % 16)]
}

// Writes a lead byte together with the one after it.
#[tactic(auto, unfolding(crate::specs::JsonLines::shown))]
fn put_byte<W: Write>(byte: u8, is_after_lead: bool, out: &mut W) -> io::Result<()>
    ensures { OnOk result (Appends (W.contents out.old) (W.contents out.new)
        (shown is_after_lead byte)) }
{
    if byte == LEAD {
        return out.write_all(&[]);
    }
    if is_control(byte, is_after_lead) {
        return out.write_all(&escape(byte));
    }
    if is_after_lead {
        return out.write_all(&[LEAD, byte]);
    }
    out.write_all(&[byte])
}

fn put_text<W: Write>(text: &[u8], is_after_lead: bool, out: &mut W) -> io::Result<()>
    ensures { OnOk result (Appends (W.contents out.old) (W.contents out.new)
        (shown_from is_after_lead text.now)) }
{
    let mut lead = is_after_lead;
    for byte in text {
        put_byte(*byte, lead, out)?;
        lead = *byte == LEAD;
    }
    Ok(())
}
