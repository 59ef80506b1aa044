//! Prints values as hexadecimal digits.

ghost use Rattle.std.specs.Prelude.{◌+◌, ◌≤◌, ◌++◌, length};
ghost use Rattle.hex.specs.Hex.{encode_lower};
ghost use Rattle.uimg_base.specs.Outcome.{line};
ghost use Rattle.uimg_texts.specs.Slices.{slice};
ghost use Rattle.uimg_fit_reading.specs.{Puts.{PutsFrom, PutsOwn}, Values.in_span};

use crate::puts::{put, read};
use std::io::Write;
use uimg_base::{MoveFault, Out, Source, Span};

// The most bytes that are converted at once.
const PART: usize = 64;

fn put_digits<W: Write>(out: &mut Out<W>, bytes: &[u8]) -> Result<(), MoveFault>
    requires { length bytes.now ≤ 64 }
    ensures { PutsOwn result out.old out.new (encode_lower bytes.now) }
{
    let mut digits = [0; 2 * PART];
    let digits = &mut digits[..2 * bytes.len()];
    if hex::encode_to_slice(bytes, digits).is_err() {
        unreachable!();
    }
    put(out, digits)
}

fn put_part<S: Source, W: Write>(
    source: &mut S,
    at: u64,
    count: usize,
    out: &mut Out<W>,
) -> Result<(), MoveFault>
    requires range { at + count ≤ length (S.device source.old).bytes }
    requires part { count ≤ 64 }
    ensures { PutsFrom count result S.device source out
        (λ file. encode_lower (slice file at count)) }
{
    let mut bytes = [0; PART];
    let bytes = &mut bytes[..count];
    read(source, at, bytes)?;
    put_digits(out, bytes)
}

fn put_hexadecimal<S: Source, W: Write>(
    source: &mut S,
    span: Span,
    out: &mut Out<W>,
) -> Result<(), MoveFault>
    requires { span.place + span.length ≤ length (S.device source.old).bytes }
    ensures { PutsFrom span.length result S.device source out
        (λ file. encode_lower (in_span file span)) }
{
    let mut done = 0;
    while done < span.length {
        let next = u64::min(span.length - done, PART as u64);
        put_part(source, span.place + done, next as usize, out)?;
        done += next;
    }
    Ok(())
}

pub(crate) fn put_hexadecimal_line<S: Source, W: Write>(
    source: &mut S,
    label: &[u8],
    span: Span,
    out: &mut Out<W>,
) -> Result<(), MoveFault>
    requires { span.place + span.length ≤ length (S.device source.old).bytes }
    ensures { PutsFrom span.length result S.device source out
        (λ file. line (label.now ++ encode_lower (in_span file span))) }
{
    put(out, label)?;
    put_hexadecimal(source, span, out)?;
    put(out, b"\n")
}
