//! Prints load addresses and entry points, of one cell or two.

ghost use Rattle.std.specs.Prelude.{◌≡◌, ◌+◌, ◌≤◌, ◌++◌, ◌==◌, not, min, length, codes};
ghost use Rattle.hex.specs.Hex.{encode_lower};
ghost use Rattle.std.specs.List.{position_or_len};
ghost use Rattle.uimg_base.specs.Outcome.{line};
ghost use Rattle.uimg_fit_reading.specs.Values.{address_text, eight_or_more, in_span};
ghost use Rattle.uimg_fit_reading.specs.Puts.{PutsFrom, PutsOwn};

use crate::puts::{put, put_line, read};
use std::io::Write;
use uimg_base::{MoveFault, Out, Source, Span};

fn leading_zeros(digits: &[u8]) -> usize
    ensures { result ≡ position_or_len (λ d. not (d == 48)) digits.now }
{
    for (i, digit) in digits.iter().enumerate() {
        if *digit != b'0' {
            return i;
        }
    }
    digits.len()
}

// Returns the digits without leading zeros, but at least eight.
fn eight_or_more(digits: &[u8]) -> &[u8]
    requires { 8 ≤ length digits.now }
    ensures { result.now ≡ eight_or_more digits.now }
{
    let zeros = usize::min(leading_zeros(digits), digits.len() - 8);
    &digits[zeros..]
}

fn put_one_cell<W: Write>(out: &mut Out<W>, bytes: &[u8; 4]) -> Result<(), MoveFault>
    ensures { PutsOwn result out.old out.new (line (codes "0x" ++ encode_lower bytes.now)) }
{
    let mut digits = [0; 8];
    if hex::encode_to_slice(bytes, &mut digits).is_err() {
        unreachable!();
    }
    put_line(out, b"0x", &digits)
}

fn put_two_cells<W: Write>(out: &mut Out<W>, bytes: &[u8; 8]) -> Result<(), MoveFault>
    ensures { PutsOwn result out.old out.new
        (line (codes "0x" ++ eight_or_more (encode_lower bytes.now))) }
{
    let mut digits = [0; 16];
    if hex::encode_to_slice(bytes, &mut digits).is_err() {
        unreachable!();
    }
    put_line(out, b"0x", eight_or_more(&digits))
}

// Writes an address, or `unavailable`, and ends the line.
fn put_address<S: Source, W: Write>(
    source: &mut S,
    span: Span,
    out: &mut Out<W>,
) -> Result<(), MoveFault>
    requires { span.place + span.length ≤ length (S.device source.old).bytes }
    ensures { PutsFrom (min 8 span.length) result S.device source out
        (λ file. line (address_text (in_span file span))) }
{
    match span.length {
        4 => {
            let mut cell = [0; 4];
            read(source, span.place, &mut cell)?;
            put_one_cell(out, &cell)
        }
        8 => {
            let mut cells = [0; 8];
            read(source, span.place, &mut cells)?;
            put_two_cells(out, &cells)
        }
        _ => put_line(out, b"", b"unavailable"),
    }
}

#[tactic(auto, using(uimg_base::proofs::WritingLaws::writing))]
pub(crate) fn put_address_line<S: Source, W: Write>(
    source: &mut S,
    label: &[u8],
    span: Span,
    out: &mut Out<W>,
) -> Result<(), MoveFault>
    requires { span.place + span.length ≤ length (S.device source.old).bytes }
    ensures { PutsFrom (min 8 span.length) result S.device source out
        (λ file. line (label.now ++ address_text (in_span file span))) }
{
    put(out, label)?;
    put_address(source, span, out)
}
