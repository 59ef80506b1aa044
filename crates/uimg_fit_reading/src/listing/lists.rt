//! Prints values of several texts.

ghost use Rattle.std.specs.Prelude.{◌≡◌, ◌+◌, ◌≤◌, ◌<◌, length, take, drop, IfOk};
ghost use Rattle.uimg_base.specs.Honest.{IfHonest};
ghost use Rattle.uimg_fit_reading.specs.{Values.{pieces, in_span}, Shows.lines_of};
ghost use Rattle.uimg_fit_reading.specs.Lists.{start_of, emitted, line_after, IsPiece};
ghost use Rattle.uimg_fit_reading.specs.Puts.{Puts, PutsOwn, PutsFrom};

use crate::puts::{put, put_line, put_pair, read};
use std::alloc::Allocator;
use std::io::Write;
use uimg_base::{MoveFault, Out, Room, Source, Span, WINDOW, before_nul};

/// Where the next byte of a list of texts is on its line.
#[derive(Clone, Copy)]
pub(crate) enum Line {
    /// At the beginning of the first line, after the label.
    First,
    /// At the beginning of another line, after blanks.
    Next,
    /// On a line that has begun.
    Open,
}

fn start_of(label: &[u8], line: Line) -> &[u8]
    ensures { result.now ≡ start_of label.now line }
{
    match line {
        Line::First => label,
        Line::Next => b"                ",
        Line::Open => b"",
    }
}

fn left(bytes: &[u8], passed: usize) -> &[u8]
    requires { passed ≤ length bytes.now }
    ensures { result.now ≡ drop passed bytes.now }
{
    &bytes[passed..]
}

// Returns the bytes up to and with the first NUL, or all.
fn first_piece(bytes: &[u8]) -> &[u8]
    requires { 0 < length bytes.now }
    ensures piece { IsPiece result.now }
    ensures within { length result.now ≤ length bytes.now }
    ensures front { result.now ≡ take (length result.now) bytes.now }
{
    let count = usize::min(bytes.len(), before_nul(bytes).len() + 1);
    &bytes[..count]
}

// Writes a text up to its NUL, which ends the line. Returns where the next byte is.
fn put_piece<W: Write>(
    label: &[u8],
    line: Line,
    piece: &[u8],
    out: &mut Out<W>,
) -> Result<Line, MoveFault>
    requires { IsPiece piece.now }
    ensures line { IfOk result (λ l. l ≡ line_after line piece.now) }
    ensures puts { PutsOwn result out.old out.new (emitted label.now line piece.now) }
{
    let text = before_nul(piece);
    if text.len() == piece.len() {
        put_pair(out, start_of(label, line), text)?;
        return Ok(Line::Open);
    }
    put_line(out, start_of(label, line), text)?;
    Ok(Line::Next)
}

fn put_texts<W: Write>(
    label: &[u8],
    line: Line,
    bytes: &[u8],
    out: &mut Out<W>,
) -> Result<Line, MoveFault>
    ensures line { IfOk result (λ l. l ≡ line_after line bytes.now) }
    ensures puts { PutsOwn result out.old out.new (emitted label.now line bytes.now) }
{
    let mut line = line;
    let mut passed = 0;
    while passed < bytes.len() {
        let piece = first_piece(left(bytes, passed));
        line = put_piece(label, line, piece, out)?;
        passed += piece.len();
    }
    Ok(line)
}

// Writes at most one window. Returns where the next byte is.
fn put_window<S: Source, W: Write>(
    source: &mut S,
    window: &mut [u8; WINDOW],
    span: Span,
    label: &[u8],
    line: Line,
    out: &mut Out<W>,
) -> Result<Line, MoveFault>
    requires range { span.place + span.length ≤ length (S.device source.old).bytes }
    requires window { span.length ≤ 8192 }
    ensures line { IfHonest S.device source (λ file.
        IfOk result (λ l. l ≡ line_after line (in_span file span))) }
    ensures puts { PutsFrom span.length result S.device source out
        (λ file. emitted label.now line (in_span file span)) }
{
    let window = &mut window[..span.length as usize];
    read(source, span.place, window)?;
    put_texts(label, line, window, out)
}

fn put_value<S: Source, W: Write>(
    source: &mut S,
    window: &mut [u8; WINDOW],
    label: &[u8],
    span: Span,
    out: &mut Out<W>,
) -> Result<Line, MoveFault>
    requires { span.place + span.length ≤ length (S.device source.old).bytes }
    ensures line { IfHonest S.device source (λ file.
        IfOk result (λ l. l ≡ line_after Line.First (in_span file span))) }
    ensures puts { PutsFrom span.length result S.device source out
        (λ file. emitted label.now Line.First (in_span file span)) }
{
    let mut line = Line::First;
    let mut done = 0;
    while done < span.length {
        let part = Span {
            place: span.place + done,
            length: u64::min(span.length - done, WINDOW as u64),
        };
        line = put_window(source, window, part, label, line, out)?;
        done += part.length;
    }
    Ok(line)
}

// Writes a line for each text of a value, the first with a label.
pub(crate) fn put_list_lines<S: Source, A: Allocator, W: Write>(
    source: &mut S,
    room: &mut Room<A>,
    label: &[u8],
    span: Span,
    out: &mut Out<W>,
) -> Result<(), MoveFault>
    requires { span.place + span.length ≤ length (S.device source.old).bytes }
    ensures { Puts span.length result S.device source room out
        (λ file. lines_of label.now (pieces (in_span file span))) }
{
    match put_value(source, room.window(), label, span, out)? {
        Line::Open => put(out, b"\n"),
        Line::First | Line::Next => Ok(()),
    }
}
