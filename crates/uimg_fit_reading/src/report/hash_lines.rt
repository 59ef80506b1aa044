//! The line of a hash node, and the line of an image without hash nodes.
ghost use Rattle.std.specs.Prelude.{◌+◌, ◌≤◌, ◌++◌, length, codes};
ghost use Rattle.uimg_base.specs.Outcome.{line};
ghost use Rattle.uimg_fit_base.specs.Report.{word_text};
ghost use Rattle.uimg_fit_reading.specs.Plans.{LineInside, span_length, algo_text, names_text, end_text, hash_text};
ghost use Rattle.uimg_fit_reading.specs.{Puts.{Puts, PutsOwn}, Values.in_span, PayloadPlaces.Ends};

use crate::puts::{put, put_line, put_span};
use std::alloc::Allocator;
use std::io::Write;
use uimg_base::{MoveFault, Out, Room, Source, Span};
use uimg_blob_reading::put_text;
use uimg_fit_base::{Verdict, word_text};

/// The parts of a hash node's line: the spans of the image's name, of its own and of its
/// algorithm's, and its word.
#[derive(Clone, Copy)]
pub(crate) struct HashLine {
    pub(crate) image: Span,
    pub(crate) hash: Span,
    pub(crate) algo: Option<Span>,
    pub(crate) word: Verdict,
}

fn put_name<S: Source, A: Allocator, W: Write>(
    source: &mut S,
    room: &mut Room<A>,
    span: Span,
    out: &mut Out<W>,
) -> Result<(), MoveFault>
    requires { span.place + span.length ≤ length (S.device source.old).bytes }
    ensures { Puts span.length result S.device source room out
        (λ file. in_span file span ++ codes " ") }
{
    put_span(source, room, span, out)?;
    put(out, b" ")
}

// Writes the text of an algorithm's name, or `-`.
fn put_algo<S: Source, A: Allocator, W: Write>(
    source: &mut S,
    room: &mut Room<A>,
    algo: Option<Span>,
    out: &mut Out<W>,
) -> Result<(), MoveFault>
    requires { Ends (length (S.device source.old).bytes) algo }
    ensures { Puts (span_length algo) result S.device source room out
        (λ file. algo_text file algo) }
{
    match algo {
        Some(span) => put_text(source, room, span, out),
        None => put(out, b"-"),
    }
}

fn put_word<W: Write>(word: Verdict, out: &mut Out<W>) -> Result<(), MoveFault>
    ensures { PutsOwn result out.old out.new (line (codes " " ++ word_text word)) }
{
    put_line(out, b" ", word_text(word).as_bytes())
}

fn put_names<S: Source, A: Allocator, W: Write>(
    source: &mut S,
    room: &mut Room<A>,
    line: HashLine,
    out: &mut Out<W>,
) -> Result<(), MoveFault>
    requires image { line.image.place + line.image.length ≤ length (S.device source.old).bytes }
    requires hash { line.hash.place + line.hash.length ≤ length (S.device source.old).bytes }
    ensures { Puts (line.image.length + line.hash.length) result S.device source room out
        (λ file. names_text file line) }
{
    put_name(source, room, line.image, out)?;
    put_name(source, room, line.hash, out)
}

fn put_end<S: Source, A: Allocator, W: Write>(
    source: &mut S,
    room: &mut Room<A>,
    line: HashLine,
    out: &mut Out<W>,
) -> Result<(), MoveFault>
    requires { Ends (length (S.device source.old).bytes) line.algo }
    ensures { Puts (span_length line.algo) result S.device source room out
        (λ file. end_text file line) }
{
    put_algo(source, room, line.algo, out)?;
    put_word(line.word, out)
}

pub(crate) fn put_hash_line<S: Source, A: Allocator, W: Write>(
    source: &mut S,
    room: &mut Room<A>,
    line: HashLine,
    out: &mut Out<W>,
) -> Result<(), MoveFault>
    requires { LineInside (length (S.device source.old).bytes) line }
    ensures { Puts (line.image.length + line.hash.length + span_length line.algo)
        result S.device source room out (λ file. hash_text file line) }
{
    put_names(source, room, line, out)?;
    put_end(source, room, line, out)
}

pub(crate) fn put_unhashed<S: Source, A: Allocator, W: Write>(
    source: &mut S,
    room: &mut Room<A>,
    image: Span,
    out: &mut Out<W>,
) -> Result<(), MoveFault>
    requires { image.place + image.length ≤ length (S.device source.old).bytes }
    ensures { Puts image.length result S.device source room out
        (λ file. in_span file image ++ line (codes " - none unhashed")) }
{
    put_span(source, room, image, out)?;
    put(out, b" - none unhashed\n")
}
