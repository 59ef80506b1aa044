//! The head lines of a listing, and the line of the default configuration.
ghost use Rattle.std.specs.Prelude.{◌+◌, ◌≤◌, ◌++◌, length, codes};
ghost use Rattle.uimg_base.specs.Outcome.{line};
ghost use Rattle.uimg_texts.specs.Nul.{text};
ghost use Rattle.uimg_fit_base.specs.Files.{bytes_in};
ghost use Rattle.uimg_fit_reading.specs.Heads.{span_size, description_line, created_line, default_line};
ghost use Rattle.uimg_fit_reading.specs.{Puts.{Puts, PutsOwn}, Values.in_span, PayloadPlaces.Ends};

use crate::listing::fields::put_text_line;
use crate::listing::times::put_moment_line;
use crate::puts::{put, put_line};
use std::alloc::Allocator;
use std::io::Write;
use uimg_base::{MoveFault, Out, Room, Source, Span};
use uimg_blob_reading::put_text;

fn put_description<S: Source, A: Allocator, W: Write>(
    source: &mut S,
    room: &mut Room<A>,
    description: Option<Span>,
    out: &mut Out<W>,
) -> Result<(), MoveFault>
    requires { Ends (length (S.device source.old).bytes) description }
    ensures { Puts (span_size description) result S.device source room out
        (λ file. description_line (bytes_in file description)) }
{
    match description {
        Some(span) => put_text_line(source, room, b"FIT description: ", span, out),
        None => put_line(out, b"FIT description: ", b"unavailable"),
    }
}

fn put_created<W: Write>(out: &mut Out<W>, time: Option<u32>) -> Result<(), MoveFault>
    ensures { PutsOwn result out.old out.new (created_line time) }
{
    put_moment_line(out, b"Created:         ", time)
}

pub(crate) fn put_head<S: Source, A: Allocator, W: Write>(
    source: &mut S,
    room: &mut Room<A>,
    description: Option<Span>,
    time: Option<u32>,
    out: &mut Out<W>,
) -> Result<(), MoveFault>
    requires { Ends (length (S.device source.old).bytes) description }
    ensures { Puts (span_size description) result S.device source room out
        (λ file. description_line (bytes_in file description) ++ created_line time) }
{
    put_description(source, room, description, out)?;
    put_created(out, time)
}

fn put_default_line<S: Source, A: Allocator, W: Write>(
    source: &mut S,
    room: &mut Room<A>,
    span: Span,
    out: &mut Out<W>,
) -> Result<(), MoveFault>
    requires { span.place + span.length ≤ length (S.device source.old).bytes }
    ensures { Puts span.length result S.device source room out (λ file.
        line (codes " Default Configuration: '" ++ (text (in_span file span) ++ codes "'"))) }
{
    put(out, b" Default Configuration: '")?;
    put_text(source, room, span, out)?;
    put(out, b"'\n")
}

pub(crate) fn put_default<S: Source, A: Allocator, W: Write>(
    source: &mut S,
    room: &mut Room<A>,
    default: Option<Span>,
    out: &mut Out<W>,
) -> Result<(), MoveFault>
    requires { Ends (length (S.device source.old).bytes) default }
    ensures { Puts (span_size default) result S.device source room out
        (λ file. default_line (bytes_in file default)) }
{
    match default {
        Some(span) => put_default_line(source, room, span, out),
        None => Ok(()),
    }
}
