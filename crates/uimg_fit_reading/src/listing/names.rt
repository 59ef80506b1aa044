//! Prints types, architectures, systems and compressions, with the names of a set.

ghost use Rattle.std.specs.Prelude.{◌≡◌, ◌+◌, ◌≤◌, ◌++◌, min, length, is_err, IfOk, IfErr};
ghost use Rattle.uimg_base.specs.{Honest.HonestSource, Outcome.line, Using.Asks};
ghost use Rattle.uimg_base.specs.declared.ranges.MoveFault.TheVariants.{Read};
ghost use Rattle.uimg_texts.specs.Nul.{text};
ghost use Rattle.uimg_texts.specs.Naming.{code_named};
ghost use Rattle.uimg_fit_base.specs.Files.{bytes_in};
ghost use Rattle.uimg_fit_reading.specs.{Shows.name_in, Puts.PutsFrom, Values.in_span};
ghost use Rattle.uimg_fit_reading.specs.{PayloadPlaces.Ends, Rows.kind_said};

use crate::puts::put_line;
use std::io::Write;
use uimg_base::{MoveFault, Out, Source, SourceFault, Span};
use uimg_blob_reading::short_text;
use uimg_texts::{Field, Naming};

fn code_in<S: Source>(
    source: &mut S,
    naming: Naming,
    field: Field,
    span: Span,
) -> Result<Option<u8>, SourceFault>
    requires { span.place + span.length ≤ length (S.device source.old).bytes }
    ensures uses { Asks (min 32 span.length) (is_err result) (S.device source.old)
        (S.device source.new) }
    ensures code { HonestSource S.device source → IfOk result (λ code.
        code ≡ code_named naming field (text (in_span (S.device source.old).bytes span))) }
{
    let mut text = [0; 32];
    match short_text(source, span, &mut text)? {
        Some(length) => Ok(naming.code_named(field, &text[..length])),
        None => Ok(None),
    }
}

#[tactic(auto, unfolding(uimg_texts::specs::Naming::name_text))]
fn long_name<S: Source>(
    source: &mut S,
    naming: Naming,
    field: Field,
    span: Span,
) -> Result<&'static str, SourceFault>
    requires { span.place + span.length ≤ length (S.device source.old).bytes }
    ensures uses { Asks (min 32 span.length) (is_err result) (S.device source.old)
        (S.device source.new) }
    ensures name { HonestSource S.device source → IfOk result
        (λ name. name.now ≡ name_in naming field (in_span (S.device source.old).bytes span)) }
{
    match code_in(source, naming, field, span)? {
        Some(code) => Ok(naming.code_text(field, code)),
        None => Ok(field.unknown()),
    }
}

pub(crate) fn kind_in<S: Source>(
    source: &mut S,
    value: Option<Span>,
) -> Result<Option<u8>, MoveFault>
    requires { Ends (length (S.device source.old).bytes) value }
    ensures uses { Asks 32 (is_err result) (S.device source.old) (S.device source.new) }
    ensures read { IfErr result (λ e. e ≡ Read) }
    ensures kind { HonestSource S.device source → IfOk result (λ kind.
        kind ≡ kind_said (bytes_in (S.device source.old).bytes value)) }
{
    let Some(span) = value else {
        return Ok(None);
    };
    match code_in(source, Naming::All, Field::Kind, span) {
        Ok(kind) => Ok(kind),
        Err(_) => Err(MoveFault::Read),
    }
}

#[tactic(auto, using(uimg_base::proofs::WritingLaws::writing))]
pub(crate) fn put_name_line<S: Source, W: Write>(
    source: &mut S,
    label: &[u8],
    naming: Naming,
    field: Field,
    span: Span,
    out: &mut Out<W>,
) -> Result<(), MoveFault>
    requires { span.place + span.length ≤ length (S.device source.old).bytes }
    ensures { PutsFrom (min 32 span.length) result S.device source out
        (λ file. line (label.now ++ name_in naming field (in_span file span))) }
{
    match long_name(source, naming, field, span) {
        Ok(name) => put_line(out, label, name.as_bytes()),
        Err(_) => Err(MoveFault::Read),
    }
}
