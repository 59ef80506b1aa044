//! Reads facts of an image and writes them as members.

ghost use Rattle.std.specs.{Prelude.{◌+◌, ◌≤◌, length, map}, List.{All, sum_by}};
ghost use Rattle.uimg_texts.specs.Slices.{slice};
ghost use Rattle.json.specs.Tree.{json_tokens};
ghost use Rattle.uimg_printing.specs.Members.{object_of, tokens_of};
ghost use Rattle.uimg_info.specs.Members.{value_members, fact_members, facts_members};
ghost use Rattle.uimg_info.specs.{Steps.{PutsTokens, RowInside, read_row}, Work.row_size};

use crate::forms::Form;
use crate::members::{put_length, put_value};
use json::Writer;
use std::alloc::Global;
use uimg_base::{Source, Span};
use uimg_fit_checking::{SurveyFault, read_bytes};

// The most bytes of a value that is printed.
const MOST: u64 = 65536;

/// A fact: the name of its member, the form of its value, and the value's span, if it is present.
pub(crate) type Row<'a> = (&'a str, Form, Option<Span>);

#[tactic(auto, unfolding(crate::specs::Members::value_members))]
fn put_span<S: Source>(
    alloc: Global,
    source: &mut S,
    writer: &mut Writer,
    form: Form,
    name: &str,
    span: Span,
) -> Result<(), SurveyFault>
    requires { span.place + span.length ≤ length (S.device source.old).bytes }
    ensures { PutsTokens span.length result S.device source writer
        (λ file. tokens_of (value_members form name.now (slice file span.place span.length))) }
{
    if span.length > MOST {
        put_length(alloc, writer, form, name, span.length)?;
        return Ok(());
    }
    let value = read_bytes(alloc, source, span)?;
    put_value(alloc, writer, form, name, value.as_slice())?;
    Ok(())
}

#[tactic(auto, unfolding(crate::specs::Members::fact_members))]
fn put_row<S: Source>(
    alloc: Global,
    source: &mut S,
    writer: &mut Writer,
    row: &Row<'_>,
) -> Result<(), SurveyFault>
    requires { RowInside (length (S.device source.old).bytes) row.now }
    ensures { PutsTokens (row_size row.now) result S.device source writer
        (λ file. tokens_of (fact_members (read_row file row.now))) }
{
    let (name, form, value) = *row;
    match value {
        Some(span) => put_span(alloc, source, writer, form, name, span),
        None => Ok(()),
    }
}

pub(crate) fn put_rows<S: Source>(
    alloc: Global,
    source: &mut S,
    writer: &mut Writer,
    rows: &[Row<'_>],
) -> Result<(), SurveyFault>
    requires { All (RowInside (length (S.device source.old).bytes)) rows.now }
    ensures { PutsTokens (sum_by row_size rows.now) result S.device source writer
        (λ file. tokens_of (facts_members (map (read_row file) rows.now))) }
{
    for row in rows {
        put_row(alloc, source, writer, row)?;
    }
    Ok(())
}

pub(crate) fn put_object<S: Source>(
    alloc: Global,
    source: &mut S,
    writer: &mut Writer,
    rows: &[Row<'_>],
) -> Result<(), SurveyFault>
    requires { All (RowInside (length (S.device source.old).bytes)) rows.now }
    ensures { PutsTokens (sum_by row_size rows.now) result S.device source writer
        (λ file. json_tokens (object_of (facts_members (map (read_row file) rows.now)))) }
{
    writer.begin_object()?;
    put_rows(alloc, source, writer, rows)?;
    writer.end_object()?;
    Ok(())
}
