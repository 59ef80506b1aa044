//! What a legacy image states.

ghost use Rattle.std.specs.Prelude.{◌≡◌, ◌+◌, ◌++◌, length, map, min, IfOk};
ghost use Rattle.uimg_base.specs.{Honest.IfHonest, Using.Uses};
ghost use Rattle.uimg_fit_checking.specs.SurveyParts.{IsOwn, LeavesSurvey, is_unread};
ghost use Rattle.uimg_info.specs.Statement.{all_stated, stated};
ghost use Rattle.uimg_info.specs.LegacyFields.{field_stated, fields, row_stated, legacy_stated, part_field, parts_from};
ghost use Rattle.uimg_texts.specs.Nul.{text};

use crate::statement::{Statement, push_found};
use crate::value_texts::text_inside;
use std::alloc::{Allocator, Global};
use uimg_base::{Room, Source, Span, before_nul};
use uimg_fit_checking::SurveyFault;
use uimg_legacy::Header;

// The offset and the length of the name, in bytes.
const NAME: u64 = 32;

fn field_statement<S: Source, A: Allocator>(
    alloc: Global,
    source: &mut S,
    room: &mut Room<A>,
    key: &str,
    value: Span,
) -> Result<Statement, SurveyFault>
    ensures leaves { LeavesSurvey result S.device source room }
    ensures own { IsOwn result }
    ensures told { IfHonest S.device source (λ file. IfOk result (λ statement.
        stated statement ≡ field_stated file (record { key = key.now; value = value }))) }
{
    let text = text_inside(alloc, source, room, value)?;
    let key = Vec::from_slice(alloc, key.as_bytes())?;
    Ok(Statement { key, text })
}

fn span(place: u64, length: u64) -> Span
    ensures { result ≡ record { place = place; length = length } }
{
    Span { place, length }
}

fn name_span(header: &Header) -> Span
    ensures { result ≡ record { place = 32; length = min 32 (length (text header.now.name) + 1) } }
{
    let name = before_nul(&header.name);
    span(NAME, u64::min(NAME, name.len() as u64 + 1))
}

fn field_statements<S: Source, A: Allocator>(
    alloc: Global,
    source: &mut S,
    room: &mut Room<A>,
    rows: &[(&str, Span)],
) -> Result<Vec<Statement>, SurveyFault>
    ensures leaves { LeavesSurvey result S.device source room }
    ensures own { IsOwn result }
    ensures told { IfHonest S.device source (λ file. IfOk result (λ all.
        all_stated all ≡ map (row_stated file) rows.now)) }
{
    let mut all = Vec::new(alloc);
    for row in rows {
        let statement = field_statement(alloc, source, room, row.0, row.1)?;
        push_found(&mut all, Some(statement))?;
    }
    Ok(all)
}

fn header_statements<S: Source, A: Allocator>(
    alloc: Global,
    source: &mut S,
    room: &mut Room<A>,
    header: &Header,
) -> Result<Vec<Statement>, SurveyFault>
    ensures leaves { LeavesSurvey result S.device source room }
    ensures own { IsOwn result }
    ensures told { IfHonest S.device source (λ file. IfOk result (λ all.
        all_stated all ≡ map (field_stated file) (fields header.now))) }
{
    let rows = [
        ("name", name_span(header)),
        ("time", span(8, 4)),
        ("load", span(16, 4)),
        ("entry", span(20, 4)),
        ("os", span(28, 1)),
        ("arch", span(29, 1)),
        ("type", span(30, 1)),
        ("compression", span(31, 1)),
    ];
    field_statements(alloc, source, room, &rows)
}

fn part_statement<S: Source, A: Allocator>(
    alloc: Global,
    source: &mut S,
    room: &mut Room<A>,
    number: usize,
    part: &Span,
) -> Result<Statement, SurveyFault>
    ensures leaves { LeavesSurvey result S.device source room }
    ensures own { IsOwn result }
    ensures told { IfHonest S.device source (λ file. IfOk result (λ statement.
        stated statement ≡ field_stated file (part_field number part.now))) }
{
    let key = format!(in alloc; "part {number}")?;
    let statement = field_statement(alloc, source, room, key.as_str(), *part)?;
    Ok(statement)
}

fn part_statements<S: Source, A: Allocator>(
    alloc: Global,
    source: &mut S,
    room: &mut Room<A>,
    parts: &[Span],
) -> Result<Vec<Statement>, SurveyFault>
    ensures leaves { LeavesSurvey result S.device source room }
    ensures own { IsOwn result }
    ensures told { IfHonest S.device source (λ file. IfOk result (λ all.
        all_stated all ≡ map (field_stated file) (parts_from 0 parts.now))) }
{
    let mut all = Vec::new(alloc);
    let mut number: usize = 0;
    for part in parts {
        let statement = part_statement(alloc, source, room, number, part)?;
        push_found(&mut all, Some(statement))?;
        number += 1;
    }
    Ok(all)
}

/// Returns what a legacy image with this header and these parts states: the fields of its header
/// that say what it is, and its parts. A part of more than 128 bytes is stated by its size and
/// SHA-256.
///
/// Requests each part once. Of the room only the window changes.
///
/// - `Stopped` with `Read`: if and only if a read failed.
/// - `OutOfMemory`: memory for a value or a statement was refused.
pub fn legacy_statements<S: Source, A: Allocator>(
    alloc: Global,
    source: &mut S,
    room: &mut Room<A>,
    header: &Header,
    parts: &[Span],
) -> Result<Vec<Statement>, SurveyFault>
    ensures leaves { LeavesSurvey result S.device source room }
    ensures own { IsOwn result }
    ensures told { IfHonest S.device source (λ file. IfOk result (λ all.
        all_stated all ≡ legacy_stated file header.now parts.now)) }
{
    let mut all = header_statements(alloc, source, room, header)?;
    let mut others = part_statements(alloc, source, room, parts)?;
    all.append(&mut others)?;
    Ok(all)
}
