//! The statements of a source.

ghost use Rattle.uimg_dts.specs.Answers.{OpensFiles};

use crate::bodies::body;
use crate::expressions::number;
use crate::fault::Refusal;
use crate::finding::ROOT;
use crate::reading::{behind, expect, left_at, unexpected, word_at};
use crate::stop::{FileStop, Stop, at, out_of_memory, refused};
use crate::table::{Owner, Table};
use crate::tokens::{NOTHING, Piece, Token, Word};
use std::alloc::Allocator;
use uimg_base::Files;
use uimg_blob_writing::Reservation;

/// The most levels of a tree; the root is at the first.
const MOST_LEVELS: u8 = 64;

pub(crate) fn headers(tokens: &[Token]) -> Result<&[Token], Stop> {
    let mut rest = tokens;
    for _ in 0..tokens.len() {
        let Some(Word::Version) = word_at(rest) else {
            break;
        };
        rest = expect(b';', behind(rest))?;
        if let Some(Word::Plugin) = word_at(rest) {
            return Err(at(Refusal::Plugin, left_at(rest)));
        }
    }
    if rest.len() == tokens.len() {
        return Err(unexpected(rest));
    }
    Ok(rest)
}

fn unlabelled(tokens: &[Token]) -> &[Token] {
    let count = tokens
        .iter()
        .take_while(|t| matches!(t.word, Word::Label(_)))
        .count();
    tokens.get(count..).unwrap_or(&[])
}

pub(crate) fn reservations<'a, A: Allocator>(
    found: &mut Vec<Reservation, A>,
    tokens: &'a [Token],
) -> Result<&'a [Token], Stop> {
    let mut rest = tokens;
    for _ in 0..tokens.len() {
        let named = unlabelled(rest);
        let Some(Word::Reserve) = word_at(named) else {
            return Ok(rest);
        };
        let (address, second) = number(behind(named))?;
        let (size, end) = number(second)?;
        rest = expect(b';', end)?;
        if found.push(Reservation { address, size }).is_err() {
            return Err(out_of_memory(left_at(named)));
        }
    }
    Ok(rest)
}

fn target<A: Allocator + Copy>(table: &mut Table<'_, A>, tokens: &[Token]) -> Result<usize, Stop> {
    let Some(Word::Reference(name)) = word_at(tokens) else {
        return Err(unexpected(tokens));
    };
    match table.referred(name)? {
        Some(place) => Ok(place),
        None => Err(at(Refusal::NoNode, left_at(tokens))),
    }
}

// Reads a definition after its opening brace, and merges it into a node. Returns the words after it.
fn merged<'a, F: Files, A: Allocator + Copy>(
    files: &mut F,
    table: &mut Table<'_, A>,
    into: usize,
    tokens: &'a [Token],
) -> Result<&'a [Token], FileStop>
    ensures opens { OpensFiles F.Opened.steady F.map result files }
{
    let left = left_at(tokens);
    let new = table.add_definition(NOTHING, into, left)?;
    let levels = MOST_LEVELS.saturating_sub(table.level_of(new));
    let rest = body(files, table, levels, new, tokens)?;
    if new != ROOT {
        table.merge(into, new)?;
    }
    Ok(rest)
}

// Reads a definition of a referred node, which may get one more label. Returns the words after it.
fn overlay<'a, F: Files, A: Allocator + Copy>(
    files: &mut F,
    table: &mut Table<'_, A>,
    label: Option<Piece>,
    tokens: &'a [Token],
) -> Result<&'a [Token], FileStop>
    ensures opens { OpensFiles F.Opened.steady F.map result files }
{
    let into = target(table, tokens)?;
    if let Some(name) = label {
        table.add_label(name, Owner::Node(into), left_at(tokens))?;
    }
    merged(files, table, into, expect(b'{', behind(tokens))?)
}

// Reads a statement that marks or deletes a referred node, from the reference on. Returns it and
// the words after it.
fn marked<'a, A: Allocator + Copy>(
    table: &mut Table<'_, A>,
    tokens: &'a [Token],
) -> Result<(usize, &'a [Token]), Stop> {
    let place = target(table, tokens)?;
    Ok((place, expect(b';', behind(tokens))?))
}

pub(crate) fn root<'a, F: Files, A: Allocator + Copy>(
    files: &mut F,
    table: &mut Table<'_, A>,
    tokens: &'a [Token],
) -> Result<&'a [Token], FileStop>
    ensures opens { OpensFiles F.Opened.steady F.map result files }
{
    if let Some(Word::Reference(_)) = word_at(tokens) {
        return refused(at(Refusal::NoNode, left_at(tokens)));
    }
    let inner = expect(b'{', expect(b'/', tokens)?)?;
    merged(files, table, ROOT, inner)
}

pub(crate) fn statement<'a, F: Files, A: Allocator + Copy>(
    files: &mut F,
    table: &mut Table<'_, A>,
    tokens: &'a [Token],
) -> Result<&'a [Token], FileStop>
    ensures opens { OpensFiles F.Opened.steady F.map result files }
{
    let next = behind(tokens);
    match word_at(tokens) {
        Some(Word::Single(b'/')) => merged(files, table, ROOT, expect(b'{', next)?),
        Some(Word::Label(name)) => overlay(files, table, Some(name), next),
        Some(Word::DeleteNode) => {
            let (place, rest) = marked(table, next)?;
            table.delete_node(place);
            Ok(rest)
        }
        Some(Word::OmitIfNoReference) => {
            let (place, rest) = marked(table, next)?;
            if let Some(node) = table.nodes.get_mut(place) {
                node.is_optional = true;
            }
            Ok(rest)
        }
        _ => overlay(files, table, None, tokens),
    }
}
