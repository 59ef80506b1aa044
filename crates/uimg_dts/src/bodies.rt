//! The bodies of nodes, by recursion.

ghost use Rattle.uimg_dts.specs.Answers.{OpensFiles};

use crate::fault::Refusal;
use crate::reading::{begins, behind, expect, left_at, unexpected, word_at};
use crate::stop::{FileStop, Stop, at, refused};
use crate::table::{Owner, Table};
use crate::tokens::{Piece, Token, Word};
use crate::values::assigned;
use std::alloc::Allocator;
use uimg_base::Files;

/// What an item of a body is.
#[derive(Clone, Copy, PartialEq)]
enum Item {
    Property,
    Child,
    /// The end of the body.
    End,
}

// Returns how many labels and words `/omit-if-no-ref/` the words begin with.
fn prefix_length(tokens: &[Token]) -> usize {
    tokens
        .iter()
        .take_while(|t| matches!(t.word, Word::Label(_) | Word::OmitIfNoReference))
        .count()
}

fn is_optional(prefix: &[Token]) -> bool {
    prefix
        .iter()
        .any(|t| matches!(t.word, Word::OmitIfNoReference))
}

fn add_labels<A: Allocator + Copy>(
    table: &mut Table<'_, A>,
    prefix: &[Token],
    owner: Owner,
) -> Result<(), Stop> {
    for token in prefix {
        if let Word::Label(name) = token.word {
            table.add_label(name, owner, token.left)?;
        }
    }
    Ok(())
}

fn name_in(tokens: &[Token]) -> Result<Piece, Stop> {
    match word_at(tokens) {
        Some(Word::Name(name)) => Ok(name),
        _ => Err(unexpected(tokens)),
    }
}

fn add_property<A: Allocator + Copy>(
    table: &mut Table<'_, A>,
    node: usize,
    prefix: &[Token],
    name: Piece,
    left: usize,
) -> Result<usize, Stop> {
    let place = table.add_property(name, left)?;
    table.append_property(node, place)?;
    add_labels(table, prefix, Owner::Property(place))?;
    Ok(place)
}

fn add_child<A: Allocator + Copy>(
    table: &mut Table<'_, A>,
    parent: usize,
    prefix: &[Token],
    name: Piece,
    left: usize,
) -> Result<usize, Stop> {
    let level = table.level_of(parent).saturating_add(1);
    let place = table.add_node(name, level, left)?;
    table.append_child(parent, place)?;
    if let Some(node) = table.nodes.get_mut(place) {
        node.is_optional = is_optional(prefix);
    }
    add_labels(table, prefix, Owner::Node(place))?;
    Ok(place)
}

// Reads the deletion of a property or a node, from the word after its directive on.
fn deletion<'a, A: Allocator + Copy>(
    table: &mut Table<'_, A>,
    parent: usize,
    prefix: &[Token],
    item: Item,
    tokens: &'a [Token],
) -> Result<(Item, &'a [Token]), Stop> {
    let name = name_in(tokens)?;
    let rest = expect(b';', behind(tokens))?;
    let left = left_at(tokens);
    if item == Item::Property {
        let place = add_property(table, parent, prefix, name, left)?;
        if let Some(property) = table.properties.get_mut(place) {
            property.is_deleted = true;
        }
    } else {
        let place = add_child(table, parent, prefix, name, left)?;
        if let Some(node) = table.nodes.get_mut(place) {
            node.is_deleted = true;
        }
    }
    Ok((item, rest))
}

fn property<'a, F: Files, A: Allocator + Copy>(
    files: &mut F,
    table: &mut Table<'_, A>,
    node: usize,
    prefix: &[Token],
    tokens: &'a [Token],
) -> Result<(Item, &'a [Token]), FileStop>
    ensures opens { OpensFiles F.Opened.steady F.map result files }
{
    let name = name_in(tokens)?;
    let place = add_property(table, node, prefix, name, left_at(tokens))?;
    let next = behind(tokens);
    let rest = if begins(b'=', next) {
        assigned(files, table, place, name, behind(next))?
    } else {
        expect(b';', next)?
    };
    Ok((Item::Property, rest))
}

#[cycle(bodies)]
fn child<'a, F: Files, A: Allocator + Copy>(
    files: &mut F,
    table: &mut Table<'_, A>,
    levels: u8,
    parent: usize,
    prefix: &[Token],
    tokens: &'a [Token],
) -> Result<(Item, &'a [Token]), FileStop>
    ensures opens { OpensFiles F.Opened.steady F.map result files }
{
    let name = name_in(tokens)?;
    let opening = behind(tokens);
    let inner = expect(b'{', opening)?;
    if levels == 0 {
        return refused(at(Refusal::Depth, left_at(opening)));
    }
    let place = add_child(table, parent, prefix, name, left_at(tokens))?;
    let rest = body(files, table, levels - 1, place, inner)?;
    Ok((Item::Child, rest))
}

#[cycle(bodies)]
fn read_item<'a, F: Files, A: Allocator + Copy>(
    files: &mut F,
    table: &mut Table<'_, A>,
    levels: u8,
    node: usize,
    tokens: &'a [Token],
) -> Result<(Item, &'a [Token]), FileStop>
    ensures opens { OpensFiles F.Opened.steady F.map result files }
{
    let count = prefix_length(tokens);
    let prefix = tokens.get(..count).unwrap_or(&[]);
    let rest = tokens.get(count..).unwrap_or(&[]);
    match word_at(rest) {
        Some(Word::Single(b'}')) if count == 0 => Ok((Item::End, expect(b';', behind(rest))?)),
        Some(Word::DeleteNode) => { Ok(deletion(table, node, prefix, Item::Child, behind(rest))?) }
        Some(Word::Name(_)) if begins(b'{', behind(rest)) => child(
            files, table, levels, node, prefix, rest,
        ),
        _ if is_optional(prefix) => refused(unexpected(rest)),
        Some(Word::DeleteProperty) => {
            Ok(deletion(table, node, prefix, Item::Property, behind(rest))?)
        }
        _ => property(files, table, node, prefix, rest),
    }
}

/// Reads the body of a node after its opening brace, with at most `levels` levels below it. Returns
/// the words after its semicolon.
#[cycle(bodies)]
pub(crate) fn body<'a, F: Files, A: Allocator + Copy>(
    files: &mut F,
    table: &mut Table<'_, A>,
    levels: u8,
    node: usize,
    tokens: &'a [Token],
) -> Result<&'a [Token], FileStop>
    ensures opens { OpensFiles F.Opened.steady F.map result files }
{
    let mut rest = tokens;
    let mut has_children = false;
    for _ in 0..tokens.len() {
        let (found, after) = read_item(files, table, levels, node, rest)?;
        match found {
            Item::End => return Ok(after),
            Item::Property if has_children => return refused(unexpected(rest)),
            Item::Property => {}
            Item::Child => has_children = true,
        }
        rest = after;
    }
    refused(unexpected(rest))
}
