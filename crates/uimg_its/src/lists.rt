//! Lists of cells and of bytes.

ghost use Rattle.std.specs.{Prelude.{◌<◌, IfOk, length, false}, Option.option_map};
ghost use Rattle.uimg_its.specs.{Words.words, Reading.{ReadsText, ReadsFront}};
ghost use Rattle.uimg_its.specs.{Cells.element, Steps.{with_front, step_front, without_rest}};
ghost use Rattle.uimg_its.specs.{Answers.IsInText, Reader.{element_word, element_step, list_items}};
ghost use Rattle.uimg_its.specs.{Seen.seen_word, declared.lists.Listed.TheVariants.{Cells, Bytes}};

use crate::fault::FaultKind;
use crate::growth::append;
use crate::lexer::need_word;
use crate::numbers::{cell, hex_pair};
use crate::stop::{Place, Stop, unexpected};
use crate::tokens::{Mark, Token, Word};
use std::alloc::Allocator;

/// The elements of a list: cells between `<` and `>`, or bytes between `[` and `]`.
#[derive(Clone, Copy, Debug, PartialEq, Eq)]
pub(crate) enum Listed {
    Cells,
    Bytes,
}

// Returns `None` at the end of the list.
fn element_word(list: Listed, token: Token<'_>) -> Result<Option<&[u8]>, Stop>
    ensures { ReadsText (option_map (λ n. n.now)) result
        (element_word list (seen_word token.entry.word)) }
{
    match (list, token.word) {
        (Listed::Cells, Word::Mark(Mark::Greater)) => Ok(None),
        (Listed::Bytes, Word::Mark(Mark::BracketClose)) => Ok(None),
        (_, Word::Name(name)) => Ok(Some(name)),
        (Listed::Cells, _) => Err(unexpected(token, Place::Cells)),
        (Listed::Bytes, _) => Err(unexpected(token, Place::Body)),
    }
}

fn bad_number(left: usize) -> Stop
    ensures { IsInText result.kind }
{
    Stop {
        kind: FaultKind::BadNumber,
        left,
    }
}

fn push_cell<A: Allocator>(out: &mut Vec<u8, A>, name: &[u8], left: usize) -> Result<(), Stop>
    ensures { ReadsText (λ _. out.new.items) result
        (without_rest out.old.items (element Cells name.now)) }
{
    match cell(name) {
        Some(n) => append(out, &n.to_be_bytes(), left),
        None => Err(bad_number(left)),
    }
}

fn push_bytes<A: Allocator>(out: &mut Vec<u8, A>, name: &[u8], left: usize) -> Result<(), Stop>
    ensures { ReadsText (λ _. out.new.items) result
        (without_rest out.old.items (element Bytes name.now)) }
{
    let mut i = 0;
    while i < name.len() {
        if i + 1 == name.len() {
            return Err(bad_number(left));
        }
        match hex_pair(name[i], name[i + 1]) {
            Some(b) => append(out, &[b], left)?,
            None => return Err(bad_number(left)),
        }
        i += 2;
    }
    Ok(())
}

fn push_element<A: Allocator>(
    out: &mut Vec<u8, A>,
    list: Listed,
    name: &[u8],
    left: usize,
) -> Result<(), Stop>
    ensures { ReadsText (λ _. out.new.items) result
        (without_rest out.old.items (element list name.now)) }
{
    match list {
        Listed::Cells => push_cell(out, name, left),
        Listed::Bytes => push_bytes(out, name, left),
    }
}

// Returns whether the list ended, and the text after the element.
#[tactic(auto, unfolding(crate::specs::Reader::element_step))]
fn element_step<'a, A: Allocator>(
    out: &mut Vec<u8, A>,
    list: Listed,
    text: &'a [u8],
) -> Result<(bool, &'a [u8]), Stop>
    ensures reads { ReadsText (λ x. (x.0, out.new.items, words x.1.now)) result
        (step_front out.old.items (element_step list (words text.now))) }
    ensures shorter { IfOk result (λ x. length x.1.now < length text.now) }
{
    let (token, rest) = need_word(text)?;
    match element_word(list, token)? {
        None => Ok((true, rest)),
        Some(name) => {
            push_element(out, list, name, token.left)?;
            Ok((false, rest))
        }
    }
}

pub(crate) fn read_list<'a, A: Allocator>(
    out: &mut Vec<u8, A>,
    list: Listed,
    text: &'a [u8],
) -> Result<&'a [u8], Stop>
    ensures { ReadsFront (λ rest. out.new.items) (λ rest. rest.now) result
        (λ front. with_front out.old.items (list_items list front)) text.now }
{
    let mut rest = text;
    loop {
        let (last, after) = element_step(out, list, rest)?;
        if last {
            return Ok(after);
        }
        rest = after;
    }
}
