//! The items of a body, up to the word that shows what they are.

ghost use Rattle.std.specs.{Prelude.◌<◌, Option.option_map};
ghost use Rattle.uimg_its.specs.{Answers.IsInText, Reading.{ReadsText, ReadsFront}};
ghost use Rattle.uimg_its.specs.Seen.{seen_word, item_is};
ghost use Rattle.uimg_its.specs.Reader.{item_of, item_after, word_name, label_first, item, unlabelled};

use crate::fault::FaultKind;
use crate::lexer::{is_mark, need_word};
use crate::stop::{Place, Stop, unexpected};
use crate::tokens::{Mark, Token, Word};

/// The greatest length in bytes of a node's or a property's name.
const LONGEST_NAME: usize = 255;

/// An item of a body.
#[derive(Clone, Copy, Debug)]
pub(crate) enum Item<'a> {
    /// A property with this name without a value.
    Empty(&'a [u8]),
    /// A property with this name and a value, up to its equals sign.
    Assigned(&'a [u8]),
    /// A child with this name, up to its opening brace.
    Opens(&'a [u8]),
    /// The end of the body.
    Closes,
}

/// An item, its last word, and the text after it.
#[derive(Clone, Copy, Debug)]
pub(crate) struct Head<'a> {
    pub(crate) item: Item<'a>,
    pub(crate) last: Token<'a>,
    pub(crate) rest: &'a [u8],
}

fn item_of<'a>(name: &'a [u8], token: Token<'a>) -> Result<Item<'a>, Stop>
    ensures { ReadsText item_is result (item_of name.now (seen_word token.entry.word)) }
{
    match token.word {
        Word::Mark(Mark::Semicolon) => Ok(Item::Empty(name)),
        Word::Mark(Mark::Equals) => Ok(Item::Assigned(name)),
        Word::Mark(Mark::BraceOpen) => Ok(Item::Opens(name)),
        _ => Err(unexpected(token, Place::Body)),
    }
}

fn long_name(left: usize) -> Stop
    ensures { IsInText result.kind }
{
    Stop {
        kind: FaultKind::BadSyntax,
        left,
    }
}

// Returns `None` if the name is a label.
fn item_after<'a>(name: &'a [u8], left: usize, token: Token<'a>) -> Result<Option<Item<'a>>, Stop>
    ensures { ReadsText (option_map item_is) result
        (item_after name.now (seen_word token.entry.word)) }
{
    match token.word {
        Word::Mark(Mark::Colon) => Ok(None),
        _ if name.len() > LONGEST_NAME => Err(long_name(left)),
        _ => Ok(Some(item_of(name, token)?)),
    }
}

fn name_in(token: Token<'_>) -> Result<&[u8], Stop>
    ensures { ReadsText (λ n. n.now) result (word_name (seen_word token.entry.word)) }
{
    match token.word {
        Word::Name(name) => Ok(name),
        _ => Err(unexpected(token, Place::Body)),
    }
}

// Reads a label, or a name and what it begins. Returns also the word after it, and the text after
// that.
#[tactic(auto, unfolding(crate::specs::Reader::label_first))]
fn labelled(text: &[u8]) -> Result<(Option<Item<'_>>, Token<'_>, &[u8]), Stop>
    ensures { ReadsFront (λ x. option_map item_is x.0) (λ x. x.2.now) result label_first text.now }
{
    let (first, behind) = need_word(text)?;
    let name = name_in(first)?;
    let (second, rest) = need_word(behind)?;
    let item = item_after(name, first.left, second)?;
    Ok((item, second, rest))
}

fn named(text: &[u8]) -> Result<Head<'_>, Stop>
    ensures { ReadsFront (λ h. item_is h.item) (λ h. h.rest.now) result unlabelled text.now }
{
    let mut left = text;
    loop {
        let (found, last, rest) = labelled(left)?;
        if let Some(item) = found {
            return Ok(Head { item, last, rest });
        }
        left = rest;
    }
}

#[tactic(auto, unfolding(crate::specs::Reader::item))]
pub(crate) fn read_item(text: &[u8]) -> Result<Head<'_>, Stop>
    ensures { ReadsFront (λ h. item_is h.item) (λ h. h.rest.now) result item text.now }
{
    let (last, rest) = need_word(text)?;
    if is_mark(Mark::BraceClose, last.word) {
        let item = Item::Closes;
        Ok(Head { item, last, rest })
    } else {
        named(text)
    }
}
