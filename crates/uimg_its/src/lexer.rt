//! The words of a text, in order.

ghost use Rattle.std.specs.Prelude.{◌≡◌, ◌<◌, length, IfSome, IfOk, false};
ghost use Rattle.uimg_its.specs.{Words.words, Seen.{seen_word, Sees}};
ghost use Rattle.uimg_its.specs.{Answers.{NeverInFile, IsInText}, Reading.{ReadsFront, PassesMark}};
ghost use Rattle.uimg_its.specs.Reader.{take_word, is_mark, expect};

use crate::bytes::after;
use crate::fault::FaultKind;
use crate::pieces::{Piece, first_piece};
use crate::stop::{Place, Stop, ends_early, unexpected};
use crate::strings::string_fault;
use crate::tokens::{Mark, Token, Word};

fn stray(text: &[u8]) -> Stop
    ensures { IsInText result.kind }
{
    let kind = match text {
        [b'"', rest @ ..] => string_fault(rest),
        _ => FaultKind::BadToken,
    };
    Stop {
        kind,
        left: text.len(),
    }
}

/// Reads the first word of a text. Returns it and the text after it, or `None` if no word is left.
/// Refuses a text that does not begin with a word.
pub(crate) fn next_word(text: &[u8]) -> Result<Option<(Token<'_>, &[u8])>, Stop>
    ensures sees { Sees result (words text.now) }
    ensures no_file { NeverInFile result }
    ensures shorter { IfOk result (λ found.
        IfSome found (λ x. length x.1.now < length text.now)) }
{
    let mut rest = text;
    while !rest.is_empty() {
        match first_piece(rest) {
            Piece::Gap(more) => rest = after(rest, more + 1),
            Piece::Word(word, more) => {
                let token = Token {
                    word,
                    left: rest.len(),
                };
                return Ok(Some((token, after(rest, more + 1))));
            }
            Piece::Stray => return Err(stray(rest)),
        }
    }
    Ok(None)
}

/// Reads the next word, which must exist. Returns it with the text after it.
pub(crate) fn need_word(text: &[u8]) -> Result<(Token<'_>, &[u8]), Stop>
    ensures { ReadsFront (λ x. seen_word x.0.word) (λ x. x.1.now) result take_word text.now }
{
    match next_word(text)? {
        Some(found) => Ok(found),
        None => Err(ends_early()),
    }
}

/// Returns whether a word is this mark: a slash, a semicolon, a brace or a parenthesis.
pub(crate) fn is_mark(mark: Mark, word: Word<'_>) -> bool
    ensures { result ≡ is_mark mark (seen_word word.entry) }
{
    match (mark, word) {
        (Mark::Slash, Word::Mark(Mark::Slash)) => true,
        (Mark::BraceOpen, Word::Mark(Mark::BraceOpen)) => true,
        (Mark::BraceClose, Word::Mark(Mark::BraceClose)) => true,
        (Mark::Semicolon, Word::Mark(Mark::Semicolon)) => true,
        (Mark::ParenOpen, Word::Mark(Mark::ParenOpen)) => true,
        (Mark::ParenClose, Word::Mark(Mark::ParenClose)) => true,
        _ => false,
    }
}

/// Reads this mark, which must come next. Returns the text after it.
pub(crate) fn expect(mark: Mark, place: Place, text: &[u8]) -> Result<&[u8], Stop>
    ensures { PassesMark mark result text.now }
{
    let (token, rest) = need_word(text)?;
    if is_mark(mark, token.word) {
        Ok(rest)
    } else {
        Err(unexpected(token, place))
    }
}
