//! The start of a text: a gap, a word, or neither.

ghost use Rattle.std.specs.Prelude.{◌≡◌, ◌≤◌, ◌<◌, ◌-◌, length, drop, slice_index, IfSome};
ghost use Rattle.uimg_its.specs.{Strings.string_end, Seen.{seen_word, IsFoundPiece}};
ghost use Rattle.uimg_its.specs.Words.{comment, slash_piece, string_piece, name_word, piece};

use crate::bytes::{
    after, directive_length, is_blank, is_name_byte, line_length, mark_of, name_length,
};
use crate::strings::string_length;
use crate::tokens::{Mark, Word};

/// The start of a text, with its length in bytes less one.
#[derive(Clone, Copy)]
pub(crate) enum Piece<'a> {
    /// Blanks or a comment.
    Gap(usize),
    Word(Word<'a>, usize),
    /// No word begins here.
    Stray,
}

// Counts from after the comment's opening; its end is included.
fn comment_length(text: &[u8]) -> Option<usize>
    ensures length { result ≡ comment text.now }
    ensures within { IfSome result (λ n. n ≤ length text.now) }
{
    let mut i = 0;
    while i < text.len() {
        if after(text, i).starts_with(b"*/") {
            return Some(i + 2);
        }
        i += 1;
    }
    None
}

// `text` is what follows the slash.
fn slash_piece(text: &[u8]) -> Piece<'_>
    ensures { IsFoundPiece result (slash_piece text.now) (length text.now) }
{
    match text.first() {
        Some(b'*') => match comment_length(after(text, 1)) {
            Some(n) => Piece::Gap(1 + n),
            None => Piece::Stray,
        },
        Some(b'/') => Piece::Gap(1 + line_length(after(text, 1))),
        _ => {
            let n = directive_length(text);
            if n > 0 && n < text.len() && text[n] == b'/' {
                Piece::Word(Word::Directive(&text[..n]), n + 1)
            } else {
                Piece::Word(Word::Mark(Mark::Slash), 0)
            }
        }
    }
}

// `text` is what follows the quote.
fn string_piece(text: &[u8]) -> Piece<'_>
    ensures { IsFoundPiece result (string_piece text.now (string_end 0 text.now))
        (length text.now) }
{
    match string_length(text) {
        Some(n) => Piece::Word(Word::Text(text), n),
        None => Piece::Stray,
    }
}

// Returns a name word, or the mark of a comma.
fn name_word(name: &[u8]) -> Word<'_>
    ensures { seen_word result ≡ name_word name.now }
{
    match name {
        [b','] => Word::Mark(Mark::Comma),
        _ => Word::Name(name),
    }
}

#[tactic(auto, unfolding(crate::specs::Words::piece))]
pub(crate) fn first_piece(text: &[u8]) -> Piece<'_>
    requires { 0 < length text.now }
    ensures { IsFoundPiece result (piece (slice_index text.now 0) (drop 1 text.now))
        (length text.now - 1) }
{
    let b = text[0];
    let rest = after(text, 1);
    if is_blank(b) {
        Piece::Gap(0)
    } else if b == b'/' {
        slash_piece(rest)
    } else if is_name_byte(b) {
        let n = name_length(rest);
        Piece::Word(name_word(&text[..n + 1]), n)
    } else if b == b'"' {
        string_piece(rest)
    } else {
        match mark_of(b) {
            Some(mark) => Piece::Word(Word::Mark(mark), 0),
            None => Piece::Stray,
        }
    }
}
