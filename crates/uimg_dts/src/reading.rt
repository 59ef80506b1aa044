//! The words that are left.

use crate::fault::Refusal;
use crate::stop::{Stop, at};
use crate::tokens::{Token, Word};

/// Returns the place of the next word, or the end of the text.
pub(crate) fn left_at(tokens: &[Token]) -> usize {
    match tokens.first() {
        Some(token) => token.left,
        None => 0,
    }
}

pub(crate) fn word_at(tokens: &[Token]) -> Option<Word> {
    match tokens.first() {
        Some(token) => Some(token.word),
        None => None,
    }
}

/// Returns the words after the next one.
pub(crate) fn behind(tokens: &[Token]) -> &[Token] {
    tokens.get(1..).unwrap_or(&[])
}

pub(crate) fn unexpected(tokens: &[Token]) -> Stop {
    at(Refusal::BadSyntax, left_at(tokens))
}

pub(crate) fn begins(byte: u8, tokens: &[Token]) -> bool {
    match word_at(tokens) {
        Some(Word::Single(b)) => b == byte,
        _ => false,
    }
}

pub(crate) fn expect(byte: u8, tokens: &[Token]) -> Result<&[Token], Stop> {
    if begins(byte, tokens) {
        Ok(behind(tokens))
    } else {
        Err(unexpected(tokens))
    }
}
