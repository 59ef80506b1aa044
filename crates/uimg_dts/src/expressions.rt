//! Expressions in parentheses, by recursion.

ghost use Rattle.std.specs.Prelude.{◌≤◌, IfSome};

use crate::fault::Refusal;
use crate::operators::{ABOVE_ALL, Binary, WEAKEST, binary_of, combined};
use crate::reading::{begins, behind, expect, left_at, unexpected, word_at};
use crate::stop::{Stop, at};
use crate::tokens::{Token, Word};

/// The most levels of an expression: parentheses, and operators before a number.
const MOST_LEVELS: u8 = 64;

// Returns the operator that the next word is, with its strength, if it is at least this strong.
fn operator_at(least: u8, tokens: &[Token]) -> Option<(Binary, u8)>
    ensures { IfSome result (λ x. least ≤ x.1) }
{
    match binary_of(word_at(tokens)?) {
        Some((operator, strength)) if strength >= least => Some((operator, strength)),
        _ => None,
    }
}

// Reads an expression and the parenthesis that closes it.
#[cycle(expressions)]
fn enclosed(levels: u8, tokens: &[Token]) -> Result<(u64, &[Token]), Stop> {
    if levels == 0 {
        return Err(at(Refusal::Depth, left_at(tokens)));
    }
    let (value, rest) = choice(levels - 1, tokens)?;
    Ok((value, expect(b')', rest)?))
}

// Reads a number, a character, or an expression in parentheses.
#[cycle(expressions)]
fn primary(levels: u8, tokens: &[Token]) -> Result<(u64, &[Token]), Stop> {
    match word_at(tokens) {
        Some(Word::Number(value)) | Some(Word::Character(value)) => Ok((value, behind(tokens))),
        Some(Word::Single(b'(')) => enclosed(levels, behind(tokens)),
        _ => Err(unexpected(tokens)),
    }
}

// Reads a number, which operators may precede.
#[cycle(expressions)]
fn unary(levels: u8, tokens: &[Token]) -> Result<(u64, &[Token]), Stop> {
    let Some(Word::Single(operator @ (b'-' | b'~' | b'!'))) = word_at(tokens) else {
        return primary(levels, tokens);
    };
    if levels == 0 {
        return Err(at(Refusal::Depth, left_at(tokens)));
    }
    let (value, rest) = unary(levels - 1, behind(tokens))?;
    let changed = match operator {
        b'-' => value.wrapping_neg(),
        b'~' => !value,
        _ => u64::from(value == 0),
    };
    Ok((changed, rest))
}

// Reads a number, and operators of at least this strength with theirs.
#[cycle(expressions)]
fn sum(levels: u8, least: u8, tokens: &[Token]) -> Result<(u64, &[Token]), Stop> {
    let (mut value, mut rest) = unary(levels, tokens)?;
    for _ in 0..tokens.len() {
        let Some((operator, strength)) = operator_at(least, rest) else {
            return Ok((value, rest));
        };
        if strength >= ABOVE_ALL {
            return Err(unexpected(rest));
        }
        let (right, after) = sum(levels, strength + 1, behind(rest))?;
        let Some(next) = combined(operator, value, right) else {
            return Err(at(Refusal::BadNumber, left_at(rest)));
        };
        value = next;
        rest = after;
    }
    Ok((value, rest))
}

// Reads an expression: a number, or one of two by a condition. The second of the two may be such a
// choice again.
#[cycle(expressions)]
fn choice(levels: u8, tokens: &[Token]) -> Result<(u64, &[Token]), Stop> {
    let mut chosen = None;
    let mut rest = tokens;
    for _ in 0..tokens.len() {
        let (value, after) = sum(levels, WEAKEST, rest)?;
        if !begins(b'?', after) {
            return Ok((chosen.unwrap_or(value), after));
        }
        if levels == 0 {
            return Err(at(Refusal::Depth, left_at(after)));
        }
        let (first, colon) = choice(levels - 1, behind(after))?;
        if chosen.is_none() && value != 0 {
            chosen = Some(first);
        }
        rest = expect(b':', colon)?;
    }
    Err(unexpected(rest))
}

pub(crate) fn number(tokens: &[Token]) -> Result<(u64, &[Token]), Stop> {
    primary(MOST_LEVELS, tokens)
}
