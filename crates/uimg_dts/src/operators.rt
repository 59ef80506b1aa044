//! The operators of expressions, on unsigned numbers of 64 bits, as in C.

use crate::tokens::{Double, Word};

/// An operator between two numbers.
#[derive(Clone, Copy)]
pub(crate) enum Binary {
    Or,
    And,
    BitOr,
    BitXor,
    BitAnd,
    Equal,
    Unequal,
    Less,
    Greater,
    AtMost,
    AtLeast,
    ShiftLeft,
    ShiftRight,
    Add,
    Subtract,
    Multiply,
    Divide,
    Remainder,
}

/// The strength of the weakest operators.
pub(crate) const WEAKEST: u8 = 1;

/// A strength above that of all operators.
pub(crate) const ABOVE_ALL: u8 = 11;

/// Returns the operator and its strength. Of two operators the stronger one takes its numbers
/// first, and of two with one strength the first.
pub(crate) fn binary_of(word: Word) -> Option<(Binary, u8)> {
    match word {
        Word::Double(Double::Or) => Some((Binary::Or, 1)),
        Word::Double(Double::And) => Some((Binary::And, 2)),
        Word::Single(b'|') => Some((Binary::BitOr, 3)),
        Word::Single(b'^') => Some((Binary::BitXor, 4)),
        Word::Single(b'&') => Some((Binary::BitAnd, 5)),
        Word::Double(Double::Equal) => Some((Binary::Equal, 6)),
        Word::Double(Double::Unequal) => Some((Binary::Unequal, 6)),
        Word::Single(b'<') => Some((Binary::Less, 7)),
        Word::Single(b'>') => Some((Binary::Greater, 7)),
        Word::Double(Double::AtMost) => Some((Binary::AtMost, 7)),
        Word::Double(Double::AtLeast) => Some((Binary::AtLeast, 7)),
        Word::Double(Double::ShiftLeft) => Some((Binary::ShiftLeft, 8)),
        Word::Double(Double::ShiftRight) => Some((Binary::ShiftRight, 8)),
        Word::Single(b'+') => Some((Binary::Add, 9)),
        Word::Single(b'-') => Some((Binary::Subtract, 9)),
        Word::Single(b'*') => Some((Binary::Multiply, 10)),
        Word::Single(b'/') => Some((Binary::Divide, 10)),
        Word::Single(b'%') => Some((Binary::Remainder, 10)),
        _ => None,
    }
}

/// Returns `None` if the operator divides by zero. A shift by 64 bits or more makes zero.
pub(crate) fn combined(operator: Binary, a: u64, b: u64) -> Option<u64> {
    let value = match operator {
        Binary::Or => u64::from(a != 0 || b != 0),
        Binary::And => u64::from(a != 0 && b != 0),
        Binary::BitOr => a | b,
        Binary::BitXor => a ^ b,
        Binary::BitAnd => a & b,
        Binary::Equal => u64::from(a == b),
        Binary::Unequal => u64::from(a != b),
        Binary::Less => u64::from(a < b),
        Binary::Greater => u64::from(a > b),
        Binary::AtMost => u64::from(a <= b),
        Binary::AtLeast => u64::from(a >= b),
        Binary::ShiftLeft if b < 64 => a << b,
        Binary::ShiftRight if b < 64 => a >> b,
        Binary::ShiftLeft | Binary::ShiftRight => 0,
        Binary::Add => a.wrapping_add(b),
        Binary::Subtract => a.wrapping_sub(b),
        Binary::Multiply => a.wrapping_mul(b),
        Binary::Divide if b == 0 => return None,
        Binary::Divide => a / b,
        Binary::Remainder if b == 0 => return None,
        Binary::Remainder => a % b,
    };
    Some(value)
}
