//! Strings and their escapes.

ghost use Rattle.std.specs.Prelude.{◌≡◌, ◌≤◌, ◌+◌, ◌++◌, length, IfSome, OnOk, false};
ghost use Rattle.uimg_its.specs.Strings.{unit, escape, zero_escape, hex_escape, string_end, string_bytes};
ghost use Rattle.uimg_its.specs.Answers.{IsInText};

use crate::bytes::after;
use crate::fault::{Construct, FaultKind};
use crate::numbers::hex_pair;
use std::alloc::{AllocError, Allocator};

fn zero_escape(text: &[u8]) -> Option<(u8, usize)>
    ensures { result ≡ zero_escape text.now }
{
    match text.first() {
        Some(b'0'..=b'7') => None,
        _ => Some((0, 1)),
    }
}

fn hex_escape(text: &[u8]) -> Option<(u8, usize)>
    ensures value { result ≡ hex_escape text.now }
    ensures within { IfSome result (λ u. u.1 ≤ length text.now + 1) }
{
    match text {
        [h, l, ..] => Some((hex_pair(*h, *l)?, 3)),
        _ => None,
    }
}

// Returns the byte, and the escape's length after the backslash.
#[tactic(auto, unfolding(crate::specs::Strings::escape))]
fn escape(text: &[u8]) -> Option<(u8, usize)>
    ensures value { result ≡ escape text.now }
    ensures within { IfSome result (λ u. u.1 ≤ length text.now) }
{
    let c = *text.first()?;
    match c {
        b'\\' => Some((b'\\', 1)),
        b'"' => Some((b'"', 1)),
        b'n' => Some((b'\n', 1)),
        b't' => Some((b'\t', 1)),
        b'r' => Some((b'\r', 1)),
        b'0' => zero_escape(after(text, 1)),
        b'x' => hex_escape(after(text, 1)),
        _ => None,
    }
}

// Decodes a byte of a string. Returns the byte that it means, and how many bytes after it it takes.
#[tactic(auto, unfolding(crate::specs::Strings::unit))]
fn unit(a: u8, after: &[u8]) -> Option<(u8, usize)>
    ensures unit { result ≡ unit a after.now }
    ensures within { IfSome result (λ u. u.1 ≤ length after.now) }
{
    if a == b'\\' {
        escape(after)
    } else {
        Some((a, 0))
    }
}

/// Returns the length of a string after its opening quote, the closing quote included.
pub(crate) fn string_length(text: &[u8]) -> Option<usize>
    ensures length { result ≡ string_end 0 text.now }
    ensures within { IfSome result (λ n. n ≤ length text.now) }
{
    let mut i = 0;
    while i < text.len() {
        if text[i] == b'"' {
            return Some(i + 1);
        }
        let (_, more) = unit(text[i], after(text, i + 1))?;
        i += 1 + more;
    }
    None
}

/// Returns why no string begins after a quote: it is not closed, or else it has a bad escape.
pub(crate) fn string_fault(text: &[u8]) -> FaultKind
    ensures { IsInText result }
{
    let mut escaped = false;
    for b in text {
        if !escaped && *b == b'"' {
            return FaultKind::OutOfProfile(Construct::Escape);
        }
        escaped = !escaped && *b == b'\\';
    }
    FaultKind::BadToken
}

/// `text` is what follows the opening quote.
pub(crate) fn push_string<A: Allocator>(out: &mut Vec<u8, A>, text: &[u8]) -> Result<(), AllocError>
    ensures { OnOk result (out.new.items ≡ out.old.items ++ string_bytes 0 text.now) }
{
    let mut i = 0;
    while i < text.len() {
        if text[i] == b'"' {
            return Ok(());
        }
        match unit(text[i], after(text, i + 1)) {
            None => return Ok(()),
            Some((b, more)) => {
                out.push(b)?;
                i += 1 + more;
            }
        }
    }
    Ok(())
}
