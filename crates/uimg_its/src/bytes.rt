//! The classes of bytes in a source text.

ghost use Rattle.std.specs.{Prelude.{◌≡◌, ◌==◌, ◌≤◌, not, length, drop}, List.prefix_len};
ghost use Rattle.uimg_its.specs.Words.{mark_of, is_blank, is_name_byte, is_directive_byte};

use crate::tokens::Mark;

pub(crate) fn after(text: &[u8], n: usize) -> &[u8]
    requires { n ≤ length text.now }
    ensures { result.now ≡ drop n text.now }
{
    &text[n..]
}

pub(crate) fn is_blank(b: u8) -> bool
    ensures { result ≡ is_blank b }
{
    matches!(b, b' ' | 9..=13)
}

pub(crate) fn is_name_byte(b: u8) -> bool
    ensures { result ≡ is_name_byte b }
{
    b.is_ascii_alphabetic()
        || b.is_ascii_digit()
        || matches!(
            b,
            b',' | b'.' | b'_' | b'+' | b'*' | b'#' | b'?' | b'@' | b'-'
        )
}

fn is_directive_byte(b: u8) -> bool
    ensures { result ≡ is_directive_byte b }
{
    b.is_ascii_alphabetic() || b.is_ascii_digit() || b == b'-'
}

pub(crate) fn mark_of(b: u8) -> Option<Mark>
    ensures { result ≡ mark_of b }
{
    let mark = match b {
        b'{' => Mark::BraceOpen,
        b'}' => Mark::BraceClose,
        b';' => Mark::Semicolon,
        b'=' => Mark::Equals,
        b'<' => Mark::Less,
        b'>' => Mark::Greater,
        b'(' => Mark::ParenOpen,
        b')' => Mark::ParenClose,
        b'[' => Mark::BracketOpen,
        b']' => Mark::BracketClose,
        b':' => Mark::Colon,
        b'&' => Mark::Ampersand,
        b'\'' => Mark::Apostrophe,
        _ => return None,
    };
    Some(mark)
}

pub(crate) fn name_length(text: &[u8]) -> usize
    ensures length { result ≡ prefix_len is_name_byte text.now }
    ensures within { result ≤ length text.now }
{
    text.iter().take_while(|b| is_name_byte(**b)).count()
}

pub(crate) fn directive_length(text: &[u8]) -> usize
    ensures length { result ≡ prefix_len is_directive_byte text.now }
    ensures within { result ≤ length text.now }
{
    text.iter().take_while(|b| is_directive_byte(**b)).count()
}

pub(crate) fn line_length(text: &[u8]) -> usize
    ensures length { result ≡ prefix_len (λ b. not (b == 10)) text.now }
    ensures within { result ≤ length text.now }
{
    text.iter().take_while(|b| **b != b'\n').count()
}
