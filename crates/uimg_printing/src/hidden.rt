//! Characters that are not visible as such.

ghost use Rattle.std.specs.{Prelude.◌≡◌, List.list_any};
ghost use Rattle.uimg_printing.specs.Hidden.{is_in, is_hidden};

// The control and format characters of Unicode 15, its line and paragraph separators, and the
// backslash, as ranges: first and last character.
const HIDDEN: [(char, char); 22] = [
    ('\0', '\x1f'),
    ('\\', '\\'),
    ('\x7f', '\u{9f}'),
    ('\u{ad}', '\u{ad}'),
    ('\u{600}', '\u{605}'),
    ('\u{61c}', '\u{61c}'),
    ('\u{6dd}', '\u{6dd}'),
    ('\u{70f}', '\u{70f}'),
    ('\u{890}', '\u{891}'),
    ('\u{8e2}', '\u{8e2}'),
    ('\u{180e}', '\u{180e}'),
    ('\u{200b}', '\u{200f}'),
    ('\u{2028}', '\u{202e}'),
    ('\u{2060}', '\u{206f}'),
    ('\u{feff}', '\u{feff}'),
    ('\u{fff9}', '\u{fffb}'),
    ('\u{110bd}', '\u{110bd}'),
    ('\u{110cd}', '\u{110cd}'),
    ('\u{13430}', '\u{1343f}'),
    ('\u{1bca0}', '\u{1bca3}'),
    ('\u{1d173}', '\u{1d17a}'),
    ('\u{e0001}', '\u{e007f}'),
];

fn is_among(letter: char, ranges: &[(char, char)]) -> bool
    ensures { result ≡ list_any (is_in letter) ranges.now }
{
    for (first, last) in ranges {
        if *first <= letter && letter <= *last {
            return true;
        }
    }
    false
}

/// Returns whether a character is a backslash or not visible: a control or format character of
/// Unicode (Cc, Cf), or a line or paragraph separator (Zl, Zp).
#[tactic(auto, unfolding(crate::specs::Hidden::is_hidden))]
pub fn is_hidden(letter: char) -> bool
    ensures { result ≡ is_hidden letter }
{
    is_among(letter, &HIDDEN)
}
