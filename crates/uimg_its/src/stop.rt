//! Why and where reading stopped: the fault of a word at its place.

ghost use Rattle.uimg_its.specs.Answers.{IsInText};

use crate::fault::{Construct, FaultKind};
use crate::tokens::{Mark, Token, Word};

/// Why reading stopped, and how many bytes of the text remain at the word where it did.
#[derive(Clone, Copy, Debug)]
pub(crate) struct Stop {
    pub(crate) kind: FaultKind,
    pub(crate) left: usize,
}

/// The place of a word in a source text.
#[derive(Clone, Copy, Debug, PartialEq, Eq)]
pub(crate) enum Place {
    /// Before or after the root's body.
    Outside,
    /// In the root's body.
    Body,
    /// Between `<` and `>`.
    Cells,
}

pub(crate) fn ends_early() -> Stop
    ensures { IsInText result.kind }
{
    Stop {
        kind: FaultKind::BadSyntax,
        left: 0,
    }
}

pub(crate) fn unexpected(token: Token<'_>, place: Place) -> Stop
    ensures { IsInText result.kind }
{
    let kind = match token.word {
        Word::Directive(_) => FaultKind::OutOfProfile(Construct::Directive),
        Word::Mark(Mark::Ampersand) => FaultKind::OutOfProfile(Construct::Reference),
        Word::Mark(Mark::Apostrophe) => FaultKind::OutOfProfile(Construct::CharacterLiteral),
        Word::Mark(Mark::ParenOpen) if place == Place::Cells => {
            FaultKind::OutOfProfile(Construct::Expression)
        }
        Word::Name([b'#', ..]) if place == Place::Outside => {
            FaultKind::OutOfProfile(Construct::Preprocessor)
        }
        _ => FaultKind::BadSyntax,
    };
    Stop {
        kind,
        left: token.left,
    }
}
