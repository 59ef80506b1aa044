//! The files that values name, read whole or kept as name and size.

ghost use Rattle.std.specs.Prelude.{◌≡◌, ◌<◌, ◌∷◌, Some, IfOk, IsTrue, length, codes, false};
ghost use Rattle.uimg_base.specs.Honest.{HonestSource};
ghost use Rattle.uimg_blob_writing.specs.{Content.content_bytes, Properties.content};
ghost use Rattle.uimg_blob_writing.specs.LentFiles.{OfHonest};
ghost use Rattle.uimg_its.specs.{Strings.string_bytes, Words.{words, directive}, FileValues.IsSoundIn};
ghost use Rattle.uimg_its.specs.Included.{OpensIncluded};
ghost use Rattle.uimg_its.specs.{Reading.{ReadsText, ReadsFront, PassesMark}, Steps.with_front};
ghost use Rattle.uimg_its.specs.Reader.{string, string_in, file, expect, is_incbin, lone_file};
ghost use Rattle.uimg_its.specs.{Seen.seen_word, declared.tokens.Mark.TheVariants.ParenClose};
ghost use Rattle.uimg_its.specs.Answers.{Gives, IsOutside, is_no_file, is_unread, IsInText, OpensFiles};

use crate::fault::{Construct, FaultKind};
use crate::growth::{append, append_string, out_of_memory};
use crate::lexer::{expect, is_mark, need_word};
use crate::stop::{Place, Stop, unexpected};
use crate::tokens::{Mark, Token, Word};
use std::alloc::Allocator;
use uimg_base::{Files, MoveFault, Out, Source, WINDOW, copy_through};
use uimg_blob_writing::{ByteList, Value};

fn read_whole<S: Source, A: Allocator>(
    alloc: A,
    source: &mut S,
    left: usize,
) -> Result<Vec<u8, A>, Stop>
    ensures bytes { HonestSource S.device source →
        IfOk result (λ v. v.items ≡ (S.device source.old).bytes) }
    ensures outside { IsOutside result }
    ensures no_file { is_no_file result ≡ false }
    ensures steady { IsTrue S.steady → is_unread result ≡ false }
{
    let read_failed = Stop {
        kind: FaultKind::ReadFailed,
        left,
    };
    let Ok(size) = source.size() else {
        return Err(read_failed);
    };
    let mut window = [0; WINDOW];
    let mut out = Out::new(Vec::new(alloc));
    match copy_through(source, &mut window, 0, size, &mut out) {
        Ok(()) => Ok(out.into_inner()),
        Err(MoveFault::Read) => Err(read_failed),
        Err(MoveFault::Put) => Err(out_of_memory(left)),
    }
}

// Not inlined, to keep its window and its source out of the frames of recursive functions.
#[inline(never)]
fn read_file<F: Files, A: Allocator>(
    alloc: A,
    files: &mut F,
    name: &[u8],
    left: usize,
) -> Result<Vec<u8, A>, Stop>
    ensures opens { OpensFiles F.Opened.steady F.map result files }
    ensures noted { (F.map files.new).opened ≡ name.now ∷ (F.map files.old).opened }
    ensures gives { OfHonest F.map files (λ there. Gives (λ v. v.items) result (there name.now)) }
{
    match files.open(name) {
        Ok(mut source) => read_whole(alloc, &mut source, left),
        Err(_) => Err(Stop {
            kind: FaultKind::NoFile,
            left,
        }),
    }
}

fn string_in(token: Token<'_>) -> Result<&[u8], Stop>
    ensures { ReadsText (λ s. string_bytes 0 s.now) result
        (string_in (seen_word token.entry.word)) }
{
    match token.word {
        Word::Text(string) => Ok(string),
        _ => Err(unexpected(token, Place::Body)),
    }
}

fn string(text: &[u8]) -> Result<(&[u8], &[u8]), Stop>
    ensures { ReadsFront (λ x. string_bytes 0 x.0.now) (λ x. x.1.now) result string text.now }
{
    let (token, rest) = need_word(text)?;
    let string = string_in(token)?;
    Ok((string, rest))
}

fn not_closed(token: Token<'_>) -> Stop
    ensures { IsInText result.kind }
{
    match token.word {
        Word::Mark(Mark::Comma) => Stop {
            kind: FaultKind::OutOfProfile(Construct::IncbinRange),
            left: token.left,
        },
        _ => unexpected(token, Place::Body),
    }
}

fn close(text: &[u8]) -> Result<&[u8], Stop>
    ensures { PassesMark ParenClose result text.now }
{
    let (token, rest) = need_word(text)?;
    if is_mark(Mark::ParenClose, token.word) {
        Ok(rest)
    } else {
        Err(not_closed(token))
    }
}

#[tactic(auto, unfolding(crate::specs::Reader::file))]
pub(crate) fn file<'a, F: Files, A: Allocator + Copy>(
    alloc: A,
    files: &mut F,
    out: &mut Vec<u8, A>,
    left: usize,
    text: &'a [u8],
) -> Result<&'a [u8], Stop>
    ensures opens { OpensFiles F.Opened.steady F.map result files }
    ensures included { OpensIncluded F.map (λ rest. words rest.now) result files
        (directive (codes "incbin") ∷ words text.now) }
    ensures gives { OfHonest F.map files (λ there. Gives (λ rest. (out.new.items, words rest.now))
        result (with_front out.old.items (file there (words text.now)))) }
    ensures shorter { IfOk result (λ rest. length rest.now < length text.now) }
{
    let inner = expect(Mark::ParenOpen, Place::Body, text)?;
    let (quoted, behind) = string(inner)?;
    let rest = close(behind)?;
    let mut name = Vec::new(alloc);
    append_string(&mut name, quoted, left)?;
    let bytes = read_file(alloc, files, &name, left)?;
    append(out, &bytes, left)?;
    Ok(rest)
}

fn is_incbin(word: Word<'_>) -> bool
    ensures { result ≡ is_incbin (seen_word word.entry) }
{
    match word {
        Word::Directive(name) => name == b"incbin".as_slice(),
        _ => false,
    }
}

/// A file that is the whole value of a property.
#[derive(Clone, Copy, Debug)]
pub(crate) struct LoneFile<'a> {
    /// Its name: the text after the opening quote.
    pub(crate) name: &'a [u8],
    /// How many bytes of the text remain at the word `/incbin/`.
    pub(crate) left: usize,
    /// The text after the property.
    pub(crate) rest: &'a [u8],
}

/// Reads a file that is the whole value of a property, after the equals sign. A refusal means that
/// the value is something else. Reads at most six words.
#[tactic(auto, unfolding(crate::specs::Reader::lone_file))]
pub(crate) fn lone_file(text: &[u8]) -> Result<LoneFile<'_>, Stop>
    ensures gives { Gives (λ l. (string_bytes 0 l.name.now, words l.rest.now)) result
        (lone_file (words text.now)) }
    ensures shorter { IfOk result (λ l. length l.rest.now < length text.now) }
{
    let (token, opened) = need_word(text)?;
    if !is_incbin(token.word) {
        return Err(unexpected(token, Place::Body));
    }
    let inner = expect(Mark::ParenOpen, Place::Body, opened)?;
    let (name, behind) = string(inner)?;
    let closed = close(behind)?;
    let rest = expect(Mark::Semicolon, Place::Body, closed)?;
    Ok(LoneFile {
        name,
        left: token.left,
        rest,
    })
}

/// Returns the value of a property named `data` that is one file: its name and its size. Requests
/// none of its bytes.
#[inline(never)]
pub(crate) fn kept<F: Files, A: Allocator>(
    files: &mut F,
    name: Vec<u8, A>,
    left: usize,
) -> Result<Value<A>, Stop>
    ensures opens { OpensFiles F.Opened.steady F.map result files }
    ensures noted { (F.map files.new).opened ≡ name.items ∷ (F.map files.old).opened }
    ensures outside { IsOutside result }
    ensures there { OfHonest F.map files (λ there.
        IfOk result (λ v. there name.items ≡ Some (content_bytes there (content v)))) }
    ensures sound { IfOk result (λ v. IsSoundIn (F.map files.old) (codes "data") (content v)) }
{
    let Ok(mut source) = files.open(&name) else {
        return Err(Stop {
            kind: FaultKind::NoFile,
            left,
        });
    };
    match source.size() {
        Ok(size) => Ok(Value::File {
            name: ByteList::of(name),
            size,
        }),
        Err(_) => Err(Stop {
            kind: FaultKind::ReadFailed,
            left,
        }),
    }
}
