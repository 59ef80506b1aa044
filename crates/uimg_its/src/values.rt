//! Values of properties; some stay files.

ghost use Rattle.std.specs.Prelude.{◌≡◌, ◌<◌, ◌≤◌, ◌∷◌, Some, IfSome, IfOk, length, codes, false};
ghost use Rattle.std.specs.Option.{option_map_or};
ghost use Rattle.uimg_blob_writing.specs.{Content.content_bytes, Properties.content};
ghost use Rattle.uimg_blob_writing.specs.LentFiles.{OfHonest};
ghost use Rattle.uimg_its.specs.{Words.words, Answers.{Gives, IsOutside, OpensFiles}};
ghost use Rattle.uimg_its.specs.{Reading.ReadsText, Steps.{with_front, step_front}, Seen.seen_word};
ghost use Rattle.uimg_its.specs.Reader.{is_last_value, spelled_value, value_step, values};
ghost use Rattle.uimg_its.specs.{FileValues.IsSoundIn, Included.OpensIncluded};

use crate::growth::{append, append_string};
use crate::incbin::{file, kept, lone_file};
use crate::lexer::need_word;
use crate::lists::{Listed, read_list};
use crate::stop::{Place, Stop, unexpected};
use crate::tokens::{Mark, Token, Word};
use std::alloc::Allocator;
use uimg_base::Files;
use uimg_blob_writing::{ByteList, Value};

// Returns whether a value is the last, from the word after it.
fn ends(token: Token<'_>) -> Result<bool, Stop>
    ensures { ReadsText (λ x. x) result (is_last_value (seen_word token.entry.word)) }
{
    match token.word {
        Word::Mark(Mark::Comma) => Ok(false),
        Word::Mark(Mark::Semicolon) => Ok(true),
        _ => Err(unexpected(token, Place::Body)),
    }
}

#[tactic(auto, unfolding(crate::specs::Reader::spelled_value))]
fn value_of<'a, F: Files, A: Allocator + Copy>(
    alloc: A,
    files: &mut F,
    out: &mut Vec<u8, A>,
    token: Token<'a>,
    text: &'a [u8],
) -> Result<&'a [u8], Stop>
    ensures opens { OpensFiles F.Opened.steady F.map result files }
    ensures included { OpensIncluded F.map (λ rest. words rest.now) result files
        (seen_word token.entry.word ∷ words text.now) }
    ensures gives { OfHonest F.map files (λ there.
        Gives (λ rest. (out.new.items, words rest.now)) result (with_front out.old.items
        (spelled_value there (seen_word token.entry.word) (words text.now)))) }
    ensures within { IfOk result (λ rest. length rest.now ≤ length text.now) }
{
    match token.word {
        Word::Mark(Mark::Less) => read_list(out, Listed::Cells, text),
        Word::Mark(Mark::BracketOpen) => read_list(out, Listed::Bytes, text),
        Word::Text(string) => {
            append_string(out, string, token.left)?;
            append(out, &[0], token.left)?;
            Ok(text)
        }
        Word::Directive(name) if name == b"incbin".as_slice() => {
            file(alloc, files, out, token.left, text)
        }
        _ => Err(unexpected(token, Place::Body)),
    }
}

// Appends a value. Returns whether it is the last, and the text after the word that shows this.
#[tactic(auto, unfolding(crate::specs::Reader::value_step, crate::specs::Reader::value))]
fn value_step<'a, F: Files, A: Allocator + Copy>(
    alloc: A,
    files: &mut F,
    out: &mut Vec<u8, A>,
    text: &'a [u8],
) -> Result<(bool, &'a [u8]), Stop>
    ensures opens { OpensFiles F.Opened.steady F.map result files }
    ensures included { OpensIncluded F.map (λ x. words x.1.now) result files (words text.now) }
    ensures gives { OfHonest F.map files (λ there. Gives (λ x. (x.0, out.new.items, words x.1.now))
        result (step_front out.old.items (value_step there (words text.now)))) }
    ensures shorter { IfOk result (λ x. length x.1.now < length text.now) }
{
    let (first, behind) = need_word(text)?;
    let behind = value_of(alloc, files, out, first, behind)?;
    let (second, rest) = need_word(behind)?;
    let last = ends(second)?;
    Ok((last, rest))
}

fn values<'a, F: Files, A: Allocator + Copy>(
    alloc: A,
    files: &mut F,
    out: &mut Vec<u8, A>,
    text: &'a [u8],
) -> Result<&'a [u8], Stop>
    ensures opens { OpensFiles F.Opened.steady F.map result files }
    ensures included { OpensIncluded F.map (λ rest. words rest.now) result files (words text.now) }
    ensures gives { OfHonest F.map files (λ there. Gives (λ rest. (out.new.items, words rest.now))
        result (with_front out.old.items (values there (words text.now)))) }
    ensures shorter { IfOk result (λ rest. length rest.now < length text.now) }
{
    let mut rest = text;
    loop {
        let (last, after) = value_step(alloc, files, out, rest)?;
        if last {
            return Ok(after);
        }
        rest = after;
    }
}

// Reads the value of a property named `data` if it is one file. Returns it with the text after the
// property, or `None` if the value is something else.
fn data_file<'a, F: Files, A: Allocator>(
    alloc: A,
    files: &mut F,
    text: &'a [u8],
) -> Result<Option<(Value<A>, &'a [u8])>, Stop>
    ensures opens { OpensFiles F.Opened.steady F.map result files }
    ensures included { OpensIncluded F.map
        (λ found. option_map_or (λ x. words x.1.now) found (words text.now))
        result files (words text.now) }
    ensures gives { OfHonest F.map files (λ there. IfOk result (λ found. IfSome found (λ x.
        values there (words text.now) ≡ Some (content_bytes there (content x.0), words x.1.now)))) }
    ensures outside { IsOutside result }
    ensures sound { IfOk result (λ found. IfSome found (λ x.
        IsSoundIn (F.map files.old) (codes "data") (content x.0))) }
    ensures shorter { IfOk result (λ found. IfSome found (λ x. length x.1.now < length text.now)) }
{
    let Ok(found) = lone_file(text) else {
        return Ok(None);
    };
    let mut name = Vec::new(alloc);
    append_string(&mut name, found.name, found.left)?;
    let value = kept(files, name, found.left)?;
    Ok(Some((value, found.rest)))
}

/// Reads the value after the equals sign of a property. Returns it and the text after the property.
/// If the property is named `data` and its value is just one file, the value stays a file.
pub(crate) fn assigned<'a, F: Files, A: Allocator + Copy>(
    alloc: A,
    files: &mut F,
    name: &[u8],
    text: &'a [u8],
) -> Result<(Value<A>, &'a [u8]), Stop>
    ensures opens { OpensFiles F.Opened.steady F.map result files }
    ensures included { OpensIncluded F.map (λ x. words x.1.now) result files (words text.now) }
    ensures gives { OfHonest F.map files (λ there.
        Gives (λ x. (content_bytes there (content x.0), words x.1.now)) result
        (values there (words text.now))) }
    ensures sound { IfOk result (λ x. IsSoundIn (F.map files.old) name.now (content x.0)) }
    ensures shorter { IfOk result (λ x. length x.1.now < length text.now) }
{
    if name == b"data".as_slice() {
        if let Some(found) = data_file(alloc, files, text)? {
            return Ok(found);
        }
    }
    let mut value = Vec::new(alloc);
    let rest = values(alloc, files, &mut value, text)?;
    Ok((Value::Bytes(ByteList::of(value)), rest))
}
