//! The spans of a property, read from its token.

ghost use Rattle.std.specs.Prelude.{◌≡◌, ◌+◌, ◌^◌, ◌<◌, ◌≤◌, length, IfOk, IfSome};
ghost use Rattle.uimg_blob_reading.specs.{Extents.{IsInside, blocks_of}, Tokens.property_at};
ghost use Rattle.uimg_blob_reading.specs.ReadTokens.{Answers};
ghost use Rattle.uimg_blob_reading.specs.Places.{NameIs, FindsPlace, Lies, MeetsToken};

use crate::extent::Extent;
use crate::reads::{read_near, read_word};
use crate::tokens::{FDT_BEGIN_NODE, FDT_END_NODE, FDT_NOP, FDT_PROP, read_head};
use std::alloc::Allocator;
use uimg_base::{Room, Source, SourceFault, Span, first_nul};

/// The spans of a property's name and value.
#[derive(Clone, Copy, Debug, PartialEq, Eq)]
pub struct PropertyPlace {
    /// The name in the strings block, without its NUL.
    pub name: Span,
    /// The value.
    pub value: Span,
}

/// What is met after a node's name.
#[derive(Clone, Copy)]
pub(crate) enum Met {
    /// A property.
    Place(PropertyPlace),
    /// FDT_NOP.
    Nop,
    /// A token that begins or ends a node.
    Edge,
    /// Another token, or a faulty one.
    Strange,
}

// Returns `None` if the name has no NUL before `end`.
fn name_length<S: Source, A: Allocator>(
    source: &mut S,
    room: &mut Room<A>,
    at: u64,
    end: u64,
) -> Result<Option<usize>, SourceFault>
    requires ordered { at ≤ end }
    requires within { end ≤ length (S.device source.old).bytes }
    ensures name { Answers 256 result (λ bytes found. NameIs bytes at end found)
        (S.device source.old) (S.device source.new) }
    ensures room { room.new ≡ room.old }
    ensures bound { IfOk result (λ found. IfSome found (λ n. (at + n ≤ end) × (n ≤ 255))) }
{
    let window = room.window();
    let length = read_near(source, window, at, end)?;
    Ok(first_nul(&window[..length]))
}

// Returns `None` if the token is faulty.
fn find_place<S: Source, A: Allocator>(
    source: &mut S,
    room: &mut Room<A>,
    extent: Extent,
    at: u64,
) -> Result<Option<PropertyPlace>, SourceFault>
    requires inside { IsInside extent (length (S.device source.old).bytes) }
    requires place { at < 2 ^ 40 }
    ensures place { Answers 264 result (λ bytes found.
        FindsPlace bytes (property_at (blocks_of bytes extent) at) found)
        (S.device source.old) (S.device source.new) }
    ensures room { room.new ≡ room.old }
    ensures lies { IfOk result (λ found. IfSome found (λ x. Lies extent at x)) }
{
    let Ok(head) = read_head(source, extent, at)? else {
        return Ok(None);
    };
    let strings_end = extent.strings + extent.strings_size;
    let Some(length) = name_length(source, room, head.name, strings_end)? else {
        return Ok(None);
    };
    let name = Span {
        place: head.name,
        length: length as u64,
    };
    let value = Span {
        place: at + 12,
        length: head.length as u64,
    };
    Ok(Some(PropertyPlace { name, value }))
}

// Of a token that begins a node, only the word is read.
#[tactic(auto, unfolding(crate::specs::Tokens::token_at))]
pub(crate) fn meet<S: Source, A: Allocator>(
    source: &mut S,
    room: &mut Room<A>,
    extent: Extent,
    at: u64,
) -> Result<Met, SourceFault>
    requires inside { IsInside extent (length (S.device source.old).bytes) }
    requires place { at < 2 ^ 40 }
    ensures { MeetsToken extent at result (S.device source.old) (S.device source.new)
        room.old room.new }
{
    if extent.structure_end < at + 4 {
        return Ok(Met::Strange);
    }
    match read_word(source, at)? {
        FDT_BEGIN_NODE | FDT_END_NODE => Ok(Met::Edge),
        FDT_PROP => match find_place(source, room, extent, at)? {
            Some(place) => Ok(Met::Place(place)),
            None => Ok(Met::Strange),
        },
        FDT_NOP => Ok(Met::Nop),
        _ => Ok(Met::Strange),
    }
}
