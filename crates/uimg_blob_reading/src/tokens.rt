//! The tokens of the structure block, as read.

ghost use Rattle.std.specs.Prelude.{◌≡◌, ℕ, ◌+◌, ◌^◌, ◌<◌, ◌≤◌, length, IfOk, IfErr};
ghost use Rattle.std.specs.Option.{option_map};
ghost use Rattle.uimg_texts.specs.Nul.{before_nul};
ghost use Rattle.uimg_blob_reading.specs.{Extents.{IsInside, blocks_of}, Keys.key_named};
ghost use Rattle.uimg_blob_reading.specs.Tokens.{reach, begins, property_at, prop};
ghost use Rattle.uimg_blob_reading.specs.Places.{IsHead, HeadWithin};
ghost use Rattle.uimg_blob_reading.specs.ReadTokens.{IsReadAs, IsSound, IsOfToken, Stands, Answers, ReadsToken, ReadsTokenAt};

use crate::extent::Extent;
use crate::fault::BlobFault;
use crate::keys::{Key, key_named};
use crate::labels::{Label, label_of};
use crate::reads::{read_near, read_pair, read_word};
use std::alloc::Allocator;
use uimg_base::{Room, Source, SourceFault, first_nul};

// The tokens of the structure block (Devicetree Specification, section 5.4.1).
pub(crate) const FDT_BEGIN_NODE: u32 = 1;

pub(crate) const FDT_END_NODE: u32 = 2;

pub(crate) const FDT_PROP: u32 = 3;

pub(crate) const FDT_NOP: u32 = 4;

const FDT_END: u32 = 9;

/// What is read of a token (Devicetree Specification, section 5.4.1).
#[derive(Clone, Copy, Debug, PartialEq, Eq)]
pub enum ReadToken {
    /// FDT_BEGIN_NODE: the length and the label of the node's name.
    BeginNode { length: u32, label: Label },
    /// FDT_BEGIN_NODE whose name is too long or truncated.
    BadBeginNode(BlobFault),
    /// FDT_END_NODE.
    EndNode,
    /// FDT_PROP: the length of the value and the key of the property's name.
    Prop { length: u32, key: Option<Key> },
    /// FDT_PROP that is truncated, or whose name is not in the strings block.
    BadProp(BlobFault),
    /// FDT_NOP.
    Nop,
    /// FDT_END.
    End,
    /// Not a token, or a truncated word.
    Stray(BlobFault),
}

// Reads a token that begins a node from the bytes near its name. If they have no NUL, the fault is
// `BadNodeName` if they are 256, and `Truncated` if the block ends before.
fn begin_node_in(near: &[u8]) -> ReadToken
    requires { length near.now ≤ 256 }
    ensures read { (at : ℕ) → IsReadAs at (begins at near.now) result }
    ensures sound { IsSound result }
    ensures stands { (at end : ℕ) → at + 4 + length near.now ≤ end → Stands end at result }
{
    match first_nul(near) {
        Some(length) => ReadToken::BeginNode {
            length: length as u32,
            label: label_of(&near[..length]),
        },
        None if near.len() == 256 => ReadToken::BadBeginNode(BlobFault::BadNodeName),
        None => ReadToken::BadBeginNode(BlobFault::Truncated),
    }
}

// Returns `None` if the bytes have no NUL.
fn key_in(near: &[u8]) -> Option<Option<Key>>
    ensures { result ≡ option_map key_named (before_nul near.now) }
{
    let length = first_nul(near)?;
    Some(key_named(&near[..length]))
}

// The structure block ends at `end`.
fn read_begin_node<S: Source, A: Allocator>(
    source: &mut S,
    room: &mut Room<A>,
    at: u64,
    end: u64,
) -> Result<ReadToken, SourceFault>
    requires ordered { at + 4 ≤ end }
    requires within { end ≤ length (S.device source.old).bytes }
    ensures { ReadsToken 256 (λ bytes. begins at (reach bytes (at + 4) end)) end at result
        (S.device source.old) (S.device source.new) room.old room.new }
{
    let window = room.window();
    let length = read_near(source, window, at + 4, end)?;
    Ok(begin_node_in(&window[..length]))
}

// Returns `None` if the name has no NUL before `end`.
fn read_key<S: Source, A: Allocator>(
    source: &mut S,
    room: &mut Room<A>,
    at: u64,
    end: u64,
) -> Result<Option<Option<Key>>, SourceFault>
    requires ordered { at ≤ end }
    requires within { end ≤ length (S.device source.old).bytes }
    ensures key { Answers 256 result
        (λ bytes key. key ≡ option_map key_named (before_nul (reach bytes at end)))
        (S.device source.old) (S.device source.new) }
    ensures room { room.new ≡ room.old }
{
    let window = room.window();
    let length = read_near(source, window, at, end)?;
    Ok(key_in(&window[..length]))
}

/// The fields of a property's token.
#[derive(Clone, Copy)]
pub(crate) struct Head {
    /// The length of its value in bytes.
    pub(crate) length: u32,
    /// The offset of its name, in the strings block.
    pub(crate) name: u64,
}

// Reads the fields of a property's token. The fault is `Truncated` if the structure block ends
// inside the property, and `BadPropertyName` if its name does not begin in the strings block.
pub(crate) fn read_head<S: Source>(
    source: &mut S,
    extent: Extent,
    at: u64,
) -> Result<Result<Head, BlobFault>, SourceFault>
    requires inside { IsInside extent (length (S.device source.old).bytes) }
    requires place { at < 2 ^ 40 }
    ensures head { Answers 8 result (λ bytes head. IsHead bytes extent at head)
        (S.device source.old) (S.device source.new) }
    ensures bound { IfOk result (λ head. IfOk head (λ h. HeadWithin extent at h)) }
    ensures sound { IfOk result (λ head. IfErr head (λ fault. IsOfToken fault)) }
{
    if extent.structure_end < at + 12 {
        return Ok(Err(BlobFault::Truncated));
    }
    let (length, name) = read_pair(source, at + 4)?;
    if extent.structure_end < at + 12 + length as u64 {
        return Ok(Err(BlobFault::Truncated));
    }
    if name as u64 >= extent.strings_size {
        return Ok(Err(BlobFault::BadPropertyName));
    }
    let name = extent.strings + name as u64;
    Ok(Ok(Head { length, name }))
}

// Reads a property's token. The fault is `Truncated` if the structure block ends inside it, and
// `BadPropertyName` if its name is not in the strings block.
fn read_property<S: Source, A: Allocator>(
    source: &mut S,
    room: &mut Room<A>,
    extent: Extent,
    at: u64,
) -> Result<ReadToken, SourceFault>
    requires inside { IsInside extent (length (S.device source.old).bytes) }
    requires place { at < 2 ^ 40 }
    ensures { ReadsToken 264 (λ bytes. prop at (property_at (blocks_of bytes extent) at))
        extent.structure_end at result (S.device source.old) (S.device source.new)
        room.old room.new }
{
    let head = match read_head(source, extent, at)? {
        Ok(head) => head,
        Err(fault) => return Ok(ReadToken::BadProp(fault)),
    };
    let strings_end = extent.strings + extent.strings_size;
    match read_key(source, room, head.name, strings_end)? {
        Some(key) => Ok(ReadToken::Prop {
            length: head.length,
            key,
        }),
        None => Ok(ReadToken::BadProp(BlobFault::BadPropertyName)),
    }
}

/// Reads the token at an offset in bytes from the start of the file: its word, at most 256 bytes of
/// a name, and a property's length and name offset, but no value.
///
/// A token is `Stray` with `Truncated` if the structure block ends inside its word, and with
/// `BadToken` if the word is not a token. Returns `SourceFault` if a read failed. Requests at most
/// 268 bytes, and of an honest source at most the token's cost. What a token names is inside the
/// structure block, whatever the source returns.
#[tactic(auto, unfolding(crate::specs::Tokens::token_at))]
pub fn read_token<S: Source, A: Allocator>(
    source: &mut S,
    room: &mut Room<A>,
    extent: Extent,
    at: u64,
) -> Result<ReadToken, SourceFault>
    requires inside { IsInside extent (length (S.device source.old).bytes) }
    requires place { at < 2 ^ 40 }
    ensures { ReadsTokenAt extent at result (S.device source.old) (S.device source.new)
        room.old room.new }
{
    if extent.structure_end < at + 4 {
        return Ok(ReadToken::Stray(BlobFault::Truncated));
    }
    match read_word(source, at)? {
        FDT_BEGIN_NODE => read_begin_node(source, room, at, extent.structure_end),
        FDT_END_NODE => Ok(ReadToken::EndNode),
        FDT_PROP => read_property(source, room, extent, at),
        FDT_NOP => Ok(ReadToken::Nop),
        FDT_END => Ok(ReadToken::End),
        _ => Ok(ReadToken::Stray(BlobFault::BadToken)),
    }
}
