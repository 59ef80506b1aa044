//! The entry of a node: its words, and how a pass adds, ends and fills it.

ghost use Rattle.std.specs.Prelude.{◌≡◌, ◌+◌, ◌^◌, ◌<◌, length, IfSome, is_ok, is_err};
ghost use Rattle.uimg_blob_reading.specs.Kept.{span_word, number_word, role_word};
ghost use Rattle.uimg_blob_reading.specs.Entering.{Enters, GainsValue, begun_entry, ended_entries};

use crate::keys::Key;
use crate::roles::Role;
use crate::slots::slot_of;
use std::alloc::{AllocError, Allocator};
use uimg_base::Room;

// The words of an entry: the span of the node's name, its parent's number, the number of the first
// node after its descendants, its role, and the spans of its keys' values.
pub(crate) const NAME: usize = 0;

pub(crate) const PARENT: usize = 1;

pub(crate) const END: usize = 2;

pub(crate) const ROLE: usize = 3;

pub(crate) const VALUES: usize = 5;

fn span_word(place: u64, length: u32) -> u64
    requires { place < 2 ^ 32 }
    ensures { result ≡ span_word place length }
{
    place * 0x1_0000_0000 + length as u64
}

// 0 is none.
fn number_word(number: Option<usize>) -> u64
    requires { IfSome number (λ i. i < 2 ^ 63) }
    ensures { result ≡ number_word number }
{
    match number {
        Some(i) => i as u64 + 1,
        None => 0,
    }
}

fn role_word(role: Role) -> u64
    ensures { result ≡ role_word role }
{
    match role {
        Role::Root => 0,
        Role::Images => 1,
        Role::Image => 2,
        Role::Hash => 3,
        Role::Configurations => 4,
        Role::Configuration => 5,
        Role::Other => 6,
        Role::Signature => 7,
    }
}

pub(crate) fn number_in(word: u64) -> Option<usize>
    ensures { word ≡ number_word result }
{
    if word == 0 {
        None
    } else {
        Some((word - 1) as usize)
    }
}

pub(crate) fn role_in(word: u64) -> Role
    ensures { (role : Role) → word ≡ role_word role → result ≡ role }
{
    match word {
        0 => Role::Root,
        1 => Role::Images,
        2 => Role::Image,
        3 => Role::Hash,
        4 => Role::Configurations,
        5 => Role::Configuration,
        7 => Role::Signature,
        _ => Role::Other,
    }
}

// `at` is the offset of the node's token.
pub(crate) fn enter<A: Allocator>(
    room: &mut Room<A>,
    at: u64,
    name_length: u32,
    parent: Option<usize>,
    role: Role,
) -> Result<(), AllocError>
    requires place { at + 4 < 2 ^ 32 }
    requires parent { IfSome parent (λ i. i < 2 ^ 63) }
    ensures { Enters (is_ok result) (is_err result) (begun_entry at name_length parent role)
        room.old room.new }
{
    let mut entry = [0; 16];
    entry[NAME] = span_word(at + 4, name_length);
    entry[PARENT] = number_word(parent);
    entry[ROLE] = role_word(role);
    room.add(entry)
}

// Ends a node: all entries after its own are of its descendants.
pub(crate) fn leave<A: Allocator>(room: &mut Room<A>, number: usize)
    requires { number < length room.old.entries }
    ensures { room.new ≡ record room.old { entries = ended_entries number room.old.entries } }
{
    let mut entry = room.entry(number);
    entry[END] = room.count() as u64;
    room.set(number, entry);
}

// Stores the span of a property's value in the innermost node's entry, unless it has no key, the
// role keeps no value of that key, or the name is already taken.
pub(crate) fn keep<A: Allocator>(
    room: &mut Room<A>,
    number: usize,
    key: Option<Key>,
    place: u64,
    value_length: u32,
)
    requires number { number < length room.old.entries }
    requires place { place < 2 ^ 32 }
    ensures { GainsValue key place value_length number room.old room.new }
{
    let Some(key) = key else {
        return;
    };
    let mut entry = room.entry(number);
    let Some(i) = slot_of(role_in(entry[ROLE]), key) else {
        return;
    };
    if entry[i + VALUES] == 0 {
        entry[i + VALUES] = span_word(place, value_length);
        room.set(number, entry);
    }
}
