//! The state of a pass, and what each token does to it.

ghost use Rattle.std.specs.Prelude.{◌≡◌, ◌+◌, ◌-◌, ◌^◌, ◌<◌, ℕ, List, length, IfSome};
ghost use Rattle.uimg_blob_reading.specs.{Tokens.Token, Labels.label_of};
ghost use Rattle.uimg_blob_reading.specs.Roles.{role_at, sum_role, is_hash, is_signature};
ghost use Rattle.uimg_blob_reading.specs.{SoFar.next_level, ReadTokens.{IsReadAs, Stands, IsSound}};
ghost use Rattle.uimg_blob_reading.specs.Acting.{Suits, Does};
ghost use Rattle.uimg_blob_reading.specs.Passes.{Phase, InPhase, stack, is_done, bare, is_after, child_level, noted_images, noted_configurations};
ghost use Rattle.uimg_blob_reading.specs.declared.tokens.ReadToken.TheVariants.{BeginNode, EndNode, Prop};

use crate::entries::{PARENT, ROLE, enter, keep, leave, number_in, role_in};
use crate::fault::{BlobFault, IndexFault};
use crate::keys::Key;
use crate::labels::Label;
use crate::roles::Role;
use crate::tokens::ReadToken;
use std::alloc::Allocator;
use uimg_base::{Room, up4};

/// The state of a pass over the tokens: the offset of the next token, and the numbers of the
/// innermost open node and of the root's first children `images` and `configurations`.
#[derive(Clone, Copy)]
pub(crate) struct State {
    pub(crate) at: u64,
    pub(crate) current: Option<usize>,
    pub(crate) images: Option<usize>,
    pub(crate) configurations: Option<usize>,
}

fn sum_role(label: Label) -> Role
    ensures { (name : List ℕ) → label ≡ label_of name →
        result ≡ sum_role (is_hash name) (is_signature name) }
{
    match label {
        Label::Hash => Role::Hash,
        Label::Signature => Role::Signature,
        _ => Role::Other,
    }
}

fn child_role(parent: Role, label: Label, had_images: bool, had_configurations: bool) -> Role
    ensures { (name : List ℕ) → label ≡ label_of name →
        result ≡ role_at (child_level parent had_images had_configurations) name }
{
    match parent {
        Role::Root => match label {
            Label::Images if !had_images => Role::Images,
            Label::Configurations if !had_configurations => Role::Configurations,
            _ => Role::Other,
        },
        Role::Images => Role::Image,
        Role::Image => sum_role(label),
        Role::Configurations => Role::Configuration,
        Role::Configuration => sum_role(label),
        Role::Hash | Role::Signature | Role::Other => Role::Other,
    }
}

fn role_for<A: Allocator>(room: &Room<A>, state: State, label: Label) -> Role
    requires { IfSome state.current (λ i. i < length room.now.entries) }
    ensures { (p : Phase) (name : List ℕ) → InPhase p state room.now.entries →
        label ≡ label_of name → result ≡ role_at (next_level (stack p)) name }
{
    match state.current {
        None => Role::Root,
        Some(parent) => {
            let role = role_in(room.entry(parent)[ROLE]);
            let had_images = state.images.is_some();
            let had_configurations = state.configurations.is_some();
            child_role(role, label, had_images, had_configurations)
        }
    }
}

// Returns the numbers of `images` and `configurations` after a node of this role began.
fn noted(state: State, role: Role, number: usize) -> (Option<usize>, Option<usize>)
    ensures images { result.0 ≡ noted_images role number state.images }
    ensures configurations { result.1 ≡ noted_configurations role number state.configurations }
{
    match role {
        Role::Images => (Some(number), state.configurations),
        Role::Configurations => (state.images, Some(number)),
        _ => (state.images, state.configurations),
    }
}

fn begin<A: Allocator>(
    room: &mut Room<A>,
    state: State,
    size: u32,
    label: Label,
) -> Result<State, IndexFault>
    requires place { state.at + 4 + size + 1 < 2 ^ 32 }
    requires suits { Suits state room.old.entries }
    ensures { Does (BeginNode size label) state result room.old room.new }
{
    let number = room.count();
    if is_after(room, state) {
        return Err(IndexFault::Blob(BlobFault::BadNesting, state.at));
    }
    let role = role_for(room, state, label);
    if enter(room, state.at, size, state.current, role).is_err() {
        return Err(IndexFault::Blob(BlobFault::OutOfMemory, state.at));
    }
    let (images, configurations) = noted(state, role, number);
    Ok(State {
        at: state.at + 4 + up4(size as u64 + 1),
        current: Some(number),
        images,
        configurations,
    })
}

fn end_node<A: Allocator>(room: &mut Room<A>, state: State) -> Result<State, IndexFault>
    requires place { state.at < 2 ^ 32 }
    requires suits { Suits state room.old.entries }
    ensures { Does EndNode state result room.old room.new }
{
    let Some(number) = state.current else {
        return Err(IndexFault::Blob(BlobFault::BadNesting, state.at));
    };
    let parent = number_in(room.entry(number)[PARENT]);
    leave(room, number);
    Ok(State {
        at: state.at + 4,
        current: parent,
        images: state.images,
        configurations: state.configurations,
    })
}

// Returns the number of the innermost node if it has no child yet.
fn bare<A: Allocator>(room: &Room<A>, state: State) -> Option<usize>
    ensures bare { (p : Phase) → InPhase p state room.now.entries → result ≡ bare p }
    ensures within { IfSome result (λ i. i < length room.now.entries) }
{
    match state.current {
        Some(number) if room.count() > number && room.count() - number == 1 => Some(number),
        _ => None,
    }
}

// The root has ended.
fn is_after<A: Allocator>(room: &Room<A>, state: State) -> bool
    ensures { (p : Phase) → InPhase p state room.now.entries → result ≡ is_after p }
{
    state.current.is_none() && room.count() > 0
}

fn property<A: Allocator>(
    room: &mut Room<A>,
    state: State,
    size: u32,
    key: Option<Key>,
) -> Result<State, IndexFault>
    requires { state.at + 12 + size < 2 ^ 32 }
    ensures { Does (Prop size key) state result room.old room.new }
{
    let Some(number) = bare(room, state) else {
        return Err(IndexFault::Blob(BlobFault::BadNesting, state.at));
    };
    keep(room, number, key, state.at + 12, size);
    Ok(State {
        at: state.at + 12 + up4(size as u64),
        current: state.current,
        images: state.images,
        configurations: state.configurations,
    })
}

pub(crate) fn is_done<A: Allocator>(room: &Room<A>, state: State, token: ReadToken) -> bool
    ensures { (p : Phase) (t : Token) → InPhase p state room.now.entries →
        IsReadAs state.at t token → result ≡ is_done p t }
{
    match token {
        ReadToken::End => is_after(room, state),
        _ => false,
    }
}

// Acts on a token that does not end the tree. A faulty token has its fault if allowed here.
pub(crate) fn act<A: Allocator>(
    room: &mut Room<A>,
    state: State,
    token: ReadToken,
) -> Result<State, IndexFault>
    requires stands { Stands (2 ^ 32 - 1) state.at token }
    requires sound { IsSound token }
    requires suits { Suits state room.old.entries }
    ensures { Does token state result room.old room.new }
{
    match token {
        ReadToken::BeginNode { length, label } => begin(room, state, length, label),
        ReadToken::BadBeginNode(_) if is_after(room, state) => {
            Err(IndexFault::Blob(BlobFault::BadNesting, state.at))
        }
        ReadToken::BadBeginNode(fault) => Err(IndexFault::Blob(fault, state.at)),
        ReadToken::EndNode => end_node(room, state),
        ReadToken::Prop { length, key } => property(room, state, length, key),
        ReadToken::BadProp(_) if bare(room, state).is_none() => {
            Err(IndexFault::Blob(BlobFault::BadNesting, state.at))
        }
        ReadToken::BadProp(fault) => Err(IndexFault::Blob(fault, state.at)),
        ReadToken::Nop => Ok(State {
            at: state.at + 4,
            current: state.current,
            images: state.images,
            configurations: state.configurations,
        }),
        ReadToken::End => Err(IndexFault::Blob(BlobFault::BadNesting, state.at)),
        ReadToken::Stray(fault) => Err(IndexFault::Blob(fault, state.at)),
    }
}
