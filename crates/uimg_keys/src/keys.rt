//! The keys that a configuration must be signed by.

ghost use Rattle.std.specs.Prelude.{◌≡◌, ◌++◌, flat_map, map, IfOk, OnOk};
ghost use Rattle.uimg_keys.specs.Names.{between, joined};

use crate::key::PublicKey;
use std::alloc::{AllocError, Global};

/// The keys that a configuration must be signed by.
#[derive(Drop)]
pub struct Keys {
    /// The keys, one at least.
    pub keys: Vec<PublicKey>,

    /// Whether a signature by one of them is enough, instead of one by each.
    pub is_any: bool,

    /// What they are called in messages: their names, one after the other, as `dev, prod`, or as
    /// `dev or prod` if one is enough. Empty without names.
    pub name: Vec<u8>,
}

/// Returns the names of keys, one after the other.
#[tactic(auto, unfolding(crate::specs::Names::joined))]
pub(crate) fn joined(alloc: Global, keys: &[PublicKey], is_any: bool) -> Result<Vec<u8>, AllocError>
    ensures { IfOk result (λ text. text.items ≡ joined is_any (map (λ key. key.name.items) keys.now)) }
{
    let mut text = Vec::new(alloc);
    let Some(first) = keys.first() else {
        return Ok(text);
    };
    text.extend_from_slice(first.name.as_slice())?;
    add_names(&mut text, &keys[1..], is_any)?;
    Ok(text)
}

fn add_names(text: &mut Vec<u8>, keys: &[PublicKey], is_any: bool) -> Result<(), AllocError>
    ensures { OnOk result (text.new.items ≡ text.old.items
        ++ flat_map (λ key. between is_any ++ key.name.items) keys.now) }
{
    for key in keys {
        text.extend_from_slice(between(is_any))?;
        text.extend_from_slice(key.name.as_slice())?;
    }
    Ok(())
}

fn between(is_any: bool) -> &'static [u8]
    ensures { result.now ≡ between is_any }
{
    if is_any { b" or " } else { b", " }
}
