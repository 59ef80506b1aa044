//! The keys of a check or of an unpacking.

ghost use Rattle.std.specs.Prelude.{◌≡◌, IfErr, IfOk, OnErr, OnOk, is_some, option_map, true};
ghost use Rattle.uimg_base.specs.{Honest.IfHonest, Named.SameFiles};
ghost use Rattle.uimg_keys.specs.{Keys.HasKeys, declared.keys.Keys.Keys};
ghost use Rattle.uimg_tool.specs.{Checking.{AreNamed, IsRequired, KeysAt, keys_read}, Statuses.request_status};
ghost use Rattle.uimg_world.specs.Deeds.{changes};

use crate::complaints::unread;
use crate::request_fault::RequestFault;
use std::alloc::{AllocError, Global};
use uimg_base::Source;
use uimg_checks::Terms;
use uimg_cli::{CheckRequest, KeyRequest};
use uimg_keys::{KeyFault, Keys, read_keys};
use uimg_printing::Printed;
use uimg_verifying::Required;
use uimg_world::World;

/// A requested check, and what it asks of each image.
#[derive(Drop)]
pub(crate) struct Keyed<'a, 'b> {
    pub(crate) request: &'a CheckRequest<'b>,
    pub(crate) terms: Terms<'b>,
}

/// Reads the requested keys, if there are any.
pub(crate) fn keys_of<'a, D: World>(
    world: &mut D,
    asked: Option<KeyRequest<'a>>,
) -> Result<Option<Required<'a>>, RequestFault<'a>>
    ensures fails { IfErr result (λ fault. request_status fault ≡ 3) }
    ensures keyed { OnErr result (is_some asked.entry ≡ true) }
    ensures keys { IfOk result (KeysAt (D.map world.old) asked.entry) }
    ensures noted { OnOk result (D.trace world.new ≡ keys_read asked.entry (D.trace world.old)) }
    ensures same { SameFiles (D.map world.old) (D.map world.new) }
    ensures changes { changes (D.trace world.new) ≡ changes (D.trace world.old) }
{
    let Some(asked) = asked else {
        return Ok(None);
    };
    let Ok(mut source) = world.open(asked.path) else {
        return Err(unread(world, asked.path));
    };
    match required_by(world.alloc(), asked, &mut source) {
        Ok(required) => Ok(Some(required)),
        Err(fault) => Err(RequestFault::NoKeys(Printed(asked.path.as_bytes()), fault)),
    }
}

// Returns what a request asks, by the keys of a source.
fn required_by<'a, S: Source>(
    alloc: Global,
    asked: KeyRequest<'a>,
    source: &mut S,
) -> Result<Required<'a>, KeyFault>
    ensures { IfOk result (λ required. (read : Keys) × IsRequired asked.entry read required
        × IfHonest S.device source (λ file. HasKeys file read)) }
{
    let keys = read_keys(alloc, source)?;
    let keys = named(alloc, asked.name, keys)?;
    Ok(Required {
        keys,
        takes_sha1: asked.takes_sha1,
        only: bytes_of(asked.config),
    })
}

fn bytes_of(name: Option<&str>) -> Option<&[u8]>
    ensures { option_map (λ bytes. bytes.now) result ≡ option_map (λ text. text.now) name.entry }
{
    match name {
        Some(name) => Some(name.as_bytes()),
        None => None,
    }
}

// Returns the keys, by this name, if one is given.
fn named(alloc: Global, name: Option<&str>, mut keys: Keys) -> Result<Keys, AllocError>
    ensures { IfOk result (AreNamed name.entry keys) }
{
    if let Some(name) = name {
        keys.name = Vec::from_slice(alloc, name.as_bytes())?;
    }
    Ok(keys)
}
