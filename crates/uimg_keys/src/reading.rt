//! Reads the keys of a file.

ghost use Rattle.std.specs.Prelude.{◌≡◌, IfOk};
ghost use Rattle.uimg_base.specs.Honest.{IfHonest};
ghost use Rattle.uimg_keys.specs.Keys.{HasKeys, HasPemKey};

use crate::key::{KeyFault, PublicKey};
use crate::keys::Keys;
use crate::pem::key_of_pem;
use crate::trees::keys_of_tree;
use std::alloc::Global;
use uimg_base::Source;

/// The longest text of a key in bytes: several times that of one of 4096 bits.
const LONGEST: usize = 8192;

/// The longest devicetree in bytes.
const LONGEST_TREE: u64 = 0x10_0000;

/// The first bytes of a devicetree (Devicetree Specification, section 5.2).
const MAGIC: [u8; 4] = [0xd0, 0x0d, 0xfe, 0xed];

/// Returns whether U-Boot takes the key.
pub(crate) fn is_fit(key: &PublicKey) -> bool {
    let modulus = key.modulus.as_slice();
    let is_sized = modulus.len() == 256 || modulus.len() == 384 || modulus.len() == 512;
    let is_full = modulus.first().copied().unwrap_or(0) > 127;
    is_sized && is_full && key.exponent > 2 && key.exponent % 2 == 1
}

fn key_of_text(alloc: Global, text: &[u8]) -> Result<Keys, KeyFault>
    ensures { IfOk result (HasPemKey text.now) }
{
    if text.len() > LONGEST {
        return Err(KeyFault::NotKey);
    }
    let key = key_of_pem(alloc, text)?;
    if !is_fit(&key) {
        return Err(KeyFault::Unfit);
    }
    let mut keys = Vec::new(alloc);
    if keys.push(key).is_err() {
        return Err(KeyFault::OutOfMemory);
    }
    Ok(Keys {
        keys,
        is_any: false,
        name: Vec::new(alloc),
    })
}

fn read_whole<S: Source>(alloc: Global, source: &mut S) -> Result<Vec<u8>, KeyFault>
    ensures { IfHonest S.device source (λ file. IfOk result (λ bytes. bytes.items ≡ file)) }
{
    let size = source.size()?;
    if size > LONGEST_TREE {
        return Err(KeyFault::NotKey);
    }
    let mut file = Vec::from_elem(alloc, 0, size as usize)?;
    source.fill_at(0, file.as_mut_slice())?;
    Ok(file)
}

fn keys_of_file(alloc: Global, file: &[u8]) -> Result<Keys, KeyFault>
    ensures { IfOk result (HasKeys file.now) }
{
    if file.starts_with(&MAGIC) {
        let keys = keys_of_tree(alloc, file)?;
        return Ok(keys);
    }
    let keys = key_of_text(alloc, file)?;
    Ok(keys)
}

/// Reads the keys of a file. It is either the PEM of one key, as `key_of_pem` says, or a control
/// devicetree of U-Boot: its keys are the children of `/signature` whose property `required` is
/// `conf`, in their order, and one of them is enough if `required-mode` in `/signature` is `any`.
///
/// The node of a key has `algo`, which each signature by it must name, `rsa,num-bits`, `rsa,modulus` of
/// so many bits, `rsa,exponent` of eight octets, and `rsa,n0-inverse` and `rsa,r-squared` of that
/// modulus, with which U-Boot computes. (Of an exponent of four octets U-Boot takes none, but 65537.)
///
/// - `NotKey`: the file has more than 1 MiB, or is no devicetree and has more than 8192 bytes; or
///   as `key_of_pem`; or the devicetree is damaged.
/// - `NoKey`: the devicetree has no `/signature`, or no key there is required for configurations.
/// - `ImageKey`: a key in `/signature` is required for images.
/// - `WrongNode`: the node of a key lacks a property, or has a wrong one.
/// - `Unfit`: U-Boot takes no key of that size or exponent.
/// - `Read`: a read failed.
/// - `OutOfMemory`: memory was refused.
pub fn read_keys<S: Source>(alloc: Global, source: &mut S) -> Result<Keys, KeyFault>
    ensures { IfHonest S.device source (λ file. IfOk result (HasKeys file)) }
{
    let file = read_whole(alloc, source)?;
    let keys = keys_of_file(alloc, file.as_slice())?;
    Ok(keys)
}
