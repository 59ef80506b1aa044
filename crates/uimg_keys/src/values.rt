//! The values of a node's properties, in the bytes of its blob.

ghost use Rattle.std.specs.Prelude.{◌≡◌, ◌+◌, ◌≤◌, List, length, map, codes, None, Some, IfOk};
ghost use Rattle.std.specs.{List.All, Option.MatchOption};
ghost use Rattle.uimg_texts.specs.Slices.{slice};
ghost use Rattle.uimg_blob_reading.specs.Places.{EndsBy, read_place};
ghost use Rattle.uimg_keys.specs.{Names.key_name, Trees.{has_helps, has_size, is_ended, is_inverse, key_in, number, said, says, value_named}};

use crate::key::{KeyFault, PublicKey};
use std::alloc::Global;
use uimg_base::Span;
use uimg_blob_reading::PropertyPlace;
use uimg_rsa::is_r_squared;
use uimg_signing::rsa_algo;
use uimg_texts::be32_at;

/// Returns the bytes of a span.
pub(crate) fn bytes_at(file: &[u8], span: Span) -> &[u8]
    requires { span.place + span.length ≤ length file.now }
    ensures { result.now ≡ slice file.now span.place span.length }
{
    let start = span.place as usize;
    &file[start..start + span.length as usize]
}

// Returns the value of the first property of this name.
fn value_named<'a>(file: &'a [u8], places: &[PropertyPlace], name: &[u8]) -> Option<&'a [u8]>
    requires { All (EndsBy (length file.now)) places.now }
    ensures { MatchOption result
        (value_named file.now (map (read_place file.now) places.now) name.now ≡ None)
        (λ value. value_named file.now (map (read_place file.now) places.now) name.now
        ≡ Some value.now) }
{
    for place in places {
        if name == bytes_at(file, place.name) {
            return Some(bytes_at(file, place.value));
        }
    }
    None
}

/// Returns whether the value of the first property of a name begins with this text.
pub(crate) fn says(file: &[u8], places: &[PropertyPlace], name: &[u8], text: &[u8]) -> bool
    requires { All (EndsBy (length file.now)) places.now }
    ensures { result ≡ says (value_named file.now (map (read_place file.now) places.now) name.now)
        text.now }
{
    match value_named(file, places, name) {
        Some(value) => value.starts_with(text),
        None => false,
    }
}

fn number(octets: &[u8]) -> u64
    requires { length octets.now ≡ 8 }
    ensures { result ≡ number octets.now }
{
    be32_at(octets, 0) as u64 * 0x1_0000_0000 + be32_at(octets, 4) as u64
}

// Returns whether the modulus has so many bits.
fn is_sized(modulus: &[u8], bits: &[u8]) -> bool {
    if bits.len() != 4 {
        return false;
    }
    let bits = be32_at(bits, 0) as usize;
    bits % 8 == 0 && bits / 8 == modulus.len()
}

// Returns whether a modulus times this number is one less than a multiple of 2^32.
fn is_inverse(modulus: &[u8], inverse: &[u8]) -> bool
    ensures { result ≡ is_inverse modulus.now inverse.now }
{
    if inverse.len() != 4 || modulus.len() < 4 {
        return false;
    }
    let low = be32_at(modulus, modulus.len() - 4) as u64;
    low * be32_at(inverse, 0) as u64 % 0x1_0000_0000 == 0xffff_ffff
}

/// Returns whether a value of `required`, if there is one, has a NUL. U-Boot reads on to the next one.
pub(crate) fn is_ended(file: &[u8], places: &[PropertyPlace]) -> bool
    requires { All (EndsBy (length file.now)) places.now }
    ensures { result ≡ is_ended (value_named file.now (map (read_place file.now) places.now)
        (codes "required")) }
{
    match value_named(file, places, b"required".as_slice()) {
        Some(value) => value.contains(&0),
        None => true,
    }
}

/// Returns whether `algo` is for keys as long as the modulus.
pub(crate) fn has_size(file: &[u8], places: &[PropertyPlace], modulus: &[u8]) -> bool
    requires { All (EndsBy (length file.now)) places.now }
    ensures { result ≡ has_size modulus.now (value_named file.now
        (map (read_place file.now) places.now) (codes "algo")) }
{
    let Some(algo) = value_named(file, places, b"algo".as_slice()) else {
        return false;
    };
    match rsa_algo(algo) {
        Some(algo) => algo.bits as usize / 8 == modulus.len(),
        None => false,
    }
}

/// Returns whether a key has what U-Boot's arithmetic begins with.
pub(crate) fn has_helps(file: &[u8], places: &[PropertyPlace], modulus: &[u8]) -> bool
    requires { All (EndsBy (length file.now)) places.now }
    ensures { result ≡ has_helps file.now (map (read_place file.now) places.now) modulus.now }
{
    let (Some(inverse), Some(r_squared)) = (
        value_named(file, places, b"rsa,n0-inverse".as_slice()),
        value_named(file, places, b"rsa,r-squared".as_slice()),
    ) else {
        return false;
    };
    is_inverse(modulus, inverse) && is_r_squared(modulus, r_squared)
}

// Returns the name of the key of a node, which U-Boot calls `key-` and the key's name.
fn key_name(name: &[u8]) -> &[u8]
    ensures { result.now ≡ key_name name.now }
{
    if name.starts_with(b"key-") {
        &name[4..]
    } else {
        name
    }
}

/// Returns the key that the properties of a node of this name say.
pub(crate) fn key_in(
    alloc: Global,
    file: &[u8],
    places: &[PropertyPlace],
    name: &[u8],
) -> Result<PublicKey, KeyFault>
    requires { All (EndsBy (length file.now)) places.now }
    ensures { IfOk result (λ key. said key
        ≡ key_in file.now (map (read_place file.now) places.now) name.now) }
{
    let (Some(modulus), Some(exponent), Some(bits), Some(algo)) = (
        value_named(file, places, b"rsa,modulus".as_slice()),
        value_named(file, places, b"rsa,exponent".as_slice()),
        value_named(file, places, b"rsa,num-bits".as_slice()),
        value_named(file, places, b"algo".as_slice()),
    ) else {
        return Err(KeyFault::WrongNode);
    };
    if exponent.len() != 8 || !is_sized(modulus, bits) || rsa_algo(algo).is_none() {
        return Err(KeyFault::WrongNode);
    }
    Ok(PublicKey {
        modulus: Vec::from_slice(alloc, modulus)?,
        exponent: number(exponent),
        algo: rsa_algo(algo),
        name: Vec::from_slice(alloc, key_name(name))?,
    })
}
