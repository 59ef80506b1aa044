//! The keys of a control devicetree (U-Boot, `doc/uImage.FIT/signature.rst`, section "Public Key
//! Storage").

ghost use Rattle.std.specs.Prelude.{◌≡◌, ◌++◌, ◌<◌, List, ℕ, length, map, None, Some, IfOk, IfSome, OnOk};
ghost use Rattle.std.specs.{List.{All, slice_get}, Option.option_map};
ghost use Rattle.uimg_blob_reading.specs.{Places.{EndsBy, read_place}, Properties.places_of, Rows.Row};
ghost use Rattle.uimg_keys.specs.Trees.{HasTreeKeys, IsIndexOf, IsTaken, found_in, is_any_in, is_parent, is_signature, keys_in, listed, rows_of, said, signature_of};

use crate::key::{KeyFault, PublicKey};
use crate::keys::{Keys, joined};
use crate::reading::is_fit;
use crate::values::{bytes_at, has_helps, has_size, is_ended, key_in, says};
use std::alloc::Global;
use uimg_base::{MemSource, Room};
use uimg_blob_reading::{
    Blob, BlobFault, IndexFault, PropertiesFault, PropertyPlace, index, properties_of,
};

fn places_at(
    alloc: Global,
    file: &[u8],
    blob: &Blob,
    room: &mut Room<Global>,
    node: usize,
) -> Result<Vec<PropertyPlace>, KeyFault>
    requires node { node < length room.old.entries }
    requires index { IsIndexOf file.now blob.now room.old.entries }
    ensures room { room.new ≡ room.old }
    ensures inside { IfOk result (λ places. All (EndsBy (length file.now)) places.items) }
    ensures told { (row : Row) → slice_get (rows_of file.now) node ≡ Some row → IfOk result
        (λ places. map (read_place file.now) places.items ≡ places_of row) }
{
    match properties_of(alloc, &mut MemSource::new(file), blob, room, node) {
        Ok(places) => Ok(places),
        Err(PropertiesFault::Read) => Err(KeyFault::Read),
        Err(PropertiesFault::OutOfMemory) => Err(KeyFault::OutOfMemory),
        Err(PropertiesFault::Changed) => Err(KeyFault::NotKey),
    }
}

fn is_parent(parent: Option<usize>, number: usize) -> bool
    ensures { result ≡ is_parent number parent }
{
    match parent {
        Some(parent) => parent == number,
        None => false,
    }
}

// U-Boot takes the first node of the name, with a unit address or without.
fn is_signature(file: &[u8], blob: &Blob, room: &Room<Global>, node: usize) -> bool
    requires node { node < length room.now.entries }
    requires index { IsIndexOf file.now blob.now room.now.entries }
    ensures { (row : Row) → slice_get (rows_of file.now) node ≡ Some row →
        result ≡ is_signature file.now row }
{
    if !is_parent(blob.parent(room, node), 0) {
        return false;
    }
    let name = bytes_at(file, blob.name(room, node));
    name == b"signature".as_slice() || name.starts_with(b"signature@")
}

// Returns the number of /signature.
fn signature_of(file: &[u8], blob: &Blob, room: &Room<Global>) -> Option<usize>
    requires { IsIndexOf file.now blob.now room.now.entries }
    ensures within { IfSome result (λ i. i < length room.now.entries) }
    ensures told { result ≡ signature_of file.now }
{
    let mut node = 0;
    while node < room.count() {
        if is_signature(file, blob, room, node) {
            return Some(node);
        }
        node += 1;
    }
    None
}

// Returns the key of a node, if it is a child of /signature and required for configurations.
fn found_in(
    alloc: Global,
    file: &[u8],
    blob: &Blob,
    room: &mut Room<Global>,
    signature: usize,
    node: usize,
) -> Result<Option<PublicKey>, KeyFault>
    requires node { node < length room.old.entries }
    requires index { IsIndexOf file.now blob.now room.old.entries }
    ensures room { room.new ≡ room.old }
    ensures told { (row : Row) → slice_get (rows_of file.now) node ≡ Some row → IfOk result
        (λ found. listed (option_map said found) ≡ found_in file.now signature row) }
    ensures taken { (row : Row) → slice_get (rows_of file.now) node ≡ Some row → IfOk result
        (λ found. IsTaken file.now signature row) }
{
    if !is_parent(blob.parent(room, node), signature) {
        return Ok(None);
    }
    let places = places_at(alloc, file, blob, room, node)?;
    if !is_ended(file, &places) {
        return Err(KeyFault::WrongNode);
    }
    if says(file, &places, b"required".as_slice(), b"image\0".as_slice()) {
        return Err(KeyFault::ImageKey);
    }
    if !says(file, &places, b"required".as_slice(), b"conf\0".as_slice()) {
        return Ok(None);
    }
    let key = key_in(alloc, file, &places, bytes_at(file, blob.name(room, node)))?;
    if !is_fit(&key) {
        return Err(KeyFault::Unfit);
    }
    let modulus = key.modulus.as_slice();
    if !has_size(file, &places, modulus) || !has_helps(file, &places, modulus) {
        return Err(KeyFault::WrongNode);
    }
    Ok(Some(key))
}

fn add(keys: &mut Vec<PublicKey>, found: Option<PublicKey>) -> Result<(), KeyFault>
    ensures { OnOk result (map said keys.new.items
        ≡ map said keys.old.items ++ listed (option_map said found)) }
{
    if let Some(key) = found {
        if keys.push(key).is_err() {
            return Err(KeyFault::OutOfMemory);
        }
    }
    Ok(())
}

fn keys_in(
    alloc: Global,
    file: &[u8],
    blob: &Blob,
    room: &mut Room<Global>,
    signature: usize,
) -> Result<Vec<PublicKey>, KeyFault>
    requires { IsIndexOf file.now blob.now room.old.entries }
    ensures room { room.new ≡ room.old }
    ensures told { IfOk result (λ keys. map said keys.items ≡ keys_in file.now signature) }
    ensures taken { IfOk result (λ keys. All (IsTaken file.now signature) (rows_of file.now)) }
{
    let mut keys = Vec::new(alloc);
    let mut node = 0;
    while node < room.count() {
        let found = found_in(alloc, file, blob, room, signature, node)?;
        add(&mut keys, found)?;
        node += 1;
    }
    Ok(keys)
}

// Returns whether one key is enough.
fn is_any_in(
    alloc: Global,
    file: &[u8],
    blob: &Blob,
    room: &mut Room<Global>,
    signature: usize,
) -> Result<bool, KeyFault>
    requires node { signature < length room.old.entries }
    requires index { IsIndexOf file.now blob.now room.old.entries }
    ensures room { room.new ≡ room.old }
    ensures told { IfOk result (λ any. any
        ≡ is_any_in file.now (slice_get (rows_of file.now) signature)) }
{
    let places = places_at(alloc, file, blob, room, signature)?;
    Ok(says(
        file,
        &places,
        b"required-mode".as_slice(),
        b"any\0".as_slice(),
    ))
}

fn index_of(file: &[u8], room: &mut Room<Global>) -> Result<Blob, KeyFault>
    ensures { IfOk result (λ blob. IsIndexOf file.now blob room.new.entries) }
{
    match index(&mut MemSource::new(file), room) {
        Ok(blob) => Ok(blob),
        Err(IndexFault::Blob(BlobFault::OutOfMemory, _)) => Err(KeyFault::OutOfMemory),
        Err(IndexFault::Blob(..)) => Err(KeyFault::NotKey),
        Err(IndexFault::Read) => Err(KeyFault::Read),
    }
}

/// Returns the keys of a control devicetree.
pub(crate) fn keys_of_tree(alloc: Global, file: &[u8]) -> Result<Keys, KeyFault>
    ensures { IfOk result (HasTreeKeys file.now) }
{
    let mut room = Room::new(alloc);
    let blob = index_of(file, &mut room)?;
    let Some(signature) = signature_of(file, &blob, &room) else {
        return Err(KeyFault::NoKey);
    };
    let keys = keys_in(alloc, file, &blob, &mut room, signature)?;
    if keys.is_empty() {
        return Err(KeyFault::NoKey);
    }
    let is_any = is_any_in(alloc, file, &blob, &mut room, signature)?;
    let name = joined(alloc, keys.as_slice(), is_any)?;
    Ok(Keys { keys, is_any, name })
}
