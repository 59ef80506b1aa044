//! Look-up, setting and removal of properties.

ghost use Rattle.std.specs.Prelude.{◌≡◌, ◌≤◌, ◌++◌, ◌∷◌, [], ◌+◌, map, take, drop, length};
ghost use Rattle.std.specs.{List.list_any, Option.option_map, Str.bytes_eq};
ghost use Rattle.uimg_blob_reading.specs.LookUps.{first};
ghost use Rattle.uimg_blob_writing.specs.{Content.Content, Properties.{content, property}};
ghost use Rattle.uimg_fit_building.specs.Filling.{with, external_names, without_external};
ghost use Rattle.uimg_fit_building.specs.SettingSteps.{MakesUnlessMemory};

use std::alloc::Allocator;
use uimg_blob_writing::{ByteList, Prop, Props, Value, copy_bytes};
use uimg_fit_base::FitFault;

pub(crate) fn copied<A: Allocator>(alloc: A, bytes: &[u8]) -> Result<ByteList<A>, FitFault>
    ensures { MakesUnlessMemory result (λ l. l ≡ bytes.now) }
{
    match copy_bytes(alloc, bytes) {
        Ok(copy) => Ok(copy),
        Err(_) => Err(FitFault::OutOfMemory),
    }
}

/// Returns the value of the first property of a name.
pub fn first_value<'a, A: Allocator>(props: &'a Props<A>, key: &[u8]) -> Option<&'a Value<A>>
    ensures { option_map (λ v. content v.now) result ≡ first props.now key.now }
{
    for prop in props.items() {
        if key == prop.name.items() {
            return Some(&prop.value);
        }
    }
    None
}

// Returns the index of the first property of a name, or the number of properties if none has it.
#[tactic(auto, unfolding(crate::specs::Filling::with))]
fn place_of<A: Allocator>(props: &[Prop<A>], key: &[u8]) -> usize
    ensures within { result ≤ length props.now }
    ensures set { (value : Content) → with key.now value (map property props.now)
        ≡ map property (take result props.now) ++ record { name = key.now; value = value }
        ∷ map property (drop (result + 1) props.now) }
{
    for (i, prop) in props.iter().enumerate() {
        if key == prop.name.items() {
            return i;
        }
    }
    props.len()
}

fn push_property<A: Allocator>(list: &mut Vec<Prop<A>, A>, prop: Prop<A>) -> Result<(), FitFault>
    ensures { MakesUnlessMemory result (λ u. list.new.items ≡ list.old.items ++ prop ∷ []) }
{
    match list.push(prop) {
        Ok(()) => Ok(()),
        Err(_) => Err(FitFault::OutOfMemory),
    }
}

// Sets the first property of a name, or adds one.
fn set_first<A: Allocator>(list: &mut Vec<Prop<A>, A>, prop: Prop<A>) -> Result<(), FitFault>
    ensures { MakesUnlessMemory result (λ u. map property list.new.items
        ≡ with prop.name (content prop.value) (map property list.old.items)) }
{
    let at = place_of(list.as_slice(), prop.name.items());
    if at < list.len() {
        list[at] = prop;
        return Ok(());
    }
    push_property(list, prop)
}

/// Sets the first property of a name among properties, or adds one.
pub fn with_value<A: Allocator + Copy>(
    alloc: A,
    props: Props<A>,
    key: &[u8],
    value: Value<A>,
) -> Result<Props<A>, FitFault>
    ensures { MakesUnlessMemory result (λ own. own ≡ with key.now (content value) props) }
{
    let name = copied(alloc, key)?;
    let mut list = props.into_vec();
    set_first(&mut list, Prop { name, value })?;
    Ok(Props::of(list))
}

// Returns whether a property gives a payload an offset outside the blob, or its size there.
fn is_external(name: &[u8]) -> bool
    ensures { result ≡ list_any (bytes_eq name.now) external_names }
{
    if name == b"data-offset".as_slice() {
        return true;
    }
    if name == b"data-size".as_slice() {
        return true;
    }
    name == b"data-position".as_slice()
}

fn remove_external<A: Allocator>(list: &mut Vec<Prop<A>, A>)
    ensures { map property list.new.items ≡ without_external (map property list.old.items) }
{
    list.retain(|prop| !is_external(prop.name.items()));
}

pub(crate) fn without_external<A: Allocator>(props: Props<A>) -> Props<A>
    ensures { result ≡ without_external props }
{
    let mut list = props.into_vec();
    remove_external(&mut list);
    Props::of(list)
}
