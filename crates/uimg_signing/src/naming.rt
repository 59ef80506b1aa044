//! How often a configuration names an image.

ghost use Rattle.std.specs.Prelude.{◌≡◌, ◌+◌, ◌*◌, ◌≤◌, List, length, is_err, OnOk, IfOk};
ghost use Rattle.std.specs.List.{All};
ghost use Rattle.uimg_base.specs.{Honest.HonestSource, Using.Asks};
ghost use Rattle.uimg_texts.specs.Slices.{slice};
ghost use Rattle.uimg_signing.specs.Naming.{count_at, times_at, any_long_at, CanBeRead};
ghost use Rattle.uimg_signing.specs.Texts.{is_skipped, count_text};

use crate::texts::{count_text, is_skipped};
use std::alloc::Allocator;
use uimg_base::{Room, Source, SourceFault, Span};
use uimg_blob_reading::PropertyPlace;

// Returns whether the property of a name at this span does not name images.
fn is_skipped_at<S: Source>(source: &mut S, name: Span) -> Result<bool, SourceFault>
    requires inside { name.place + name.length ≤ length (S.device source.old).bytes }
    requires short { name.length ≤ 255 }
    ensures uses { Asks 255 (is_err result) (S.device source.old) (S.device source.new) }
    ensures told { HonestSource S.device source → IfOk result (λ it.
        it ≡ is_skipped (slice (S.device source.old).bytes name.place name.length)) }
{
    let mut bytes = [0; 256];
    let bytes = &mut bytes[..name.length as usize];
    if source.fill_at(name.place, bytes).is_err() {
        return Err(SourceFault);
    }
    Ok(is_skipped(bytes))
}

// Returns how many texts of a value are this one.
fn count_text_at<S: Source, A: Allocator>(
    source: &mut S,
    room: &mut Room<A>,
    value: Span,
    wanted: &[u8],
) -> Result<u64, SourceFault>
    requires inside { value.place + value.length ≤ length (S.device source.old).bytes }
    requires short { value.length ≤ 8192 }
    ensures uses { Asks 8192 (is_err result) (S.device source.old) (S.device source.new) }
    ensures room { room.new ≡ room.old }
    ensures few { IfOk result (λ n. n ≤ 8192) }
    ensures told { HonestSource S.device source → IfOk result (λ n.
        n ≡ count_text (slice (S.device source.old).bytes value.place value.length) wanted.now) }
{
    let bytes = &mut room.window()[..value.length as usize];
    if source.fill_at(value.place, bytes).is_err() {
        return Err(SourceFault);
    }
    Ok(count_text(bytes, wanted))
}

// Returns how often a property of a configuration names the image of this name.
fn count_at<S: Source, A: Allocator>(
    source: &mut S,
    room: &mut Room<A>,
    place: PropertyPlace,
    wanted: &[u8],
) -> Result<u64, SourceFault>
    requires { CanBeRead (length (S.device source.old).bytes) place }
    ensures uses { Asks 8447 (is_err result) (S.device source.old) (S.device source.new) }
    ensures room { room.new ≡ room.old }
    ensures few { IfOk result (λ n. n ≤ 8192) }
    ensures told { HonestSource S.device source → IfOk result (λ n.
        n ≡ count_at (S.device source.old).bytes wanted.now place) }
{
    match is_skipped_at(source, place.name) {
        Ok(true) => Ok(0),
        Ok(false) => count_text_at(source, room, place.value, wanted),
        Err(fault) => Err(fault),
    }
}

// Returns how often the properties of a configuration name the image of this name.
pub(crate) fn times_at<S: Source, A: Allocator>(
    source: &mut S,
    room: &mut Room<A>,
    places: &[PropertyPlace],
    wanted: &[u8],
) -> Result<u128, SourceFault>
    requires { All (CanBeRead (length (S.device source.old).bytes)) places.now }
    ensures uses { Asks (8447 * length places.now) (is_err result) (S.device source.old)
        (S.device source.new) }
    ensures room { room.new ≡ room.old }
    ensures told { HonestSource S.device source → IfOk result (λ n.
        n ≡ times_at (S.device source.old).bytes wanted.now places.now) }
{
    // 128 bits hold 8192 texts of each place
    let mut found = 0;
    for place in places {
        match count_at(source, room, *place, wanted) {
            Ok(more) => found += more as u128,
            Err(fault) => return Err(fault),
        }
    }
    Ok(found)
}

// Returns whether a value has more than 8192 bytes.
pub(crate) fn has_long(places: &[PropertyPlace]) -> bool
    ensures { result ≡ any_long_at places.now }
{
    for place in places {
        if place.value.length > 8192 {
            return true;
        }
    }
    false
}
