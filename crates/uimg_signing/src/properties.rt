//! The value of a property by its name.

ghost use Rattle.std.specs.Prelude.{◌≡◌, ◌+◌, ◌*◌, ◌≤◌, List, length, map, is_err, IfOk, IfSome};
ghost use Rattle.std.specs.{List.All, Str.bytes_eq};
ghost use Rattle.uimg_base.specs.{Honest.HonestSource, Using.Asks};
ghost use Rattle.uimg_texts.specs.Slices.{slice};
ghost use Rattle.uimg_blob_reading.specs.{Places.{EndsBy, read_place}, LookUps.first};

use uimg_base::{Source, SourceFault, Span};
use uimg_blob_reading::PropertyPlace;

// Returns whether the name at this span is this one.
fn is_name_at<S: Source>(source: &mut S, name: Span, wanted: &[u8]) -> Result<bool, SourceFault>
    requires inside { name.place + name.length ≤ length (S.device source.old).bytes }
    requires short { name.length ≤ 255 }
    ensures uses { Asks 255 (is_err result) (S.device source.old) (S.device source.new) }
    ensures told { HonestSource S.device source → IfOk result (λ it.
        it ≡ bytes_eq wanted.now (slice (S.device source.old).bytes name.place name.length)) }
{
    let mut bytes = [0; 256];
    let bytes = &mut bytes[..name.length as usize];
    if source.fill_at(name.place, bytes).is_err() {
        return Err(SourceFault);
    }
    let bytes = &*bytes;
    Ok(wanted == bytes)
}

// Returns the span of the value of the first property of this name.
pub(crate) fn value_named<S: Source>(
    source: &mut S,
    places: &[PropertyPlace],
    wanted: &[u8],
) -> Result<Option<Span>, SourceFault>
    requires { All (EndsBy (length (S.device source.old).bytes)) places.now }
    ensures uses { Asks (255 * length places.now) (is_err result) (S.device source.old)
        (S.device source.new) }
    ensures inside { IfOk result (λ found. IfSome found (λ s.
        s.place + s.length ≤ length (S.device source.old).bytes)) }
    ensures told { HonestSource S.device source → IfOk result (λ found.
        found ≡ first (map (read_place (S.device source.old).bytes) places.now) wanted.now) }
{
    for place in places {
        match is_name_at(source, place.name, wanted) {
            Ok(true) => return Ok(Some(place.value)),
            Ok(false) => {}
            Err(fault) => return Err(fault),
        }
    }
    Ok(None)
}
