//! Strict checks of the headers of legacy images.

ghost use Rattle.std.specs.Prelude.{◌≡◌};
ghost use Rattle.uimg_base.specs.Honest.{IfHonest};
ghost use Rattle.uimg_legacy.specs.Reading.{ReadsHead};
ghost use Rattle.uimg_strict.specs.Headers.{has_code, loose_header, TellsHeader};

use crate::loose::Looseness;
use uimg_base::Source;
use uimg_legacy::{Fault, Header, read_header};
use uimg_texts::Field;

fn has_code(field: Field, code: u8) -> bool
    ensures { result ≡ has_code field code }
{
    let rows = field.rows();
    for (_, known, _, _) in rows {
        if code == *known {
            return true;
        }
    }
    false
}

fn loose_header(header: &Header) -> Option<Looseness>
    ensures { result ≡ loose_header header.now }
{
    if header.size == 0 {
        return Some(Looseness::EmptyData);
    }
    if !has_code(Field::Kind, header.kind) {
        return Some(Looseness::UnknownType);
    }
    if !has_code(Field::Architecture, header.arch) {
        return Some(Looseness::UnknownArchitecture);
    }
    if !has_code(Field::System, header.os) {
        return Some(Looseness::UnknownSystem);
    }
    if !has_code(Field::Compression, header.comp) {
        return Some(Looseness::UnknownCompression);
    }
    None
}

/// Returns the first thing that strictness refuses in the header of a legacy image, or the faults of
/// the header.
pub fn find_loose_header<S: Source>(source: &mut S) -> Result<Option<Looseness>, Fault>
    ensures reads { ReadsHead result S.device source }
    ensures told { IfHonest S.device source (λ file. TellsHeader file result) }
{
    let header = read_header(source)?;
    Ok(loose_header(&header))
}
