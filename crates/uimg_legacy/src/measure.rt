//! The size of the data built from parts, or why the parts are refused.

ghost use Rattle.std.specs.Prelude.{◌≡◌, ◌+◌, ◌%◌, ◌&&◌, length, map, false};
ghost use Rattle.uimg_legacy.specs.{Parts.has_parts, Building.{joined, data_of, has_empty}};
ghost use Rattle.uimg_legacy.specs.{BuildingSteps.MeasuresParts, Devices.{bytes_of, AsksNone}};
ghost use Rattle.uimg_legacy.specs.{PartSteps.{Learns, SumsTo}, Faults.{is_read, is_put}};

use crate::fault::{Fault, LegacyFault};
use crate::one_part::part_size;
use crate::parts::has_parts;
use uimg_base::{Source, SourceFault};

fn has_empty<S: Source>(parts: &mut [S]) -> Result<bool, SourceFault>
    ensures { Learns (λ ps b. b ≡ has_empty ps) result S.device parts }
{
    for i in 0..parts.len() {
        if part_size(parts, i)? == 0 {
            return Ok(true);
        }
    }
    Ok(false)
}

// Returns where the parts end that begin at a multiple of 4, each but the last rounded up to one.
// An end of 2^32 or more may be too small.
fn end_of_parts<S: Source>(parts: &mut [S], start: u128) -> Result<u128, SourceFault>
    requires { start % 4 ≡ 0 }
    ensures { Learns (λ ps. SumsTo (start + length (joined ps))) result S.device parts }
{
    let mut end = start;
    for i in 0..parts.len() {
        let size = part_size(parts, i)?;
        end = (end.saturating_add(3) / 4 * 4).saturating_add(size as u128);
    }
    Ok(end)
}

fn has_empty_part<S: Source>(parts: &mut [S], kind: u8) -> Result<bool, SourceFault>
    ensures { Learns (λ ps b. b ≡ (has_parts kind && has_empty ps)) result S.device parts }
{
    if has_parts(kind) {
        has_empty(parts)
    } else {
        Ok(false)
    }
}

// Returns the length of the data, including the table of sizes for a type with parts. A length of
// 2^32 or more may be too small.
fn data_size<S: Source>(parts: &mut [S], kind: u8) -> Result<u128, SourceFault>
    ensures { Learns (λ ps. SumsTo (length (data_of (has_parts kind) ps))) result S.device parts }
{
    if has_parts(kind) {
        let table = 4 * (parts.len() as u128 + 1);
        end_of_parts(parts, table)
    } else {
        end_of_parts(parts, 0)
    }
}

#[tactic(auto, unfolding(crate::specs::Building::data_to_build))]
pub(crate) fn measure<S: Source>(parts: &mut [S], kind: u8) -> Result<u32, Fault>
    ensures uses { AsksNone (is_read result) (map S.device parts.old) (map S.device parts.new) }
    ensures no_put { is_put result ≡ false }
    ensures measures { MeasuresParts kind (bytes_of (map S.device parts.old)) result }
{
    if has_empty_part(parts, kind)? {
        return Err(Fault::Legacy(LegacyFault::EmptyPart));
    }
    let size = data_size(parts, kind)?;
    if size > u32::MAX as u128 {
        return Err(Fault::Legacy(LegacyFault::TooLarge));
    }
    Ok(size as u32)
}
