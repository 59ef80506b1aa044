//! Finds the end of the memory reservation block of a devicetree blob.

ghost use Rattle.std.specs.Prelude.{◌≡◌, ◌+◌, ◌≤◌, length, is_err, IfOk};
ghost use Rattle.uimg_base.specs.{Honest.HonestSource, Using.Asks};
ghost use Rattle.uimg_map.specs.Reservations.{is_zero_entry, EndsBlock};
ghost use Rattle.uimg_texts.specs.Slices.{slice};

use uimg_base::{Source, SourceFault};

// The length of an entry: the address of reserved memory, and its size.
const ENTRY_LEN: usize = 16;

// Returns whether the entry at an offset is the last, of zeros only.
fn is_last<S: Source>(source: &mut S, at: u64) -> Result<bool, SourceFault>
    requires { at + 16 ≤ length (S.device source.old).bytes }
    ensures uses { Asks 16 (is_err result) (S.device source.old) (S.device source.new) }
    ensures last { HonestSource S.device source →
        IfOk result (λ is. is ≡ is_zero_entry (slice (S.device source.old).bytes at 16)) }
{
    let mut entry = [0; ENTRY_LEN];
    source.fill_at(at, &mut entry)?;
    Ok(entry == [0; ENTRY_LEN])
}

/// Returns where a blob's memory reservation block ends that begins at an offset (Devicetree
/// Specification, section 5.3): after the first entry of zeros, or none if the source ends before.
/// Reads one entry at a time, and requests at most as many bytes as the source has.
pub fn end_of_reservations<S: Source>(
    source: &mut S,
    place: u32,
) -> Result<Option<u64>, SourceFault>
    ensures uses { Asks (length (S.device source.old).bytes) (is_err result)
        (S.device source.old) (S.device source.new) }
    ensures found { HonestSource S.device source →
        IfOk result (EndsBlock (S.device source.old).bytes place) }
{
    let size = source.size()?;
    let mut at = place as u64;
    while at < size && size - at >= ENTRY_LEN as u64 {
        if is_last(source, at)? {
            return Ok(Some(at + ENTRY_LEN as u64));
        }
        at += ENTRY_LEN as u64;
    }
    Ok(None)
}
