//! Whether libfdt takes the header and the reservation block of a blob.

ghost use Rattle.std.specs.Prelude.{◌≡◌, ◌+◌, ◌*◌, ◌≤◌, length, is_err, IfOk};
ghost use Rattle.uimg_base.specs.Honest.{HonestSource};
ghost use Rattle.uimg_base.specs.Using.{Uses};
ghost use Rattle.uimg_texts.specs.{Numbers.be32, Slices.slice};
ghost use Rattle.uimg_strict.specs.Soundness.{begins_with_root, has_sound_fields, is_last, ends_among, is_sound};

use uimg_base::{Source, SourceFault, be32_at};

/// The length of a blob's header.
const HEADER_LEN: usize = 40;

/// The token that begins a node.
const FDT_BEGIN_NODE: u32 = 1;

/// The length of an entry of the reservation block: an address and a size.
const ENTRY_LEN: usize = 16;

/// The size from which no blob is taken. libfdt takes this one, and none beyond it.
const SIZE_LIMIT: u32 = 0x7fff_ffff;

// Returns whether the offsets and the size in a header are such as libfdt takes.
fn has_sound_fields(header: &[u8; HEADER_LEN]) -> bool
    ensures { result ≡ has_sound_fields header.now }
{
    let totalsize = be32_at(header, 4);
    let reservations = be32_at(header, 16);
    if totalsize >= SIZE_LIMIT || be32_at(header, 8) < 40 || be32_at(header, 12) < 40 {
        return false;
    }
    reservations >= 40 && reservations <= totalsize
}

// Returns whether an entry of the reservation block is the last: its size is 0.
fn is_last<S: Source>(source: &mut S, at: u64) -> Result<bool, SourceFault>
    requires { at + 16 ≤ length (S.device source.old).bytes }
    ensures uses { Uses (is_err result) (S.device source.old) (S.device source.new) }
    ensures told { HonestSource S.device source →
        IfOk result (λ last. last ≡ is_last (slice (S.device source.old).bytes at 16)) }
{
    let mut entry = [0; ENTRY_LEN];
    source.fill_at(at, &mut entry)?;
    Ok(be32_at(&entry, 8) == 0 && be32_at(&entry, 12) == 0)
}

fn ends_among<S: Source>(source: &mut S, at: u64, count: u64) -> Result<bool, SourceFault>
    requires { at + 16 * count ≤ length (S.device source.old).bytes }
    ensures uses { Uses (is_err result) (S.device source.old) (S.device source.new) }
    ensures told { HonestSource S.device source →
        IfOk result (λ ends. ends ≡ ends_among (S.device source.old).bytes at count) }
{
    let mut left = count;
    let mut next = at;
    while left > 0 {
        if is_last(source, next)? {
            return Ok(true);
        }
        left -= 1;
        next += ENTRY_LEN as u64;
    }
    Ok(false)
}

// Returns whether the root begins the structure block: libfdt looks for it nowhere else, not behind
// FDT_NOP.
fn begins_with_root<S: Source>(
    source: &mut S,
    header: &[u8; HEADER_LEN],
) -> Result<bool, SourceFault>
    requires { be32 header.now 4 ≤ length (S.device source.old).bytes }
    ensures uses { Uses (is_err result) (S.device source.old) (S.device source.new) }
    ensures told { HonestSource S.device source → IfOk result
        (λ begins. begins ≡ begins_with_root header.now (S.device source.old).bytes) }
{
    let at = be32_at(header, 8) as u64;
    if at + 4 > be32_at(header, 4) as u64 {
        return Ok(false);
    }
    let mut word = [0; 4];
    source.fill_at(at, &mut word)?;
    Ok(be32_at(&word, 0) == FDT_BEGIN_NODE)
}

/// Returns whether libfdt takes the header of the blob at the start of a file, the root begins the
/// structure block, and the reservation block has a last entry inside the blob.
#[tactic(auto, unfolding(crate::specs::Soundness::is_sound, crate::specs::Soundness::is_sound_by))]
pub(crate) fn is_sound<S: Source>(source: &mut S) -> Result<bool, SourceFault>
    ensures uses { Uses (is_err result) (S.device source.old) (S.device source.new) }
    ensures told { HonestSource S.device source →
        IfOk result (λ sound. sound ≡ is_sound (S.device source.old).bytes) }
{
    let size = source.size()?;
    if size < HEADER_LEN as u64 {
        return Ok(false);
    }
    let mut header = [0; HEADER_LEN];
    source.fill_at(0, &mut header)?;
    let totalsize = be32_at(&header, 4) as u64;
    if size < totalsize {
        return Ok(false);
    }
    if !has_sound_fields(&header) {
        return Ok(false);
    }
    if !begins_with_root(source, &header)? {
        return Ok(false);
    }
    let at = be32_at(&header, 16) as u64;
    ends_among(source, at, (totalsize - at) / ENTRY_LEN as u64)
}
