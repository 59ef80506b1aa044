//! Reads of words and names of the structure block.

ghost use Rattle.std.specs.Prelude.{◌≡◌, ◌+◌, ◌≤◌, length, take, IfOk};
ghost use Rattle.uimg_texts.specs.Numbers.{be32};
ghost use Rattle.uimg_blob_reading.specs.{Tokens.reach, ReadTokens.Answers};

use uimg_base::{Source, SourceFault, WINDOW, be32_at};

#[tactic(auto, unfolding(uimg_texts::specs::Numbers::be32))]
pub(crate) fn read_word<S: Source>(source: &mut S, at: u64) -> Result<u32, SourceFault>
    requires { at + 4 ≤ length (S.device source.old).bytes }
    ensures { Answers 4 result (λ bytes n. n ≡ be32 bytes at)
        (S.device source.old) (S.device source.new) }
{
    let mut bytes = [0; 4];
    source.fill_at(at, &mut bytes)?;
    Ok(be32_at(&bytes, 0))
}

pub(crate) fn read_pair<S: Source>(source: &mut S, at: u64) -> Result<(u32, u32), SourceFault>
    requires { at + 8 ≤ length (S.device source.old).bytes }
    ensures { Answers 8 result (λ bytes n. (n.0 ≡ be32 bytes at) × (n.1 ≡ be32 bytes (at + 4)))
        (S.device source.old) (S.device source.new) }
{
    let mut bytes = [0; 8];
    source.fill_at(at, &mut bytes)?;
    Ok((be32_at(&bytes, 0), be32_at(&bytes, 4)))
}

// Reads at most 256 bytes, up to `end`. Returns how many.
pub(crate) fn read_near<S: Source>(
    source: &mut S,
    window: &mut [u8; WINDOW],
    at: u64,
    end: u64,
) -> Result<usize, SourceFault>
    requires ordered { at ≤ end }
    requires within { end ≤ length (S.device source.old).bytes }
    ensures near { Answers 256 result (λ bytes n. take n window.new ≡ reach bytes at end)
        (S.device source.old) (S.device source.new) }
    ensures bound { IfOk result (λ n. (n ≤ 256) × (at + n ≤ end)) }
{
    let length = u64::min(256, end - at) as usize;
    source.fill_at(at, &mut window[..length])?;
    Ok(length)
}
