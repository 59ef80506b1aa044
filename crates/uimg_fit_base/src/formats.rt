//! The format of an image's file, by its first bytes.

ghost use Rattle.std.specs.Prelude.{◌≡◌, is_err, IfOk};
ghost use Rattle.uimg_base.specs.{Honest.HonestSource, Using.Asks};
ghost use Rattle.uimg_fit_base.specs.Files.{begins_as_blob};

use uimg_base::{Source, SourceFault, be32_at};
use uimg_blob_reading::BLOB_MAGIC;

/// Returns whether a file begins with the magic number of a devicetree blob (Devicetree
/// Specification, section 5.2), as each FIT image does. Requests at most 4 bytes. Returns
/// `SourceFault` if and only if a read failed.
#[tactic(auto, unfolding(crate::specs::Files::begins_as_blob, uimg_texts::specs::Numbers::be32))]
pub fn begins_as_blob<S: Source>(source: &mut S) -> Result<bool, SourceFault>
    ensures uses { Asks 4 (is_err result) (S.device source.old) (S.device source.new) }
    ensures told { HonestSource S.device source →
        IfOk result (λ begins. begins ≡ begins_as_blob (S.device source.old).bytes) }
{
    if source.size()? < 4 {
        return Ok(false);
    }
    let mut magic = [0; 4];
    source.fill_at(0, &mut magic)?;
    Ok(be32_at(&magic, 0) == BLOB_MAGIC)
}
