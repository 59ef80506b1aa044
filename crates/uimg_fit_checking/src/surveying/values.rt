//! Reads values at the spans of a survey.

ghost use Rattle.std.specs.Prelude.{◌≡◌, ◌+◌, ◌≤◌, length, IfOk};
ghost use Rattle.uimg_base.specs.Honest.{HonestSource};
ghost use Rattle.uimg_base.specs.Using.{Asks};
ghost use Rattle.uimg_fit_checking.specs.SurveyParts.{is_unread, IsOwn};
ghost use Rattle.uimg_fit_reading.specs.Values.{in_span};

use crate::surveying::fault::SurveyFault;
use std::alloc::Global;
use uimg_base::{Source, Span};

/// Reads the bytes at a span of a survey into memory, by one read of exactly these bytes. Returns
/// no other fault than these:
/// - `OutOfMemory`: memory was refused.
/// - `Stopped` with `Read`: the read failed.
pub fn read_bytes<S: Source>(
    alloc: Global,
    source: &mut S,
    span: Span,
) -> Result<Vec<u8>, SurveyFault>
    requires { span.place + span.length ≤ length (S.device source.old).bytes }
    ensures uses { Asks span.length (is_unread result) (S.device source.old) (S.device source.new) }
    ensures own { IsOwn result }
    ensures told { HonestSource S.device source →
        IfOk result (λ bytes. bytes.items ≡ in_span (S.device source.old).bytes span) }
{
    let mut bytes = Vec::from_elem(alloc, 0, span.length as usize)?;
    source.fill_at(span.place, bytes.as_mut_slice())?;
    Ok(bytes)
}
