//! What a check of an image finds, over any source.

ghost use Rattle.std.specs.Prelude.{◌≡◌, true, false, length, IfOk};
ghost use Rattle.uimg_base.specs.Honest.{HonestSource};
ghost use Rattle.uimg_requests.specs.declared.command.Form.TheVariants as form;
ghost use Rattle.uimg_checks.specs.Finding.{ChecksIn, SpansInside, TellsCheck, check_work, stands_by_crc32, status_of};
ghost use Rattle.uimg_engine.specs.Headline.{OnlyReads};

use std::alloc::Allocator;
use uimg_base::{Algo, Room, Source, Span, Status};
use uimg_engine::{Fault, is_fit};
use uimg_fit_checking::Finding;
use uimg_requests::Form;

/// The finding about an image. Nodes of a FIT image are given by the spans of their names in the
/// file, or by the names themselves.
#[derive(Clone, Copy, Debug, PartialEq, Eq)]
pub enum Checked<N> {
    /// The finding about a FIT image.
    Fit(Finding<N>),

    /// Both checksums of a legacy image are right and strong enough.
    Right,

    /// The checksum of a legacy image's data is not right.
    Damaged,

    /// The checksums of a legacy image are right, but a stronger algorithm than CRC-32 is needed.
    Weak,
}

impl<N> Checked<N> {
    /// Returns `Done` if all checksums or hashes are right, even if no strength was needed and an
    /// image has no hash, else `NotRight`.
    pub fn status(&self) -> Status
        ensures { result ≡ status_of self.now }
    {
        match self {
            Checked::Fit(Finding::Right { .. } | Finding::Unhashed(_)) | Checked::Right => {
                Status::Done
            }
            _ => Status::NotRight,
        }
    }
}

/// CRC-32 is the checksum of a legacy image.
pub(crate) fn stands_by_crc32(need: Option<Algo>) -> bool
    ensures { result ≡ stands_by_crc32 need }
{
    match need {
        None | Some(Algo::Crc16 | Algo::Crc32) => true,
        Some(_) => false,
    }
}

fn check_legacy<S: Source, A: Allocator>(
    need: Option<Algo>,
    source: &mut S,
    room: &mut Room<A>,
) -> Result<Checked<Span>, Fault>
    ensures { ChecksIn false need result S.device source room }
{
    let is_right = uimg_legacy::check(source, room)?;
    if !is_right {
        return Ok(Checked::Damaged);
    }
    if stands_by_crc32(need) {
        Ok(Checked::Right)
    } else {
        Ok(Checked::Weak)
    }
}

fn check_fit<S: Source, A: Allocator>(
    need: Option<Algo>,
    source: &mut S,
    room: &mut Room<A>,
) -> Result<Checked<Span>, Fault>
    ensures { ChecksIn true need result S.device source room }
{
    let finding = uimg_fit_checking::check(need, source, room)?;
    Ok(Checked::Fit(finding))
}

/// Checks the checksums and hashes of an image, up to the first finding. The first four bytes
/// decide its format. A legacy image is refused if its header's checksum is wrong or its table of
/// parts does not fit its data. If an algorithm is needed, a FIT image must have images, and each
/// image a hash node that is compared by it or a stronger one. The order is that of `Algo`.
///
/// Over an honest source the finding, or the fault that refuses the image, is exactly that of the
/// definition. Of a FIT image's payloads no more bytes are requested than the file has, even if
/// they overlap. Of a legacy image the data are requested, 80 bytes, and 16 for each size in its
/// table. A returned name ends inside the source, whatever that returns.
///
/// - `Fault::Read`: if and only if a read failed.
/// - `OutOfMemory` of the blob: if and only if the room refused to grow; a legacy image never
///   requests this.
///
/// `Fault::Put` and the faults of a build are never returned.
pub fn check<S: Source, A: Allocator>(
    need: Option<Algo>,
    source: &mut S,
    room: &mut Room<A>,
) -> Result<Checked<Span>, Fault>
    ensures reads { OnlyReads form.Guess check_work result S.device source room }
    ensures inside { IfOk result (SpansInside (length (S.device source.old).bytes)) }
    ensures told { HonestSource S.device source →
        TellsCheck need (S.device source.old).bytes result }
{
    room.clear();
    if is_fit(Form::Guess, source)? {
        check_fit(need, source, room)
    } else {
        check_legacy(need, source, room)
    }
}
