//! Reports on the hash nodes of an image.
ghost use Rattle.std.specs.Prelude.{◌+◌, ◌≤◌, length};
ghost use Rattle.uimg_fit_reading.specs.{HashReports.{PutsHashes, ReportsHashes}, Nodes.HasNodes};
ghost use Rattle.uimg_fit_reading.specs.{OpenFits.{file_of, InFit}, Puts.Leaves};

use crate::nodes::next_hash;
use crate::open_fit::OpenFit;
use crate::report::digests::compared_digests;
use crate::report::judging::put_hash;
use std::alloc::Allocator;
use std::io::Write;
use uimg_base::{MoveFault, Out, Source, Span};
use uimg_fit_base::{Digests, is_right};

// Returns whether all hash nodes are right.
fn put_hashes<S: Source, A: Allocator, W: Write>(
    fit: &mut OpenFit<'_, S, A>,
    image: Span,
    first: Option<usize>,
    digests: &Digests,
    out: &mut Out<W>,
) -> Result<bool, MoveFault>
    requires node { InFit S.device fit.old HasNodes first }
    requires name { image.place + image.length ≤ length (file_of S.device fit.old) }
    ensures leaves { Leaves result S.device fit out }
    ensures told { PutsHashes image first digests.now result S.device fit out }
{
    let mut are_right = true;
    let mut next = first;
    while let Some(hash) = next {
        let word = put_hash(fit, image, hash, digests, out)?;
        are_right = are_right & is_right(word);
        next = next_hash(&fit.blob, fit.room, hash);
    }
    Ok(are_right)
}

// Reads the payload once. Returns whether all hash nodes are right.
pub(crate) fn report_hashes<S: Source, A: Allocator, W: Write>(
    fit: &mut OpenFit<'_, S, A>,
    image: Span,
    span: Span,
    first: Option<usize>,
    out: &mut Out<W>,
) -> Result<bool, MoveFault>
    requires node { InFit S.device fit.old HasNodes first }
    requires name { image.place + image.length ≤ length (file_of S.device fit.old) }
    requires payload { span.place + span.length ≤ length (file_of S.device fit.old) }
    ensures leaves { Leaves result S.device fit out }
    ensures told { ReportsHashes image span first result S.device fit out }
{
    let Ok(digests) = compared_digests(fit, first, span) else {
        return Err(MoveFault::Read);
    };
    put_hashes(fit, image, first, &digests, out)
}
