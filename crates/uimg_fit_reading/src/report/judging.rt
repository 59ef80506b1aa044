//! The word of a hash node, and its line.
ghost use Rattle.std.specs.Prelude.{◌≡◌, ℕ, ◌+◌, ◌≤◌, List, length, is_err, IfOk};
ghost use Rattle.uimg_base.specs.Using.{Asks};
ghost use Rattle.uimg_fit_base.specs.{AlgoSets.{set_of, AreDigests}, Report.named_word};
ghost use Rattle.uimg_fit_reading.specs.{HashReports.{PutsHash, verdict_line}, Telling.Lists};
ghost use Rattle.uimg_fit_reading.specs.{Nodes.{OfHash, HasNode}, OpenFits.{file_of, InFit}};
ghost use Rattle.uimg_fit_reading.specs.{Plans.{IsCovered, algo_length, hash_plan}, Puts.Leaves};
ghost use Rattle.uimg_fit_reading.specs.Values.{in_span};

use crate::nodes::{name_of, value_of};
use crate::open_fit::OpenFit;
use crate::report::hash_lines::{HashLine, put_hash_line};
use crate::report::plans::{judged, plan_at};
use std::alloc::Allocator;
use std::io::Write;
use uimg_base::{MoveFault, Out, Room, Source, SourceFault, Span};
use uimg_blob_reading::{Blob, Key};
use uimg_fit_base::{Digests, Verdict};
use uimg_texts::Naming;

/// Returns the word of a hash node, by the algorithms of a set of names and the digests of its
/// payload. Requests at most 96 bytes.
pub fn judge<S: Source, A: Allocator>(
    source: &mut S,
    blob: &Blob,
    room: &Room<A>,
    naming: Naming,
    hash: usize,
    digests: &Digests,
) -> Result<Verdict, SourceFault>
    requires { HasNode (S.device source.old) blob.now room.now hash }
    ensures uses { Asks 96 (is_err result) (S.device source.old) (S.device source.new) }
    ensures word { OfHash (S.device source.old) blob.now room.now hash (λ found.
        (message : List ℕ) → AreDigests digests.now message →
        IsCovered (set_of digests.now) (hash_plan naming found) →
        IfOk result (λ word. word ≡ named_word naming message found)) }
{
    let plan = plan_at(source, blob, room, naming, hash)?;
    judged(source, plan, digests)
}

fn put_judged<S: Source, A: Allocator, W: Write>(
    fit: &mut OpenFit<'_, S, A>,
    image: Span,
    hash: usize,
    word: Verdict,
    out: &mut Out<W>,
) -> Result<(), MoveFault>
    requires node { InFit S.device fit.old HasNode hash }
    requires name { image.place + image.length ≤ length (file_of S.device fit.old) }
    ensures leaves { Leaves result S.device fit out }
    ensures told { InFit S.device fit.old OfHash hash
        (λ found. Lists (image.length + 255 + algo_length found) result S.device fit out
        (verdict_line (in_span (file_of S.device fit.old) image) word found)) }
{
    let line = HashLine {
        image,
        hash: name_of(&fit.blob, fit.room, hash),
        algo: value_of(&fit.blob, fit.room, hash, Key::Algo),
        word,
    };
    put_hash_line(fit.source, fit.room, line, out)
}

pub(crate) fn put_hash<S: Source, A: Allocator, W: Write>(
    fit: &mut OpenFit<'_, S, A>,
    image: Span,
    hash: usize,
    digests: &Digests,
    out: &mut Out<W>,
) -> Result<Verdict, MoveFault>
    requires node { InFit S.device fit.old HasNode hash }
    requires name { image.place + image.length ≤ length (file_of S.device fit.old) }
    ensures leaves { Leaves result S.device fit out }
    ensures told { PutsHash image hash digests.now result S.device fit out }
{
    let Ok(word) = judge(
        fit.source,
        &fit.blob,
        fit.room,
        Naming::Profile,
        hash,
        digests,
    ) else {
        return Err(MoveFault::Read);
    };
    put_judged(fit, image, hash, word, out)?;
    Ok(word)
}
