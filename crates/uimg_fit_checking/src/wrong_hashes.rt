//! The first hash node of an image that is not right.

ghost use Rattle.std.specs.Prelude.{◌≡◌, ℕ, ◌+◌, ◌≤◌, List, length, is_err, IfOk, IfSome};
ghost use Rattle.uimg_texts.specs.declared.naming.Naming.TheVariants as naming;
ghost use Rattle.uimg_base.specs.Using.{Uses};
ghost use Rattle.uimg_fit_base.specs.AlgoSets.{set_of, AreDigests};
ghost use Rattle.uimg_fit_checking.specs.CheckParts.{FindsWrong};
ghost use Rattle.uimg_fit_reading.specs.HashReports.{AllCovered};
ghost use Rattle.uimg_fit_reading.specs.Nodes.{OfHashes, HasNodes};

use crate::checking::Finding;
use std::alloc::Allocator;
use uimg_base::{Room, Source, SourceFault, Span};
use uimg_blob_reading::Blob;
use uimg_fit_base::{Digests, Verdict, is_right};
use uimg_fit_reading::judge;
use uimg_fit_reading::nodes::{name_of, next_hash};
use uimg_texts::Naming;

/// A hash node that is not right.
#[derive(Clone, Copy, Debug, PartialEq, Eq)]
pub(crate) struct WrongHash {
    // The span of its name.
    pub(crate) hash: Span,
    // The word that a report prints for it.
    pub(crate) word: Verdict,
}

impl WrongHash {
    // `image` is the span of the image's name.
    pub(crate) fn finding(self, image: Span) -> Finding<Span>
        ensures { result ≡ Finding.Wrong image self.hash self.word }
    {
        Finding::Wrong {
            image,
            hash: self.hash,
            word: self.word,
        }
    }
}

pub(crate) fn first_wrong<S: Source, A: Allocator>(
    source: &mut S,
    blob: &Blob,
    room: &Room<A>,
    first: Option<usize>,
    digests: &Digests,
) -> Result<Option<WrongHash>, SourceFault>
    requires node { HasNodes (S.device source.old) blob.now room.now first }
    ensures uses { Uses (is_err result) (S.device source.old) (S.device source.new) }
    ensures inside { IfOk result (λ found. IfSome found (λ w.
        w.hash.place + w.hash.length ≤ length (S.device source.old).bytes)) }
    ensures told { OfHashes (S.device source.old) blob.now room.now first
        (λ hs. (message : List ℕ) → AreDigests digests.now message →
        AllCovered naming.All (set_of digests.now) hs → FindsWrong message hs result S.device source) }
{
    let mut next = first;
    while let Some(hash) = next {
        let word = judge(source, blob, room, Naming::All, hash, digests)?;
        if !is_right(word) {
            let hash = name_of(blob, room, hash);
            return Ok(Some(WrongHash { hash, word }));
        }
        next = next_hash(blob, room, hash);
    }
    Ok(None)
}
