//! The files of a request, opened by their names in folders.

ghost use Rattle.std.specs.Prelude.{◌≡◌, ◌≤◌, ℕ, List, Bool, IfOk, IsTrue, length, true, false};
ghost use Rattle.std.specs.List.{list_any};
ghost use Rattle.uimg_tool.specs.{Bodies.{IsBody, bodies_of}, LeavingOut.{leads_to, seen_in}};

use crate::body_source::BodySource;
use crate::lookup::Folders;
use crate::source_names::own_name;
use std::alloc::Global;
use std::marker::{Brand, PhantomData};
use uimg_base::{Files, OpenedNames, Source, SourceFault};
use uimg_world::Reader;

/// The file that is left out of a folder. Only contracts use it.
pub(crate) trait LeftOut {
    /// Whether contracts know the names that lead to it.
    ghost known: { Bool };

    /// Whether a name leads to it.
    ghost leads: { List ℕ → Bool };
}

impl LeftOut for Brand {
    ghost known = { true };

    ghost leads = { λ _. false };
}

impl LeftOut for () {
    ghost known = { false };

    ghost leads = { λ _. false };
}

/// The files of folders, without one that is written while the others are read. Those of an image
/// that runs in place are without the room for a header at their beginning.
///
/// Of a folder alone, contracts say what its files have. Where others are searched, they do not.
#[derive(Drop)]
pub(crate) struct FolderFiles<'a, R: Reader, L: LeftOut> {
    pub(crate) folders: Folders<'a, R>,
    is_xip: bool,
    /// A file was refused because it has no room for a header.
    pub(crate) has_met_no_room: bool,
    /// The name of the last file that was not opened, as the source calls it.
    pub(crate) missing: Vec<u8>,
    refusals: u64,
    opened: OpenedNames,
    marker: PhantomData<L>,
    ghost leads: { IsTrue L.known →
        leads_to (R.identities folders.reader) folders.folder.now folders.left_out.now ≡ L.leads },
    ghost met: { IsTrue L.known →
        IsTrue (seen_in folders.folder.now (length folders.others.now) (R.map folders.reader)).honest
        → folders.has_met_left_out ≡ true → list_any L.leads opened.names ≡ true },
    ghost refused: { IsTrue L.known →
        IsTrue (seen_in folders.folder.now (length folders.others.now) (R.map folders.reader)).honest
        → list_any L.leads opened.names ≡ true → 1 ≤ refusals },
}

impl<'a, R: Reader, L: LeftOut> FolderFiles<'a, R, L> {
    /// No file is opened yet.
    pub(crate) fn new(folders: Folders<'a, R>, is_xip: bool) -> FolderFiles<'a, R, L>
        requires leads { IsTrue L.known → leads_to (R.identities folders.reader) folders.folder.now
            folders.left_out.now ≡ L.leads }
        requires unmet { folders.has_met_left_out ≡ false }
        ensures map { ⟦<FolderFiles<'a, R, L> as Files>⟧.map result ≡ bodies_of is_xip
            (seen_in folders.entry.folder.now (length folders.entry.others.now)
            (R.map folders.entry.reader)) }
    {
        let missing = Vec::new(folders.alloc);
        FolderFiles {
            folders,
            is_xip,
            has_met_no_room: false,
            missing,
            refusals: 0,
            opened: OpenedNames::new(),
            marker: PhantomData,
        }
    }

    /// The file that is left out was requested, and so refused.
    pub(crate) fn has_met_left_out(&self) -> bool
        ensures met { IsTrue L.known →
            IsTrue (⟦<FolderFiles<'a, R, L> as Files>⟧.map self.now).honest → result ≡ true →
            list_any L.leads (⟦<FolderFiles<'a, R, L> as Files>⟧.map self.now).opened ≡ true }
        ensures refused { IsTrue L.known →
            IsTrue (⟦<FolderFiles<'a, R, L> as Files>⟧.map self.now).honest →
            list_any L.leads (⟦<FolderFiles<'a, R, L> as Files>⟧.map self.now).opened ≡ true →
            1 ≤ (⟦<FolderFiles<'a, R, L> as Files>⟧.map self.now).refusals }
    {
        self.folders.has_met_left_out
    }
}

impl<'a, R: Reader, L: LeftOut> Files for FolderFiles<'a, R, L> {
    type Opened = BodySource<R::Opened>;

    ghost map = { λ files. record (bodies_of files.is_xip (seen_in files.folders.folder.now
        (length files.folders.others.now) (R.map files.folders.reader))) {
          refusals = files.refusals;
          opened = files.opened.names;
        } };

    /// Returns `SourceFault` as `Folders::open` does, if the file lacks the room that is left out,
    /// or if that cannot be read.
    fn open(&mut self, name: &[u8]) -> Result<BodySource<R::Opened>, SourceFault> {
        self.opened.note(name);
        let opened = match self.folders.open(name) {
            Ok(source) => body_of(source, self.is_xip, &mut self.has_met_no_room),
            Err(fault) => Err(fault),
        };
        if opened.is_err() {
            self.missing.clear();
            let _ = self.missing.extend_from_slice(own_name(name));
            self.refusals = self.refusals.saturating_add(1);
        }
        opened
    }
}

// Notes whether the source has no room for a header, if that is left out.
fn body_of<S: Source>(
    source: S,
    is_xip: bool,
    has_met_no_room: &mut bool,
) -> Result<BodySource<S>, SourceFault>
    ensures { IfOk result (λ body.
        IsBody is_xip (S.device source) (⟦<BodySource<S> as Source>⟧.device body)) }
{
    if !is_xip {
        return Ok(BodySource::whole(source));
    }
    match BodySource::of(source) {
        Ok(Some(body)) => Ok(body),
        Ok(None) => {
            *has_met_no_room = true;
            Err(SourceFault)
        }
        Err(fault) => Err(fault),
    }
}
