//! Writes payloads to a folder, with a line for each.

ghost use Rattle.std.specs.Prelude.{◌≡◌, ◌++◌, ◌∷◌, ◌&&◌, ◌||◌, ℕ, List, [], Bool, None, Some, IfOk, IsTrue, OnOk, length, nat_lt, not, is_none, is_ok, false, true};
ghost use Rattle.std.specs.Io.Buffered.{writer_contents};
ghost use Rattle.uimg_fit_checking.specs.{Claiming.{claim}, Unpacking.{as_bytes, kept, refused}};
ghost use Rattle.uimg_fit_checking.specs.declared.checking.Finding.TheVariants as finding;
ghost use Rattle.uimg_unpacking.specs.Contents.{held_in};
ghost use Rattle.uimg_unpacking.specs.FileNames.{is_among};
ghost use Rattle.uimg_unpacking.specs.Given.{AreNamed, AreWhole, MayGive, newest, noted_takes, seen_of, takes_given};
ghost use Rattle.uimg_unpacking.specs.Leaving.{Leaves, are_undone};
ghost use Rattle.uimg_unpacking.specs.Limiting.{claims_by, exceeded};
ghost use Rattle.uimg_unpacking.specs.Objects.{told_of, kept_told, refused_told};
ghost use Rattle.uimg_unpacking.specs.Places.{Obeys, terms_of};
ghost use Rattle.uimg_unpacking.specs.Refusals.{last_name};
ghost use Rattle.uimg_unpacking.specs.Staged.{Completes, complete_names, names_of, staged, uses_names, with_name};
ghost use Rattle.uimg_unpacking.specs.Telling.{with_kept, with_refused, TellsIf};
ghost use Rattle.uimg_unpacking.specs.Troubles.{done_in};

use crate::limits::Claims;
use crate::lines::Line;
use crate::names::Names;
use crate::new_file::{ErrorCode, NewFile};
use crate::objects::told;
use crate::staging::Staging;
use crate::task::Task;
use crate::telling::{may_name, name, tell};
use crate::trouble::{Trouble, kept};
use crate::unpacking::Unpacking;
use std::alloc::Global;
use std::io::Write;
use uimg_base::{OpenedNames, PutFault};
use uimg_fit_checking::{NodeName, Refusal, Taker, Vouched};
use uimg_world::World;

// The mark of a payload that is kept, and of a refused one.
const KEPT: &[u8] = b"kept";

const REFUSED: &[u8] = b"";

/// A taker that writes payloads to a folder. Their files get their names at the end: all of them,
/// or, if one is refused, none or only the good ones.
#[derive(Drop)]
pub(crate) struct FolderTaker<'w, 'a, 'c, W: World, M: Task, O: Write + Drop> {
    pub(crate) alloc: Global,
    keeps_good: bool,
    pub(crate) json: Option<&'a str>,
    out: O,
    pub(crate) staging: Staging<'w, 'a, 'c, W, M>,
    // The lines to print once the files have their names, or if none gets one.
    pub(crate) lines: Vec<u8>,
    has_refused: bool,
    // The names of the files that were checked, then of those that were begun: the same ones.
    looked: Names,
    taken: Names,
    // For contracts alone: the images for which a shelf was requested.
    pub(crate) begun: OpenedNames,
    // For contracts alone: of each payload that was kept or refused, its image's name, then a mark.
    given: OpenedNames,
    claims: Claims,
    trouble: Option<Trouble>,
    ghost unnamed: { staging.is_naming ≡ false },
    ghost whole: { AreWhole staging.files.items staging.is_writing (noted_takes given.names) },
    ghost named: { is_none trouble ≡ true → AreNamed staging.files.items staging.is_writing (noted_takes given.names) taken.named.names (newest begun.names) },
    ghost apart: { is_none trouble ≡ true → uses_names (is_among taken.named.names) (names_of staging.files.items) (names_of staging.outdated.items) ≡ true },
    ghost limits: { claims.limits ≡ M.limits },
    ghost fits: { is_none trouble ≡ true → is_none (exceeded claims.limits (claims_by claims.noted.names)) ≡ true },
}

impl<'w, 'a, 'c, W: World, M: Task, O: Write + Drop> FolderTaker<'w, 'a, 'c, W, M, O> {
    /// Writes lines to `out`. Notes failed writes in `code`.
    pub(crate) fn new(
        world: &'w mut W,
        alloc: Global,
        asked: &Unpacking<'a>,
        out: O,
        code: &'c ErrorCode,
    ) -> FolderTaker<'w, 'a, 'c, W, M, O>
        requires named { world.ghost_name ≡ M.name }
        requires before { W.trace world.now ≡ M.before }
        requires agreed { terms_of asked.now.folder ≡ M.terms }
        requires limits { asked.now.limits ≡ M.limits }
        ensures claims { claims_by result.claims.noted.names ≡ [] }
        ensures folder { result.staging.folder ≡ asked.now.folder }
        ensures none { result.taken.named.names ≡ [] }
        ensures empty { result.given.names ≡ [] }
        ensures complete { complete_names result.staging.files.items result.staging.is_writing ≡ [] }
    {
        FolderTaker {
            alloc,
            keeps_good: asked.keeps_good,
            json: asked.json,
            out,
            staging: Staging::new(world, alloc, asked.folder, code),
            lines: Vec::new(alloc),
            has_refused: false,
            looked: Names::new(alloc),
            taken: Names::new(alloc),
            begun: OpenedNames::new(),
            given: OpenedNames::new(),
            claims: Claims::new(asked.limits),
            trouble: None,
        }
    }

    /// Gives the complete files their names, if `names`. After a trouble only good files that are to
    /// be kept get theirs. Removes the others, and prints the lines. Returns the world, their writer,
    /// the number of payloads that were begun, and the trouble, if it is known.
    pub(crate) fn end(self, names: bool, keeps_good: bool) -> (&'w mut W, O, usize, Option<Trouble>)
        ensures named { result.0.ghost_name ≡ M.name }
        ensures obeys { Obeys M.terms names M.before (W.trace result.0.now) }
        ensures none { is_none result.3 ≡ true → is_none self.entry.trouble ≡ true }
        ensures holds { names ≡ true → result.3 ≡ None → held_in self.entry.staging.folder.path.now
            (W.trace result.0.now)
            (complete_names self.entry.staging.files.items self.entry.staging.is_writing)
            ≡ staged (W.trace self.entry.staging.world.now) self.entry.staging.files.items
            self.entry.staging.is_writing }
        ensures told { result.3 ≡ None → TellsIf (names || self.entry.has_refused)
            (O.contents self.entry.out) (O.contents result.1) self.entry.lines.items }
        ensures count { result.2 ≡ length self.entry.taken.named.names }
        ensures unnamed { names ≡ false →
            Leaves self.entry.staging.folder.path.now M.before (W.trace result.0.now) }
        ensures back { keeps_good ≡ false → are_undone result.3 ≡ true →
            Leaves self.entry.staging.folder.path.now M.before (W.trace result.0.now) }
        ensures empty { keeps_good ≡ false → result.2 ≡ 0 → result.3 ≡ None →
            Leaves self.entry.staging.folder.path.now M.before (W.trace result.0.now) }
    {
        let FolderTaker {
            alloc: _alloc,
            keeps_good: _keeps_good,
            json: _json,
            mut out,
            mut staging,
            lines,
            has_refused,
            looked: _looked,
            taken,
            begun: _begun,
            given: _given,
            claims: _claims,
            trouble,
        } = self;
        let trouble = trouble.or(staging.unwritten());
        let names = may_name(names, keeps_good, &trouble);
        let named = name(&mut staging, names, keeps_good);
        let told = tell(named, &mut out, lines.as_slice(), names || has_refused);
        let (world, trouble) = staging.end(trouble.or(told.err()));
        (world, out, taken.count(), trouble)
    }

    // Checks, before any payload is written, whether the file of this one may be.
    fn look(&mut self, name: &NodeName) -> Result<(), Trouble>
        ensures folder { self.new.staging.folder ≡ self.old.staging.folder }
        ensures claims { self.new.claims ≡ self.old.claims }
        ensures taken { self.new.taken ≡ self.old.taken }
        ensures given { self.new.given ≡ self.old.given }
        ensures begun { self.new.begun ≡ self.old.begun }
        ensures complete { complete_names self.new.staging.files.items self.new.staging.is_writing
            ≡ complete_names self.old.staging.files.items self.old.staging.is_writing }
        ensures staged { staged (W.trace self.new.staging.world.now) self.new.staging.files.items
            self.new.staging.is_writing ≡ staged (W.trace self.old.staging.world.now)
            self.old.staging.files.items self.old.staging.is_writing }
    {
        let file = self.looked.next(name)?;
        self.staging.look(file.as_str())
    }

    /// Returns the length of a payload's file in bytes. The file is complete then.
    pub(crate) fn complete(
        &mut self,
        name: &NodeName,
        file: NewFile<'c, W::File>,
    ) -> Result<u64, Trouble>
        requires { newest self.old.begun.names ≡ as_bytes name.now }
        ensures size { IfOk result (λ size. size ≡ file.entry.size) }
        ensures folder { self.new.staging.folder ≡ self.old.staging.folder }
        ensures taken { self.new.taken ≡ self.old.taken }
        ensures claims { self.new.claims ≡ self.old.claims }
        ensures files { self.new.staging.files ≡ self.old.staging.files }
        ensures begun { self.new.begun ≡ self.old.begun }
        ensures lines { self.new.lines ≡ self.old.lines × self.new.json ≡ self.old.json }
        ensures refused { self.new.has_refused ≡ self.old.has_refused
            × self.new.keeps_good ≡ self.old.keeps_good }
        ensures complete { complete_names self.new.staging.files.items self.new.staging.is_writing
            ≡ with_name (is_ok result)
            (complete_names self.old.staging.files.items self.old.staging.is_writing)
            (last_name self.old.staging.files.items) }
        ensures staged { IsTrue W.knows → (bytes : List ℕ) →
            writer_contents W.File.contents file.entry.file ≡ Some bytes →
            Completes (is_ok result) (Some bytes)
            (staged (W.trace self.old.staging.world.now) self.old.staging.files.items
            self.old.staging.is_writing)
            (staged (W.trace self.new.staging.world.now) self.new.staging.files.items
            self.new.staging.is_writing) }
        ensures given { IsTrue W.knows → (bytes : List ℕ) →
            writer_contents W.File.contents file.entry.file ≡ Some bytes →
            MayGive (is_ok result) (kept (as_bytes name.now) bytes None)
            (takes_given self.old.given.names (staged (W.trace self.old.staging.world.now)
            self.old.staging.files.items self.old.staging.is_writing))
            (takes_given self.new.given.names (staged (W.trace self.new.staging.world.now)
            self.new.staging.files.items self.new.staging.is_writing)) }
    {
        let size = self.staging.complete(file)?;
        self.given.note(name.bytes());
        self.given.note(KEPT);
        Ok(size)
    }

    fn finish(
        &mut self,
        name: &NodeName,
        file: NewFile<'c, W::File>,
        vouched: Option<Vouched>,
    ) -> Result<(), Trouble>
        requires { newest self.old.begun.names ≡ as_bytes name.now }
        ensures folder { self.new.staging.folder ≡ self.old.staging.folder }
        ensures taken { self.new.taken ≡ self.old.taken }
        ensures claims { self.new.claims ≡ self.old.claims }
        ensures files { self.new.staging.files ≡ self.old.staging.files }
        ensures given { IsTrue W.knows → (bytes : List ℕ) →
            writer_contents W.File.contents file.entry.file ≡ Some bytes →
            MayGive (is_ok result) (kept (as_bytes name.now) bytes None)
            (takes_given self.old.given.names (staged (W.trace self.old.staging.world.now)
            self.old.staging.files.items self.old.staging.is_writing))
            (takes_given self.new.given.names (staged (W.trace self.new.staging.world.now)
            self.new.staging.files.items self.new.staging.is_writing)) }
        ensures told { OnOk result (self.new.lines.items
            ≡ with_kept (self.old.has_refused && not self.old.keeps_good) self.old.lines.items
            (kept_told self.old.json (as_bytes name.now) (last_name self.old.staging.files.items)
            file.entry.size vouched)) }
    {
        let size = self.complete(name, file)?;
        if self.has_refused && !self.keeps_good {
            return Ok(());
        }
        let file = String::from_str(self.alloc, self.staging.last_name())?;
        let line = Line::Kept {
            name,
            file: file.as_str(),
            size,
            vouched,
        };
        self.add(&line)
    }

    pub(crate) fn add(&mut self, line: &Line<'_>) -> Result<(), Trouble>
        ensures staging { self.new.staging ≡ self.old.staging }
        ensures begun { self.new.begun ≡ self.old.begun }
        ensures json { self.new.json ≡ self.old.json }
        ensures taken { self.new.taken ≡ self.old.taken }
        ensures claims { self.new.claims ≡ self.old.claims }
        ensures given { self.new.given ≡ self.old.given }
        ensures refused { self.new.has_refused ≡ self.old.has_refused }
        ensures told { OnOk result
            (self.new.lines.items ≡ self.old.lines.items ++ told_of self.old.json line.now) }
    {
        let line = told(self.alloc, self.json, line)?;
        self.lines.extend_from_slice(line.as_slice())?;
        Ok(())
    }

    fn throw_away(&mut self, name: &NodeName, refusal: Refusal) -> Result<(), Trouble>
        requires { newest self.old.begun.names ≡ as_bytes name.now }
        ensures folder { self.new.staging.folder ≡ self.old.staging.folder }
        ensures taken { self.new.taken ≡ self.old.taken }
        ensures claims { self.new.claims ≡ self.old.claims }
        ensures refused { OnOk result (self.new.has_refused ≡ true) }
        ensures given { MayGive (is_ok result) (refused (as_bytes name.now) (finding.Weak []))
            (takes_given self.old.given.names (staged (W.trace self.old.staging.world.now)
            self.old.staging.files.items self.old.staging.is_writing))
            (takes_given self.new.given.names (staged (W.trace self.new.staging.world.now)
            self.new.staging.files.items self.new.staging.is_writing)) }
        ensures told { OnOk result (self.new.lines.items
            ≡ with_refused (self.old.keeps_good || self.old.has_refused) self.old.lines.items
            (refused_told self.old.json (as_bytes name.now) refusal)) }
    {
        if self.staging.is_complete() {
            return Err(Trouble::NoName);
        }
        self.given.note(name.bytes());
        self.given.note(REFUSED);
        self.staging.refuse_last(self.keeps_good)?;
        if !self.keeps_good && !self.has_refused {
            self.lines.clear();
        }
        self.has_refused = true;
        self.add(&Line::Refused(name, refusal))
    }

    /// Notes the trouble of what failed.
    #[tactic(auto, using(crate::proofs::LimitLaws::fits_kept))]
    pub(crate) fn noted<X>(&mut self, done: Result<X, Trouble>) -> Result<X, PutFault>
        ensures done { done_in result ≡ done_in done }
        ensures staging { self.new.staging ≡ self.old.staging }
        ensures taken { self.new.taken ≡ self.old.taken }
        ensures claims { self.new.claims ≡ self.old.claims }
        ensures given { self.new.given ≡ self.old.given }
        ensures begun { self.new.begun ≡ self.old.begun }
    {
        kept(done, &mut self.trouble)
    }
}

impl<'w, 'a, 'c, W: World, M: Task, O: Write + Drop> Taker for FolderTaker<'w, 'a, 'c, W, M, O> {
    type Shelf = NewFile<'c, W::File>;

    ghost place = { λ t. t.staging.folder.path.now };

    ghost honest = { W.knows };

    ghost seen = { seen_of };

    ghost takes = { λ t. takes_given t.given.names (staged (W.trace t.staging.world.now)
        t.staging.files.items t.staging.is_writing) };

    ghost notes = { true };

    ghost claimed = { λ t. claims_by t.claims.noted.names };

    ghost shelved = { λ t. newest t.begun.names };

    ghost begun = { λ t. nat_lt 0 (length t.taken.named.names) };

    #[tactic(auto, using(crate::proofs::LimitLaws::fits_noted))]
    fn claim(&mut self, name: &NodeName, length: u64) -> Result<(), PutFault>
        ensures folder { self.new.staging.folder ≡ self.old.staging.folder }
        ensures claims { claims_by self.new.claims.noted.names
            ≡ claims_by self.old.claims.noted.names ++ claim (as_bytes name.now) length ∷ [] }
        ensures taken { self.new.taken ≡ self.old.taken }
        ensures given { ⟦<FolderTaker<'w, 'a, 'c, W, M, O> as Taker>⟧.takes self.new
            ≡ ⟦<FolderTaker<'w, 'a, 'c, W, M, O> as Taker>⟧.takes self.old }
        ensures begun { self.new.begun ≡ self.old.begun }
        ensures complete { complete_names self.new.staging.files.items self.new.staging.is_writing
            ≡ complete_names self.old.staging.files.items self.old.staging.is_writing }
        ensures staged { staged (W.trace self.new.staging.world.now) self.new.staging.files.items
            self.new.staging.is_writing ≡ staged (W.trace self.old.staging.world.now)
            self.old.staging.files.items self.old.staging.is_writing }
    {
        let claimed = self.claims.claim(name, length);
        kept(claimed, &mut self.trouble)?;
        let looked = self.look(name);
        self.noted(looked)
    }

    #[tactic(auto, using(crate::proofs::LimitLaws::fits_kept))]
    fn shelf(&mut self, name: &NodeName) -> Result<NewFile<'c, W::File>, PutFault>
        ensures folder { self.new.staging.folder ≡ self.old.staging.folder }
        ensures claims { claims_by self.new.claims.noted.names
            ≡ claims_by self.old.claims.noted.names }
        ensures taken { OnOk result (nat_lt 0 (length self.new.taken.named.names) ≡ true) }
        ensures given { ⟦<FolderTaker<'w, 'a, 'c, W, M, O> as Taker>⟧.takes self.new
            ≡ ⟦<FolderTaker<'w, 'a, 'c, W, M, O> as Taker>⟧.takes self.old }
        ensures begun { OnOk result (newest self.new.begun.names ≡ as_bytes name.now) }
        ensures empty { IsTrue W.knows → IfOk result (λ new.
            writer_contents W.File.contents new.file ≡ Some []) }
        ensures complete { complete_names self.new.staging.files.items self.new.staging.is_writing
            ≡ complete_names self.old.staging.files.items self.old.staging.is_writing }
        ensures staged { staged (W.trace self.new.staging.world.now) self.new.staging.files.items
            self.new.staging.is_writing ≡ staged (W.trace self.old.staging.world.now)
            self.old.staging.files.items self.old.staging.is_writing }
    {
        self.begun.note(name.bytes());
        match self.taken.next(name) {
            Ok(file) => {
                let begun = self.staging.begin(file);
                kept(begun, &mut self.trouble)
            }
            Err(trouble) => kept(Err(trouble), &mut self.trouble),
        }
    }

    #[tactic(auto, using(crate::proofs::LimitLaws::fits_kept))]
    fn keep(
        &mut self,
        name: &NodeName,
        shelf: NewFile<'c, W::File>,
        vouched: Option<Vouched>,
    ) -> Result<(), PutFault> {
        let finished = self.finish(name, shelf, vouched);
        kept(finished, &mut self.trouble)
    }

    #[tactic(auto, using(crate::proofs::LimitLaws::fits_kept))]
    fn refuse(
        &mut self,
        name: &NodeName,
        shelf: NewFile<'c, W::File>,
        refusal: Refusal,
    ) -> Result<(), PutFault> {
        drop(shelf);
        let thrown = self.throw_away(name, refusal);
        kept(thrown, &mut self.trouble)
    }
}
