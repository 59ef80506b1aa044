//! Checks the images below a folder.

ghost use Rattle.std.specs.Prelude.{◌≡◌, ◌⊎◌, ◌∷◌, ◌+◌, ◌-◌, ◌^◌, [], None, IfErr, IfOk, IfSome, IsTrue, OnOk, map, min, reverse, vec_items, false, true};
ghost use Rattle.std.specs.Io.KnownBytes.{Appends};
ghost use Rattle.uimg_base.specs.{Device.SameDevice, Honest.HonestSource, Named.SameFiles};
ghost use Rattle.uimg_checks.specs.Answers.{answer_status};
ghost use Rattle.uimg_tool.specs.{Below.{AnswersAt, AnswersBelow, AnswersFolder, AnswersGiven, AnswersLeading, AnswersTarget, Begins, Stands, begins_as_image, skipped_line, skipped_text}, Checks.{AnswersFile, LooksAt, told}, FolderPaths.ArePathsIn, Statuses.{Grows, request_status}};
ghost use Rattle.uimg_world.specs.Deeds.{Deed, changes};

use super::folder_paths::sorted_paths;
use super::{Checks, flush};
use crate::complaints::unprinted;
use crate::keys::Keyed;
use crate::opening::is_input;
use crate::request_fault::RequestFault;
use crate::unread::{Unread, answer_of_unread};
use std::alloc::{AllocError, Global};
use std::io::Write;
use uimg_base::{Room, Source, SourceFault, be32_at};
use uimg_checks::{Answer, Names, answer_of_line, answer_of_source};
use uimg_printing::{Counted, Printed};
use uimg_world::{Kind, Target, World};

/// The magic number of a devicetree blob, and that of a legacy header.
const BLOB_MAGIC: u32 = 0xd00d_feed;

const LEGACY_MAGIC: u32 = 0x2705_1956;

impl Checks {
    // Checks an image of the command line, or those below it if it is a folder. `-` is no folder.
    #[tactic(auto, using(crate::proofs::BelowLaws::as_input, crate::proofs::BelowLaws::as_given))]
    pub(super) fn check_given<'b, D: World, W: Write>(
        &mut self,
        world: &mut D,
        asked: &Keyed<'_, 'b>,
        path: &str,
        out: &mut W,
    ) -> Result<(), RequestFault<'b>>
        ensures grows { Grows self.old.greatest self.new.greatest }
        ensures told { OnOk result (AnswersGiven (D.map world.old) asked.now path.now
            (told self.old (W.contents out.old) (D.trace world.old))
            (told self.new (W.contents out.new) (D.trace world.new))) }
        ensures same { SameFiles (D.map world.old) (D.map world.new) }
        ensures changes { changes (D.trace world.new) ≡ changes (D.trace world.old) }
        ensures fails { IfErr result (λ fault. request_status fault ≡ 3) }
    {
        if is_input(path) {
            return self.check_input(world, asked, path, out);
        }
        if !asked.request.is_recursive {
            return self.check(world, asked, path.as_bytes(), out);
        }
        match world.kind_at(path) {
            Kind::Folder => self.check_folder(world, asked, path.as_bytes(), out),
            Kind::Nothing => self.check(world, asked, path.as_bytes(), out),
            Kind::File => self.check(world, asked, path.as_bytes(), out),
            Kind::Link => self.check(world, asked, path.as_bytes(), out),
        }
    }

    fn check_folder<'b, D: World, W: Write>(
        &mut self,
        world: &mut D,
        asked: &Keyed<'_, 'b>,
        path: &[u8],
        out: &mut W,
    ) -> Result<(), RequestFault<'b>>
        ensures grows { Grows self.old.greatest self.new.greatest }
        ensures told { OnOk result (AnswersFolder (D.map world.old) asked.now path.now
            (told self.old (W.contents out.old) (D.trace world.old))
            (told self.new (W.contents out.new) (D.trace world.new))) }
        ensures same { SameFiles (D.map world.old) (D.map world.new) }
        ensures changes { changes (D.trace world.new) ≡ changes (D.trace world.old) }
        ensures fails { IfErr result (λ fault. request_status fault ≡ 3) }
    {
        self.skipped = 0;
        self.check_below(world, asked, path, out)?;
        put_skipped(asked, path, self.skipped, out)?;
        Ok(())
    }

    // Takes the paths that are left from the end of a list. The names of a folder come in its place.
    fn check_below<'b, D: World, W: Write>(
        &mut self,
        world: &mut D,
        asked: &Keyed<'_, 'b>,
        path: &[u8],
        out: &mut W,
    ) -> Result<(), RequestFault<'b>>
        ensures grows { Grows self.old.greatest self.new.greatest }
        ensures told { OnOk result (AnswersBelow (D.map world.old) asked.now (path.now ∷ [])
            (told self.old (W.contents out.old) (D.trace world.old))
            (told self.new (W.contents out.new) (D.trace world.new))) }
        ensures same { SameFiles (D.map world.old) (D.map world.new) }
        ensures changes { changes (D.trace world.new) ≡ changes (D.trace world.old) }
        ensures fails { IfErr result (λ fault. request_status fault ≡ 3) }
    {
        let Ok(mut left) = list_of(world.alloc(), path) else {
            return Err(RequestFault::OutOfMemory);
        };
        for _ in 0..u64::MAX {
            let Some(last) = left.pop() else {
                return Ok(());
            };
            let mut within = self.check_path(world, asked, last.as_slice(), out)?;
            within.reverse();
            if left.append(&mut within).is_err() {
                return Err(RequestFault::OutOfMemory);
            }
        }
        // No memory has so many names.
        Err(RequestFault::OutOfMemory)
    }

    // Checks what is at a path. Returns the paths in a folder, which are not checked yet.
    fn check_path<'b, D: World, W: Write>(
        &mut self,
        world: &mut D,
        asked: &Keyed<'_, 'b>,
        path: &[u8],
        out: &mut W,
    ) -> Result<Vec<Vec<u8>>, RequestFault<'b>>
        ensures grows { Grows self.old.greatest self.new.greatest }
        ensures told { IfOk result (λ within.
            Stands (D.map world.old) asked.now path.now (map vec_items within.items)
            (told self.old (W.contents out.old) (D.trace world.old))
            (told self.new (W.contents out.new) (D.trace world.new))) }
        ensures same { SameFiles (D.map world.old) (D.map world.new) }
        ensures changes { changes (D.trace world.new) ≡ changes (D.trace world.old) }
        ensures fails { IfErr result (λ fault. request_status fault ≡ 3) }
    {
        let Ok(text) = str::from_utf8(path) else {
            self.check(world, asked, path, out)?;
            return Ok(Vec::new(world.alloc()));
        };
        let kind = world.kind_at(text);
        self.check_at(world, asked, text, kind, out)
    }

    fn check_at<'b, D: World, W: Write>(
        &mut self,
        world: &mut D,
        asked: &Keyed<'_, 'b>,
        path: &str,
        kind: Kind,
        out: &mut W,
    ) -> Result<Vec<Vec<u8>>, RequestFault<'b>>
        ensures grows { Grows self.old.greatest self.new.greatest }
        ensures told { IfOk result (λ within.
            AnswersAt (D.map world.old) asked.now path.now kind (map vec_items within.items)
            (told self.old (W.contents out.old) (D.trace world.old))
            (told self.new (W.contents out.new) (D.trace world.new))) }
        ensures same { SameFiles (D.map world.old) (D.map world.new) }
        ensures changes { changes (D.trace world.new) ≡ changes (D.trace world.old) }
        ensures fails { IfErr result (λ fault. request_status fault ≡ 3) }
    {
        match kind {
            Kind::Nothing => {
                self.check(world, asked, path.as_bytes(), out)?;
                Ok(Vec::new(world.alloc()))
            }
            Kind::Link => {
                self.skip();
                Ok(Vec::new(world.alloc()))
            }
            Kind::File => {
                self.check_file(world, asked, path, out)?;
                Ok(Vec::new(world.alloc()))
            }
            Kind::Folder => self.list_folder(world, asked, path, out),
        }
    }

    fn skip(&mut self)
        ensures skipped { self.new.skipped ≡ min (self.old.skipped + 1) (2 ^ 64 - 1) }
        ensures greatest { self.new.greatest ≡ self.old.greatest }
        ensures checked { self.new.has_checked ≡ self.old.has_checked }
        ensures report { self.new.report ≡ self.old.report }
    {
        self.skipped = self.skipped.saturating_add(1);
    }

    // Only a regular file is opened. One that does not begin as an image is skipped.
    fn check_file<'b, D: World, W: Write>(
        &mut self,
        world: &mut D,
        asked: &Keyed<'_, 'b>,
        path: &str,
        out: &mut W,
    ) -> Result<(), RequestFault<'b>>
        ensures grows { Grows self.old.greatest self.new.greatest }
        ensures told { OnOk result (AnswersLeading (D.map world.old) asked.now path.now
            (told self.old (W.contents out.old) (D.trace world.old))
            (told self.new (W.contents out.new) (D.trace world.new))) }
        ensures same { SameFiles (D.map world.old) (D.map world.new) }
        ensures changes { changes (D.trace world.new) ≡ changes (D.trace world.old) }
        ensures fails { IfErr result (λ fault. request_status fault ≡ 3) }
    {
        match world.target_of(path) {
            Target::File => self.check_image(world, asked, path, out),
            Target::Nothing | Target::Pipe | Target::Other => {
                self.skip();
                Ok(())
            }
        }
    }

    fn check_image<'b, D: World, W: Write>(
        &mut self,
        world: &mut D,
        asked: &Keyed<'_, 'b>,
        path: &str,
        out: &mut W,
    ) -> Result<(), RequestFault<'b>>
        ensures grows { Grows self.old.greatest self.new.greatest }
        ensures told { OnOk result (AnswersTarget (D.map world.old) asked.now path.now Target.File
            (told self.old (W.contents out.old) (D.trace world.old))
            (told self.new (W.contents out.new) (D.trace world.new))) }
        ensures same { SameFiles (D.map world.old) (D.map world.new) }
        ensures changes { changes (D.trace world.new) ≡ changes (D.trace world.old) }
        ensures fails { IfErr result (λ fault. request_status fault ≡ 3) }
    {
        let mut names = Names::new(world.alloc());
        match answer_of_image(world, asked, path, &mut self.room, &mut names) {
            Some(answer) => self.put(world.alloc(), asked, path.as_bytes(), &answer, out),
            None => {
                self.skip();
                Ok(())
            }
        }
    }

    // Returns the paths in a folder. A folder that cannot be read is answered as an image that cannot.
    fn list_folder<'b, D: World, W: Write>(
        &mut self,
        world: &mut D,
        asked: &Keyed<'_, 'b>,
        path: &str,
        out: &mut W,
    ) -> Result<Vec<Vec<u8>>, RequestFault<'b>>
        ensures grows { Grows self.old.greatest self.new.greatest }
        ensures told { IfOk result (λ within.
            AnswersAt (D.map world.old) asked.now path.now Kind.Folder (map vec_items within.items)
            (told self.old (W.contents out.old) (D.trace world.old))
            (told self.new (W.contents out.new) (D.trace world.new))) }
        ensures same { SameFiles (D.map world.old) (D.map world.new) }
        ensures changes { changes (D.trace world.new) ≡ changes (D.trace world.old) }
        ensures fails { IfErr result (λ fault. request_status fault ≡ 3) }
    {
        let reason = match world.read_dir(path) {
            Ok(names) => return paths_within(world.alloc(), path, names.as_slice()),
            Err(reason) => reason,
        };
        let mut names = Names::new(world.alloc());
        let answer = answer_of_line(&Unread(reason), false, &mut names);
        self.put(world.alloc(), asked, path.as_bytes(), &answer, out)?;
        Ok(Vec::new(world.alloc()))
    }
}

fn paths_within<'b>(
    alloc: Global,
    folder: &str,
    names: &[u8],
) -> Result<Vec<Vec<u8>>, RequestFault<'b>>
    ensures paths { IfOk result (λ paths.
        ArePathsIn folder.now names.now (map vec_items paths.items)) }
    ensures fails { IfErr result (λ fault. request_status fault ≡ 3) }
{
    match sorted_paths(alloc, folder.as_bytes(), names) {
        Ok(paths) => Ok(paths),
        Err(_) => Err(RequestFault::OutOfMemory),
    }
}

fn list_of(alloc: Global, path: &[u8]) -> Result<Vec<Vec<u8>>, AllocError>
    ensures { IfOk result (λ list. map vec_items (reverse list.items) ≡ path.now ∷ []) }
{
    let mut list = Vec::new(alloc);
    list.push(Vec::from_slice(alloc, path)?)?;
    Ok(list)
}

// Answers a check of a file that begins as an image, or that cannot be read.
#[tactic(auto, using(crate::proofs::CheckLaws::file_answered, crate::proofs::CheckLaws::failed_file))]
fn answer_of_image<'n, D: World>(
    world: &mut D,
    asked: &'n Keyed<'_, '_>,
    path: &str,
    room: &mut Room<Global>,
    names: &'n mut Names,
) -> Option<Answer<'n>>
    ensures image { IfSome result (λ answer. AnswersFile (D.map world.old) asked.now path.now answer
        × ((answer_status answer ≡ 3) ⊎ Begins (D.map world.old) path.now true)
        × LooksAt path.now (D.trace world.old) (D.trace world.new)) }
    ensures other { result ≡ None → Begins (D.map world.old) path.now false
        × (D.trace world.new ≡ Deed.Opens path.now true ∷ D.trace world.old) }
    ensures same { SameFiles (D.map world.old) (D.map world.new) }
    ensures changes { changes (D.trace world.new) ≡ changes (D.trace world.old) }
{
    let Ok(mut source) = world.open(path) else {
        return Some(answer_of_unread(world, path, names));
    };
    match begins_as_image(&mut source) {
        Ok(true) => Some(answer_of_source(world.alloc(), &asked.terms, &mut source, room, names)),
        Ok(false) => None,
        Err(fault) => Some(answer_of_line(&fault, false, names)),
    }
}

#[tactic(auto, unfolding(crate::specs::Below::begins_as_image, uimg_texts::specs::Numbers::be32))]
fn begins_as_image<S: Source>(source: &mut S) -> Result<bool, SourceFault>
    ensures same { SameDevice (S.device source.old) (S.device source.new) }
    ensures told { IsTrue (S.device source.old).honest →
        IfOk result (λ begins. begins ≡ begins_as_image (S.device source.old).bytes) }
{
    if source.size()? < 4 {
        return Ok(false);
    }
    let mut bytes = [0; 4];
    source.fill_at(0, &mut bytes)?;
    let magic = be32_at(&bytes, 0);
    Ok(magic == BLOB_MAGIC || magic == LEGACY_MAGIC)
}

// Writes how many files below a folder were skipped, if any were. A reader of JSON, or of what is wrong,
// gets no line.
fn put_skipped<'b, W: Write>(
    asked: &Keyed<'_, 'b>,
    path: &[u8],
    count: u64,
    out: &mut W,
) -> Result<(), RequestFault<'b>>
    ensures put { OnOk result (Appends (W.contents out.old) (W.contents out.new)
        (skipped_text asked.now path.now count)) }
    ensures fails { IfErr result (λ fault. request_status fault ≡ 3) }
{
    if asked.request.as_json || asked.request.is_quiet {
        return Ok(());
    }
    put_skipped_line(path, count, out)
}

#[tactic(auto, unfolding(crate::specs::Below::skipped_line))]
fn put_skipped_line<'b, W: Write>(
    path: &[u8],
    count: u64,
    out: &mut W,
) -> Result<(), RequestFault<'b>>
    ensures put { OnOk result (Appends (W.contents out.old) (W.contents out.new)
        (skipped_line path.now count)) }
    ensures fails { IfErr result (λ fault. request_status fault ≡ 3) }
{
    if count == 0 {
        return Ok(());
    }
    let files = Counted {
        count,
        one: "file",
        many: "files",
    };
    if let Err(error) = writeln!(out, "{}: skipped {files}", Printed(path)) {
        return Err(unprinted(error));
    }
    flush(out)
}
