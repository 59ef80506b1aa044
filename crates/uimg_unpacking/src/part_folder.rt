//! Writes the parts of a legacy image to a folder: each as the payload of an image that has the name
//! of its file.

ghost use Rattle.std.specs.Prelude.{◌≡◌, ◌++◌, ◌∷◌, ◌&&◌, ◌==◌, ℕ, List, Some, [], IfOk, IsTrue, None, OnOk, bytes_eq, false, not, true};
ghost use Rattle.std.specs.Io.Buffered.{writer_contents};
ghost use Rattle.std.specs.Option.{ForSome, option_map_or};
ghost use Rattle.uimg_fit_checking.specs.Unpacking.{as_bytes};
ghost use Rattle.uimg_legacy.specs.Unpacking.{part_if};
ghost use Rattle.uimg_unpacking.specs.Contents.{held_in};
ghost use Rattle.uimg_unpacking.specs.FileNames.{image_name};
ghost use Rattle.uimg_unpacking.specs.Given.{newest};
ghost use Rattle.uimg_unpacking.specs.Leaving.{Leaves, are_undone};
ghost use Rattle.uimg_unpacking.specs.Objects.{parts_told};
ghost use Rattle.uimg_unpacking.specs.PartFilling.{held_parts, kept_parts, part_names};
ghost use Rattle.uimg_unpacking.specs.Places.{Obeys};
ghost use Rattle.uimg_unpacking.specs.Refusals.{last_name};
ghost use Rattle.uimg_unpacking.specs.Staged.{complete_names, staged};

use crate::folder_taker::FolderTaker;
use crate::lines::Line;
use crate::new_file::NewFile;
use crate::task::Task;
use crate::trouble::Trouble;
use std::alloc::Global;
use std::io::Write;
use uimg_base::PutFault;
use uimg_fit_checking::{NodeName, Taker};
use uimg_legacy::PartTaker;
use uimg_world::World;

/// A taker that writes parts to a folder. Their files may get their names at the end if all are
/// kept.
#[derive(Drop)]
pub(crate) struct PartFolder<'w, 'a, 'c, W: World, M: Task, O: Write + Drop> {
    pub(crate) taker: FolderTaker<'w, 'a, 'c, W, M, O>,
    // The number of each complete part, and its length in bytes.
    pub(crate) parts: Vec<(u32, u64)>,
    // The number of the part whose file was begun last.
    pub(crate) begun: Option<u32>,
    pub(crate) is_kept: bool,
    ghost names: { complete_names taker.staging.files.items taker.staging.is_writing ≡ part_names parts.items },
    ghost shelved: { ForSome begun (λ number. newest taker.begun.names ≡ image_name number) },
}

impl<'w, 'a, 'c, W: World, M: Task, O: Write + Drop> PartFolder<'w, 'a, 'c, W, M, O> {
    /// Gives the files their names and prints the lines, if `names`. Removes the other files. Returns
    /// the world, and the trouble, if it is known.
    pub(crate) fn end(self, names: bool) -> (&'w mut W, Option<Trouble>)
        ensures named { result.0.ghost_name ≡ M.name }
        ensures obeys { Obeys M.terms names M.before (W.trace result.0.now) }
        ensures holds { names ≡ true → result.1 ≡ None → held_in
            self.entry.taker.staging.folder.path.now (W.trace result.0.now)
            (part_names self.entry.parts.items)
            ≡ staged (W.trace self.entry.taker.staging.world.now)
            self.entry.taker.staging.files.items self.entry.taker.staging.is_writing }
        ensures unnamed { names ≡ false →
            Leaves self.entry.taker.staging.folder.path.now M.before (W.trace result.0.now) }
        ensures back { are_undone result.1 ≡ true →
            Leaves self.entry.taker.staging.folder.path.now M.before (W.trace result.0.now) }
    {
        let PartFolder {
            taker,
            parts: _parts,
            begun: _begun,
            is_kept: _is_kept,
        } = self;
        let (world, _out, _count, trouble) = taker.end(names, false);
        (world, trouble)
    }

    // Fails if another file was begun, or if the parts are kept.
    fn complete(&mut self, number: u32, file: NewFile<'c, W::File>) -> Result<(), Trouble>
        ensures folder { self.new.taker.staging.folder ≡ self.old.taker.staging.folder }
        ensures held { IsTrue W.knows → (bytes : List ℕ) →
            writer_contents W.File.contents file.entry.file ≡ Some bytes →
            OnOk result (⟦<PartFolder<'w, 'a, 'c, W, M, O> as PartTaker>⟧.held self.new
            ≡ ⟦<PartFolder<'w, 'a, 'c, W, M, O> as PartTaker>⟧.held self.old ++ part_if true number bytes) }
        ensures kept { ⟦<PartFolder<'w, 'a, 'c, W, M, O> as PartTaker>⟧.kept self.new
            ≡ ⟦<PartFolder<'w, 'a, 'c, W, M, O> as PartTaker>⟧.kept self.old }
    {
        let image = image_of(self.taker.alloc, number)?;
        if !self.is_next(number, &image) {
            return Err(Trouble::NoName);
        }
        let count = self.parts.len();
        self.parts.push((number, file.size))?;
        match self.taker.complete(&image, file) {
            Ok(_size) => Ok(()),
            Err(trouble) => {
                self.parts.truncate(count);
                Err(trouble)
            }
        }
    }

    // The file that was begun last is that of this part, and no part is kept.
    fn is_next(&self, number: u32, image: &NodeName) -> bool
        ensures { result ≡ (not self.now.is_kept
            && option_map_or (λ its. its == number) self.now.begun false
            && bytes_eq (last_name self.now.taker.staging.files.items) (as_bytes image.now)) }
    {
        let is_begun = match self.begun {
            Some(its) => its == number,
            None => false,
        };
        !self.is_kept && is_begun && self.taker.staging.last_name().as_bytes() == image.bytes()
    }
}

// Returns the name of the file of a part, as that of an image.
fn image_of(alloc: Global, number: u32) -> Result<NodeName, Trouble>
    ensures { IfOk result (λ image. as_bytes image ≡ image_name number) }
{
    let name = format!(in alloc; "image-{number}")?;
    match NodeName::of(name.as_bytes()) {
        Some(image) => Ok(image),
        None => Err(Trouble::NoName),
    }
}

// Adds the lines of parts of data with this checksum.
fn add_lines<W: World, M: Task, O: Write + Drop>(
    taker: &mut FolderTaker<'_, '_, '_, W, M, O>,
    dcrc: u32,
    parts: &[(u32, u64)],
) -> Result<(), Trouble>
    ensures staging { taker.new.staging ≡ taker.old.staging }
    ensures begun { taker.new.begun ≡ taker.old.begun }
    ensures told { OnOk result (taker.new.lines.items
        ≡ taker.old.lines.items ++ parts_told taker.old.json dcrc parts.now) }
{
    for part in parts {
        let (number, size) = *part;
        taker.add(&Line::Part { number, size, dcrc })?;
    }
    Ok(())
}

impl<'w, 'a, 'c, W: World, M: Task, O: Write + Drop> PartTaker for PartFolder<'w, 'a, 'c, W, M, O> {
    type Shelf = NewFile<'c, W::File>;

    ghost place = { λ t. t.taker.staging.folder.path.now };

    ghost honest = { W.knows };

    ghost held = { λ t. held_parts t.is_kept t.parts.items (staged
        (W.trace t.taker.staging.world.now) t.taker.staging.files.items
        t.taker.staging.is_writing) };

    ghost kept = { λ t. kept_parts t.is_kept t.parts.items (staged
        (W.trace t.taker.staging.world.now) t.taker.staging.files.items
        t.taker.staging.is_writing) };

    fn claim(&mut self, number: u32) -> Result<(), PutFault> {
        let named = image_of(self.taker.alloc, number);
        let image = self.taker.noted(named)?;
        self.taker.claim(&image, 0)
    }

    fn shelf(&mut self, number: u32) -> Result<NewFile<'c, W::File>, PutFault> {
        let named = image_of(self.taker.alloc, number);
        let image = self.taker.noted(named)?;
        self.begun = None;
        let shelf = self.taker.shelf(&image)?;
        self.begun = Some(number);
        Ok(shelf)
    }

    fn hold(&mut self, number: u32, shelf: NewFile<'c, W::File>) -> Result<(), PutFault> {
        let completed = self.complete(number, shelf);
        self.taker.noted(completed)
    }

    fn keep(&mut self, dcrc: u32) -> Result<(), PutFault> {
        let added = add_lines(&mut self.taker, dcrc, self.parts.as_slice());
        self.taker.noted(added)?;
        self.is_kept = true;
        Ok(())
    }

    fn refuse(&mut self) -> Result<(), PutFault> {
        Ok(())
    }
}
