//! Gives the files of payloads their names, and then prints their lines.

ghost use Rattle.std.specs.Prelude.{◌≡◌, ◌&&◌, ◌||◌, ℕ, List, Bool, OnOk, is_none, is_ok, false, true};
ghost use Rattle.uimg_unpacking.specs.Contents.{differ, held_in};
ghost use Rattle.uimg_unpacking.specs.Leaving.{Leaves, are_undone};
ghost use Rattle.uimg_unpacking.specs.Staged.{LeavesOthers, complete_names, names_of, staged, uses_names};
ghost use Rattle.uimg_unpacking.specs.Telling.{TellsIf, is_named, naming_trouble};
ghost use Rattle.uimg_unpacking.specs.Troubles.{trouble_in};

use crate::staging::Staging;
use crate::task::Task;
use crate::trouble::{Trouble, printed};
use std::io::Write;
use uimg_world::World;

/// Returns whether files get their names: after a trouble only good ones that are kept.
pub(crate) fn may_name(names: bool, keeps_good: bool, trouble: &Option<Trouble>) -> bool
    ensures { result ≡ (names && (keeps_good || is_none trouble.now)) }
{
    names && (keeps_good || trouble.is_none())
}

/// Gives the files their names, if `names`. If good ones are kept, removes what refused ones were to
/// replace. Returns the trouble that no file has its name, or that old files are left.
pub(crate) fn name<W: World, M: Task>(
    staging: &mut Staging<'_, '_, '_, W, M>,
    names: bool,
    keeps_good: bool,
) -> Result<Result<(), Trouble>, Trouble>
    requires { staging.old.is_naming ≡ false }
    ensures folder { staging.new.folder ≡ staging.old.folder }
    ensures naming { staging.new.is_naming ≡ names }
    ensures holds { names ≡ true → is_named result ≡ true → (used : List ℕ → Bool) →
        uses_names used (names_of staging.old.files.items) (names_of staging.old.outdated.items) ≡ true →
        held_in staging.old.folder.path.now (W.trace staging.new.world.now)
        (complete_names staging.old.files.items staging.old.is_writing)
        ≡ staged (W.trace staging.old.world.now) staging.old.files.items staging.old.is_writing }
    ensures unnamed { names ≡ false →
        W.trace staging.new.world.now ≡ W.trace staging.old.world.now }
    ensures others { keeps_good ≡ false → is_named result ≡ true →
        LeavesOthers staging.old.folder.path.now (complete_names staging.old.files.items
        staging.old.is_writing) (W.trace staging.old.world.now) (W.trace staging.new.world.now) }
    ensures back { keeps_good ≡ false → are_undone (naming_trouble result) ≡ true →
        differ (complete_names staging.old.files.items staging.old.is_writing) ≡ true →
        Leaves staging.old.folder.path.now
        (W.trace staging.old.world.now) (W.trace staging.new.world.now) }
{
    if !names {
        return Ok(Ok(()));
    }
    if let Err(trouble) = staging.name_all() {
        return Err(trouble);
    }
    if !keeps_good {
        return Ok(Ok(()));
    }
    Ok(staging.remove_outdated())
}

/// Prints the lines of files that have their names, or of refused ones.
pub(crate) fn tell<O: Write>(
    named: Result<Result<(), Trouble>, Trouble>,
    out: &mut O,
    lines: &[u8],
    is_told: bool,
) -> Result<(), Trouble>
    ensures told { OnOk result (TellsIf is_told (O.contents out.old) (O.contents out.new) lines.now) }
    ensures named { OnOk result (is_named named ≡ true) }
    ensures undone { are_undone (trouble_in result) ≡ true →
        naming_trouble named ≡ trouble_in result }
    ensures untold { is_ok named && is_told ≡ false → out.new ≡ out.old }
{
    let removed = named?;
    if is_told {
        printed(out.write_all(lines))?;
        printed(out.flush())?;
    }
    removed
}
