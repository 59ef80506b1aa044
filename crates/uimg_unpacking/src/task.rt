//! An unpacking, for contracts alone.

use std::marker::Brand;

/// An unpacking, for contracts alone.
pub(crate) trait Task {
    ghost use Rattle.std.specs.Prelude.{ℕ, List};
    ghost use Rattle.uimg_unpacking.specs.declared.limits.Limits.{Limits};
    ghost use Rattle.uimg_unpacking.specs.Places.{Terms};
    ghost use Rattle.uimg_world.specs.Deeds.{Deed};

    /// The reference to its world.
    ghost name: { ℕ };

    /// The calls that were made before it.
    ghost before: { List Deed };

    /// How it writes files to its folder.
    ghost terms: { Terms };

    /// The greatest numbers of files and bytes.
    ghost limits: { Limits };
}

impl Task for Brand {
    ghost use Rattle.std.specs.Prelude.{[], None, false};

    ghost name = { 0 };

    ghost before = { [] };

    ghost terms = { ([], false, false) };

    ghost limits = { record { files = 0; bytes = None } };
}
