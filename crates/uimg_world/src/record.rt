//! A list of deeds that only clauses read: it takes no memory, and noting one takes no time.

ghost use Rattle.std.specs.Prelude.{◌≡◌, List, [], ◌∷◌};
ghost use Rattle.std.specs.Borrow.{ftrue};
ghost use Rattle.uimg_world.specs.Deeds.{Deed, deed_of};

use crate::call::Call;
use std::marker::{Model, PhantomData};

/// The deeds that were noted, the newest first.
#[derive(Drop)]
pub(crate) struct Record {
    marker: PhantomData<u8>,
    pub(crate) ghost deeds: { List Deed },
}

impl Model for Record {
    ghost also_owns = { λ _. ftrue };
}

impl Record {
    pub(crate) fn new() -> Record
        ensures { result.deeds ≡ [] }
    {
        Record {
            marker: PhantomData,
        }
    }

    /// `_other` is its second path, if it has two.
    pub(crate) fn note(&mut self, _call: &Call, _path: &[u8], _other: &[u8])
        ensures { self.new.deeds ≡ deed_of _call.now _path.now _other.now ∷ self.old.deeds }
    {}
}
