//! The names that were requested of files. Only clauses read them; they take no memory and no time.

ghost use Rattle.std.specs.Prelude.{◌≡◌, ℕ, List, [], ◌∷◌};
ghost use Rattle.std.specs.Borrow.{ftrue};

use std::marker::{Model, PhantomData};

/// The names that were requested of files, the newest first. Only clauses read them.
#[derive(Drop)]
pub struct OpenedNames {
    marker: PhantomData<u8>,
    pub ghost names: { List (List ℕ) },
}

impl Model for OpenedNames {
    ghost also_owns = { λ _. ftrue };
}

impl OpenedNames {
    /// Returns an empty list.
    pub fn new() -> OpenedNames
        ensures { result.names ≡ [] }
    {
        OpenedNames {
            marker: PhantomData,
        }
    }

    /// Notes that a name was requested.
    pub fn note(&mut self, _name: &[u8])
        ensures { self.new.names ≡ _name.now ∷ self.old.names }
    {}
}
