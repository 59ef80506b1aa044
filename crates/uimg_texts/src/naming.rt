//! The two sets of names.

ghost use Rattle.std.specs.{Prelude.{◌≡◌}, Str.{str_eq_ignore_ascii_case}};
ghost use Rattle.uimg_texts.specs.{Names.row_of, Naming.{code_text, code_named, name_text}};
ghost use Rattle.uimg_texts.specs.Naming.{is_named};

use crate::field::{CodeRow, Field};

/// A set of names.
#[derive(Clone, Copy, Debug, PartialEq, Eq)]
pub enum Naming {
    /// The names of the profile; case matters.
    Profile,

    /// All names of image.h of U-Boot 2023.01, whose case does not matter, and of its algorithms.
    All,
}

impl Naming {
    /// Returns the printed name of a code, or `Unknown OS` and the like if it has none.
    #[tactic(auto, unfolding(crate::specs::Naming::code_text))]
    pub fn code_text(self, field: Field, code: u8) -> &'static str
        ensures { result.now ≡ code_text self field code }
    {
        let rows = field.rows();
        for (_, known, printed, is_profile) in rows {
            if (self == Naming::All || *is_profile) && code == *known {
                return printed;
            }
        }
        field.unknown()
    }

    /// Returns the code of a name, or `None` if no code has it.
    pub fn code_named(self, field: Field, name: &[u8]) -> Option<u8>
        ensures { result ≡ code_named self field name.now }
    {
        let rows = field.rows();
        for row in rows {
            if self.is_named(row, name) {
                return Some(row.1);
            }
        }
        None
    }

    fn is_named(self, row: &CodeRow, name: &[u8]) -> bool
        ensures { result ≡ is_named self name.now (row_of row.now) }
    {
        match self {
            Naming::Profile => row.3 && name == row.0.as_bytes(),
            Naming::All => row.0.as_bytes().eq_ignore_ascii_case(name),
        }
    }

    /// Returns the printed name of a name's code, or `Unknown OS` and the like if it has none.
    #[tactic(auto, unfolding(crate::specs::Naming::name_text))]
    pub fn name_text(self, field: Field, name: &[u8]) -> &'static str
        ensures { result.now ≡ name_text self field name.now }
    {
        match self.code_named(field, name) {
            Some(code) => self.code_text(field, code),
            None => field.unknown(),
        }
    }
}
