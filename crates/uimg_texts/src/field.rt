//! The fields of an image whose codes have names.

ghost use Rattle.std.specs.Prelude.{◌≡◌, map};
ghost use Rattle.uimg_texts.specs.{Names.row_of, Naming.{unknown, rows}};

use crate::all_names::{ARCHITECTURES, COMPRESSIONS, SYSTEMS, TYPES};

/// A row of a table of codes: a name as in command lines and FIT properties, its code in a legacy
/// header, the name as in listings, and whether the profile has it.
pub type CodeRow = (&'static str, u8, &'static str, bool);

/// A field of an image whose codes have names.
#[derive(Clone, Copy, Debug, PartialEq, Eq)]
pub enum Field {
    /// The architecture.
    Architecture,

    /// The operating system.
    System,

    /// The type of the image.
    Kind,

    /// The compression of the data.
    Compression,
}

impl Field {
    /// Returns all names of the field in image.h of U-Boot 2023.01, sorted by short name. `ppc`,
    /// another name of `powerpc`, is the last architecture.
    pub fn rows(self) -> &'static [CodeRow]
        ensures { map row_of result.now ≡ rows self }
    {
        match self {
            Field::Architecture => ARCHITECTURES.as_slice(),
            Field::System => SYSTEMS.as_slice(),
            Field::Kind => TYPES.as_slice(),
            Field::Compression => COMPRESSIONS.as_slice(),
        }
    }

    /// Returns the text printed for an unknown code or name, such as `Unknown OS`.
    pub fn unknown(self) -> &'static str
        ensures { result.now ≡ unknown self }
    {
        match self {
            Field::Architecture => "Unknown Architecture",
            Field::System => "Unknown OS",
            Field::Kind => "Unknown Image",
            Field::Compression => "Unknown Compression",
        }
    }
}
