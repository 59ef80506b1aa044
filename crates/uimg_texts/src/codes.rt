//! The codes and printed names of the profile, a function for each field.

ghost use Rattle.std.specs.Prelude.{◌≡◌};
ghost use Rattle.uimg_texts.specs.Naming.{code_named, code_text};
ghost use Rattle.uimg_texts.specs.declared.naming.Naming.TheVariants.{Profile};
ghost use Rattle.uimg_texts.specs.declared.field.Field.TheVariants.{Architecture, System, Kind, Compression};

use crate::field::Field;
use crate::naming::Naming;

/// Looks up an architecture's code by its short name in the profile. Returns `None` if it has no such name.
pub fn arch_code(name: &[u8]) -> Option<u8>
    ensures { result ≡ code_named Profile Architecture name.now }
{
    Naming::Profile.code_named(Field::Architecture, name)
}

/// Looks up an architecture's printed name in the profile by its code. Returns `Unknown Architecture` if it has none.
pub fn arch_text(code: u8) -> &'static str
    ensures { result.now ≡ code_text Profile Architecture code }
{
    Naming::Profile.code_text(Field::Architecture, code)
}

/// Looks up an operating system's code by its short name in the profile. Returns `None` if it has no such name.
pub fn os_code(name: &[u8]) -> Option<u8>
    ensures { result ≡ code_named Profile System name.now }
{
    Naming::Profile.code_named(Field::System, name)
}

/// Looks up an operating system's printed name in the profile by its code. Returns `Unknown OS` if it has none.
pub fn os_text(code: u8) -> &'static str
    ensures { result.now ≡ code_text Profile System code }
{
    Naming::Profile.code_text(Field::System, code)
}

/// Looks up an image type's code by its short name in the profile. Returns `None` if it has no such name.
pub fn kind_code(name: &[u8]) -> Option<u8>
    ensures { result ≡ code_named Profile Kind name.now }
{
    Naming::Profile.code_named(Field::Kind, name)
}

/// Looks up an image type's printed name in the profile by its code. Returns `Unknown Image` if it has none.
pub fn kind_text(code: u8) -> &'static str
    ensures { result.now ≡ code_text Profile Kind code }
{
    Naming::Profile.code_text(Field::Kind, code)
}

/// Looks up a compression's code by its short name in the profile. Returns `None` if it has no such name.
pub fn comp_code(name: &[u8]) -> Option<u8>
    ensures { result ≡ code_named Profile Compression name.now }
{
    Naming::Profile.code_named(Field::Compression, name)
}

/// Looks up a compression's printed name in the profile by its code. Returns `Unknown Compression` if it has none.
pub fn comp_text(code: u8) -> &'static str
    ensures { result.now ≡ code_text Profile Compression code }
{
    Naming::Profile.code_text(Field::Compression, code)
}
