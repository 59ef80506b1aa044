//! The names that -A, -O, -T and -C take.

ghost use Rattle.std.specs.Prelude.{◌≡◌, Result, Err};
ghost use Rattle.uimg_compat.specs.Names.{form_asked, is_made, letter_of, name_asked};
ghost use Rattle.uimg_compat.specs.Names.{title_of};
ghost use Rattle.uimg_compat.specs.Wrong.{IsWrong, Tells, Wrong, unknown_name, wrong_of};
ghost use Rattle.uimg_compat.specs.declared.names.Named.{Named};

use crate::fault::OldFault;
use crate::nearest::meant;
use std::alloc::Global;
use uimg_base::FLAT_DT;
use uimg_printing::Printed;
use uimg_requests::Form;
use uimg_texts::{Field, Naming};

/// The type of a kernel that runs in place (`IH_TYPE_KERNEL_NOLOAD`).
const KERNEL_NOLOAD: u8 = 14;

/// The type of firmware for HABv4: a legacy image and more.
const FIRMWARE_IVT: u8 = 32;

/// The types that do not decide a format; with them mkimage lists an image of any: gpimage,
/// x86_setup, fpga, tee, pmmc and copro.
const ANY_FORMAT: [u8; 6] = [17, 20, 29, 31, 33, 39];

pub(crate) fn letter_of(field: Field) -> char
    ensures { result ≡ letter_of field }
{
    match field {
        Field::Architecture => 'A',
        Field::System => 'O',
        Field::Kind => 'T',
        Field::Compression => 'C',
    }
}

/// Returns the name of a field.
pub fn title_of(field: Field) -> &'static str
    ensures { result.now ≡ title_of field }
{
    match field {
        Field::Architecture => "architecture",
        Field::System => "operating system",
        Field::Kind => "image type",
        Field::Compression => "compression",
    }
}

/// The meaning of a name.
#[derive(Clone, Copy)]
pub(crate) enum Named {
    /// A code of the header.
    Code(u8),

    /// The list of the names.
    List,
}

/// Returns the code of a name, in any case, or the list.
pub(crate) fn name_of<'a>(alloc: Global, field: Field, word: &'a str) -> Result<Named, OldFault<'a>>
    ensures { Tells (λ named. named) (name_asked field word.entry.now) result }
{
    if word == "list" {
        return Ok(Named::List);
    }
    match Naming::All.code_named(field, word.as_bytes()) {
        Some(code) => Ok(Named::Code(code)),
        None => Err(unknown_name(alloc, field, word)),
    }
}

fn unknown_name<'a>(alloc: Global, field: Field, word: &'a str) -> OldFault<'a>
    ensures { IsWrong {X = Named} (Err (unknown_name (letter_of field) word.entry.now))
        (wrong_of result) }
{
    let letter = letter_of(field);
    let title = title_of(field);
    let shown = Printed(word.as_bytes());
    match meant(alloc, field, word) {
        Ok(Some(nearest)) => OldFault::NearName {
            letter,
            title,
            word: shown,
            nearest,
        },
        Ok(None) => OldFault::UnknownName {
            letter,
            title,
            word: shown,
        },
        Err(_) => OldFault::OutOfMemory,
    }
}

/// The type `invalid` counts as none. A type of other images is refused.
pub(crate) fn format_of(kind: Option<u8>, name: &str) -> Result<Form, OldFault<'_>>
    ensures { Tells (λ form. form) (form_asked kind name.now) result }
{
    match kind {
        None => Ok(Form::Guess),
        Some(0) => Ok(Form::Guess),
        Some(FLAT_DT) => Ok(Form::Fit),
        Some(code) if is_made(code) => Ok(Form::Legacy),
        Some(FIRMWARE_IVT) => Ok(Form::Legacy),
        Some(code) if ANY_FORMAT.contains(&code) => Ok(Form::Guess),
        Some(_) => Err(OldFault::OtherImages(Printed(name.as_bytes()))),
    }
}

/// Returns whether images of a type are legacy or FIT images.
pub(crate) fn is_made(kind: u8) -> bool
    ensures { result ≡ is_made kind }
{
    kind <= FLAT_DT || kind == KERNEL_NOLOAD
}
