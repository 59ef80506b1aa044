//! Members of JSON objects. Each call appends just these members, unless memory was refused.

ghost use Rattle.std.specs.Prelude.{◌++◌, [], ◌∷◌};
ghost use Rattle.json.specs.Token.{Token};
ghost use Rattle.uimg_printing.specs.Members.{of_bytes, tokens_of, string_member, number_member, number_if, text_members};
ghost use Rattle.uimg_printing.specs.Steps.{Appends};

use crate::spelling::spell;
use json::Writer;
use std::alloc::{AllocError, Global};

/// Writes a key: a name with a suffix.
pub fn put_key(alloc: Global, writer: &mut Writer, name: &str, end: &str) -> Result<(), AllocError>
    ensures { Appends result writer.old writer.new (Token.key (name.now ++ end.now) ∷ []) }
{
    let mut key = String::from_str(alloc, name)?;
    key.push_str(end)?;
    writer.key(key.as_str())?;
    Ok(())
}

/// Writes a string.
pub fn put_string(writer: &mut Writer, name: &str, text: &str) -> Result<(), AllocError>
    ensures { Appends result writer.old writer.new (tokens_of (string_member name.now text.now)) }
{
    writer.key(name)?;
    writer.string(text)?;
    Ok(())
}

/// Writes a number.
pub fn put_number(writer: &mut Writer, name: &str, number: u64) -> Result<(), AllocError>
    ensures { Appends result writer.old writer.new (tokens_of (number_member name.now number)) }
{
    writer.key(name)?;
    writer.u64(number)?;
    Ok(())
}

/// Writes a number that may be missing.
pub fn put_number_if(writer: &mut Writer, name: &str, number: Option<u64>) -> Result<(), AllocError>
    ensures { Appends result writer.old writer.new (tokens_of (number_if name.now number)) }
{
    match number {
        Some(number) => put_number(writer, name, number),
        None => Ok(()),
    }
}

// Writes the bytes of a text that is not UTF-8, in base64.
fn put_base64(
    alloc: Global,
    writer: &mut Writer,
    name: &str,
    base64: &str,
) -> Result<(), AllocError>
    ensures { Appends result writer.old writer.new
        (tokens_of (string_member (of_bytes name.now) base64.now)) }
{
    put_key(alloc, writer, name, "_base64")?;
    writer.string(base64)?;
    Ok(())
}

/// Writes a text and, if it is not UTF-8, its bytes in another member.
pub fn put_text(
    alloc: Global,
    writer: &mut Writer,
    name: &str,
    text: &[u8],
) -> Result<(), AllocError>
    ensures { Appends result writer.old writer.new (tokens_of (text_members name.now text.now)) }
{
    let spelled = spell(alloc, text)?;
    put_string(writer, name, spelled.text.as_str())?;
    match &spelled.base64 {
        Some(base64) => {
            put_base64(alloc, writer, name, base64.as_str())?;
            Ok(())
        }
        None => Ok(()),
    }
}
