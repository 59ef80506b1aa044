//! Spelling of names that need not be UTF-8.

ghost use Rattle.std.specs.{Prelude.{◌≡◌, Some, None, IfOk, option_map}, Str.IsUtf8};
ghost use Rattle.std.specs.{Str.Lossy.utf8_lossy, String.string_bytes};
ghost use Rattle.base64.specs.{Engines.standard, GeneralPurpose.encode_of};

use base64::engine::general_purpose::STANDARD;
use std::alloc::{AllocError, Global};

/// A spelled name.
#[derive(Drop)]
pub struct Spelling {
    /// The name, with U+FFFD in place of bytes that are not UTF-8.
    pub text: String,

    /// The bytes in base64 (RFC 4648, section 4), if the name is not UTF-8.
    pub base64: Option<String>,
}

/// Spells a name. A UTF-8 name is only its own text. Returns `AllocError` if memory was refused.
pub fn spell(alloc: Global, name: &[u8]) -> Result<Spelling, AllocError>
    ensures text { IfOk result (λ s. string_bytes s.text ≡ utf8_lossy name.now) }
    ensures same { IfOk result (λ s. IsUtf8 name.now →
        (string_bytes s.text ≡ name.now) × (s.base64 ≡ None)) }
    ensures bytes { IfOk result (λ s. ¬ (IsUtf8 name.now) →
        option_map string_bytes s.base64 ≡ Some (encode_of standard name.now)) }
{
    let base64 = match str::from_utf8(name) {
        Ok(_) => None,
        Err(_) => Some(STANDARD.encode(alloc, name)?),
    };
    let text = String::from_utf8_lossy(alloc, name)?;
    Ok(Spelling { text, base64 })
}
