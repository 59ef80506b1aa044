//! The key of a PEM text.

ghost use Rattle.std.specs.Prelude.{◌≡◌, ◌≤◌, IfOk, None, length};
ghost use Rattle.std.specs.String.{string_bytes};
ghost use Rattle.uimg_keys.specs.Pem.{IsPem, begin_of, der_of, end_of, flat, pem_of};

use crate::der::{rsa_public_key, subject_public_key_info};
use crate::key::{KeyFault, PublicKey};
use base64::DecodeAllocError;
use base64::engine::general_purpose::STANDARD;
use std::alloc::{AllocError, Global};

/// The longest modulus of a key that U-Boot takes, in octets.
const LONGEST: usize = 512;

/// What the text has.
#[derive(Clone, Copy)]
pub(crate) enum Form {
    /// A SubjectPublicKeyInfo, as `openssl rsa -pubout` writes it.
    Any,

    /// An RSAPublicKey.
    Rsa,
}

impl Form {
    fn begin(self) -> &'static str
        ensures { result.now ≡ begin_of self }
    {
        match self {
            Form::Any => "-----BEGIN PUBLIC KEY-----",
            Form::Rsa => "-----BEGIN RSA PUBLIC KEY-----",
        }
    }

    fn end(self) -> &'static str
        ensures { result.now ≡ end_of self }
    {
        match self {
            Form::Any => "-----END PUBLIC KEY-----",
            Form::Rsa => "-----END RSA PUBLIC KEY-----",
        }
    }

    // The offset of the modulus in the DER of a key of at least 256 octets.
    fn modulus(self) -> usize
        ensures { (9 ≤ result) × (result ≤ 33) }
    {
        match self {
            Form::Any => 33,
            Form::Rsa => 9,
        }
    }
}

fn flat(alloc: Global, text: &[u8]) -> Result<Vec<u8>, AllocError>
    ensures { IfOk result (λ all. all.items ≡ flat text.now) }
{
    let mut all = Vec::from_slice(alloc, text)?;
    all.retain(|byte| !(*byte == b'\n' || *byte == b'\r'));
    Ok(all)
}

fn der_of(alloc: Global, form: Form, key: &PublicKey) -> Result<Vec<u8>, AllocError>
    requires { length key.now.modulus.items ≤ 512 }
    ensures { IfOk result (λ der. der.items ≡ der_of form key.now.modulus.items key.now.exponent) }
{
    match form {
        Form::Any => subject_public_key_info(alloc, key.modulus.as_slice(), key.exponent),
        Form::Rsa => rsa_public_key(alloc, key.modulus.as_slice(), key.exponent),
    }
}

fn pem_of(alloc: Global, form: Form, key: &PublicKey) -> Result<String, AllocError>
    requires { length key.now.modulus.items ≤ 512 }
    ensures { IfOk result (λ text.
        string_bytes text ≡ pem_of form key.now.modulus.items key.now.exponent) }
{
    let der = der_of(alloc, form, key)?;
    let mut text = String::new(alloc);
    text.push_str(form.begin())?;
    STANDARD.encode_string(der.as_slice(), &mut text)?;
    text.push_str(form.end())?;
    Ok(text)
}

// Returns the number of octets, of the last eight if there are more.
fn number(octets: &[u8]) -> u64 {
    let mut number: u64 = 0;
    for octet in octets {
        number = number.wrapping_mul(256).wrapping_add(*octet as u64);
    }
    number
}

// Takes the modulus and the exponent from where they are in DER.
fn key_at(alloc: Global, der: &[u8], start: usize) -> Result<PublicKey, KeyFault>
    requires { (9 ≤ start) × (start ≤ 33) }
    ensures short { IfOk result (λ key. length key.modulus.items ≤ 512) }
    ensures any { IfOk result (λ key. key.algo ≡ None) }
{
    let Some(before) = der.get(start - 3..start - 1) else {
        return Err(KeyFault::NotKey);
    };
    let length = (number(before) as usize).saturating_sub(1);
    if length > LONGEST {
        return Err(KeyFault::NotKey);
    }
    let (Some(modulus), Some(exponent)) = (
        der.get(start..start + length),
        der.get(start + length + 2..),
    ) else {
        return Err(KeyFault::NotKey);
    };
    Ok(PublicKey {
        modulus: Vec::from_slice(alloc, modulus)?,
        exponent: number(exponent),
        algo: None,
        name: Vec::new(alloc),
    })
}

// The key of a joined text, if it is the text of a key.
fn key_in(alloc: Global, text: &[u8], form: Form) -> Result<PublicKey, KeyFault>
    ensures short { IfOk result (λ key. length key.modulus.items ≤ 512) }
    ensures any { IfOk result (λ key. key.algo ≡ None) }
{
    let begin = form.begin().len();
    let end = text.len().saturating_sub(form.end().len());
    let Some(body) = text.get(begin..end) else {
        return Err(KeyFault::NotKey);
    };
    match STANDARD.decode(alloc, body) {
        Ok(der) => key_at(alloc, der.as_slice(), form.modulus()),
        Err(DecodeAllocError::OutOfMemory) => Err(KeyFault::OutOfMemory),
        Err(_) => Err(KeyFault::NotKey),
    }
}

/// Returns the key of a PEM text (RFC 7468): a SubjectPublicKeyInfo (`BEGIN PUBLIC KEY`), or an
/// RSAPublicKey (`BEGIN RSA PUBLIC KEY`). Where its lines end does not count. The key is the one
/// whose text this is to the byte, so nothing goes before or after it.
///
/// - `NotKey`: it is no such text, or the modulus has more than 4096 bits or fewer than 2041.
/// - `OutOfMemory`: memory was refused.
pub fn key_of_pem(alloc: Global, text: &[u8]) -> Result<PublicKey, KeyFault>
    ensures pem { IfOk result (λ key. IsPem text.now key.modulus.items key.exponent) }
    ensures any { IfOk result (λ key. key.algo ≡ None) }
{
    let text = flat(alloc, text)?;
    let form = if text.as_slice().starts_with(Form::Rsa.begin().as_bytes()) {
        Form::Rsa
    } else {
        Form::Any
    };
    let key = key_in(alloc, text.as_slice(), form)?;
    let wanted = pem_of(alloc, form, &key)?;
    if text.as_slice() == wanted.as_bytes() {
        Ok(key)
    } else {
        Err(KeyFault::NotKey)
    }
}
