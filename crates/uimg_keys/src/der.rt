//! A public key in DER (X.690, section 10).

ghost use Rattle.std.specs.Prelude.{◌≡◌, ◌++◌, ◌+◌, ◌<◌, ◌≤◌, OnOk, IfOk, length};
ghost use Rattle.uimg_keys.specs.Der.{element, integer, length_octets, rsa_public_key, significant, subject_public_key_info};

use std::alloc::{AllocError, Global};

/// The tag of a SEQUENCE.
const SEQUENCE: u8 = 0x30;

/// The tag of a BIT STRING.
const BIT_STRING: u8 = 3;

/// The tag of an INTEGER.
const INTEGER: u8 = 2;

/// `rsaEncryption`, with its parameters NULL (RFC 8017, appendix A.1).
const RSA_ENCRYPTION: [u8; 15] = [
    0x30, 0x0d, 0x06, 0x09, 0x2a, 0x86, 0x48, 0x86, 0xf7, 0x0d, 0x01, 0x01, 0x01, 0x05, 0x00,
];

fn put_length(size: usize, out: &mut Vec<u8>) -> Result<(), AllocError>
    requires { size < 65536 }
    ensures put { OnOk result (out.new.items ≡ out.old.items ++ length_octets size) }
    ensures short { OnOk result (length out.new.items ≤ length out.old.items + 3) }
{
    if size < 128 {
        out.extend_from_slice(&[size as u8])
    } else if size < 256 {
        out.extend_from_slice(&[0x81, size as u8])
    } else {
        out.extend_from_slice(&[0x82, (size / 256) as u8, (size % 256) as u8])
    }
}

fn put_element(tag: u8, content: &[u8], out: &mut Vec<u8>) -> Result<(), AllocError>
    requires { length content.now < 65536 }
    ensures put { OnOk result (out.new.items ≡ out.old.items ++ element tag content.now) }
    ensures short { OnOk result (length out.new.items ≤ length out.old.items + 4 + length content.now) }
{
    out.extend_from_slice(&[tag])?;
    put_length(content.len(), out)?;
    out.extend_from_slice(content)?;
    Ok(())
}

fn put_integer(alloc: Global, octets: &[u8], out: &mut Vec<u8>) -> Result<(), AllocError>
    requires { length octets.now < 65535 }
    ensures put { OnOk result (out.new.items ≡ out.old.items ++ integer octets.now) }
    ensures short { OnOk result (length out.new.items ≤ length out.old.items + 5 + length octets.now) }
{
    let mut content = Vec::new(alloc);
    if octets.first().copied().unwrap_or(0) > 127 {
        content.extend_from_slice(&[0])?;
    }
    content.extend_from_slice(octets)?;
    put_element(INTEGER, content.as_slice(), out)
}

fn significant(octets: &[u8]) -> &[u8]
    ensures rest { result.now ≡ significant octets.now }
    ensures short { length result.now ≤ length octets.now }
{
    match octets {
        [0, rest @ ..] => significant(rest),
        _ => octets,
    }
}

/// Returns the RSAPublicKey of a key (RFC 8017, appendix A.1.1).
pub(crate) fn rsa_public_key(
    alloc: Global,
    modulus: &[u8],
    exponent: u64,
) -> Result<Vec<u8>, AllocError>
    requires { length modulus.now ≤ 512 }
    ensures der { IfOk result (λ der. der.items ≡ rsa_public_key modulus.now exponent) }
    ensures short { IfOk result (λ der. length der.items ≤ 1000) }
{
    let mut numbers = Vec::new(alloc);
    put_integer(alloc, modulus, &mut numbers)?;
    put_integer(alloc, significant(&exponent.to_be_bytes()), &mut numbers)?;
    let mut der = Vec::new(alloc);
    put_element(SEQUENCE, numbers.as_slice(), &mut der)?;
    Ok(der)
}

/// Returns the SubjectPublicKeyInfo of a key (RFC 5280, section 4.1.2.7).
pub(crate) fn subject_public_key_info(
    alloc: Global,
    modulus: &[u8],
    exponent: u64,
) -> Result<Vec<u8>, AllocError>
    requires { length modulus.now ≤ 512 }
    ensures { IfOk result (λ der. der.items ≡ subject_public_key_info modulus.now exponent) }
{
    let key = rsa_public_key(alloc, modulus, exponent)?;
    let mut bits = Vec::new(alloc);
    bits.extend_from_slice(&[0])?;
    bits.extend_from_slice(key.as_slice())?;
    let mut content = Vec::new(alloc);
    content.extend_from_slice(&RSA_ENCRYPTION)?;
    put_element(BIT_STRING, bits.as_slice(), &mut content)?;
    let mut der = Vec::new(alloc);
    put_element(SEQUENCE, content.as_slice(), &mut der)?;
    Ok(der)
}
