//! RSASSA-PSS (RFC 8017, sections 8.1.2 and 9.1.2).

ghost use Rattle.std.specs.Prelude.{◌≡◌, ◌≤◌, ◌↔◌, length, take, drop, is_ok, IsTrue, IfSome};
ghost use Rattle.std.specs.Option.{option_map};
ghost use Rattle.uimg_rsa.specs.Pss.{xor_octets, db_length, data_block, salt_of, is_hash, is_consistent, pss_verdict, VerifiesPss};

use crate::mgf1::{hash_of, mgf1};
use crate::opening::open;
use crate::refusal::Refusal;
use uimg_sums::Algo;

// Returns the exclusive or of the first `len` octets, at the start of the array.
fn xor_of(a: &[u8], b: &[u8], len: usize) -> [u8; 512]
    requires { (len ≤ 512) × (len ≤ length a.now) × (len ≤ length b.now) }
    ensures { take len result ≡ xor_octets (take len a.now) (take len b.now) }
{
    let mut octets = [0; 512];
    for i in 0..len {
        octets[i] = a[i] ^ b[i];
    }
    octets
}

// Returns the data block of an encoded message, at the start of the array.
fn data_block(algo: Algo, em: &[u8]) -> [u8; 512]
    requires { (256 ≤ length em.now) × (length em.now ≤ 512) }
    ensures { take (db_length algo em.now) result ≡ data_block algo em.now }
{
    let size = algo.len();
    let len = em.len() - size - 1;
    let mask = mgf1(algo, &em[len..len + size], len);
    let mut block = xor_of(em, &mask, len);
    block[0] %= 128;
    block
}

// Returns the offset of the salt in a data block.
fn salt_at(block: &[u8]) -> Option<usize>
    ensures salt { option_map (λ at. drop at block.now) result ≡ salt_of block.now }
    ensures within { IfSome result (λ at. at ≤ length block.now) }
{
    for at in 0..block.len() {
        if block[at] == 1 {
            return Some(at + 1);
        }
        if block[at] != 0 {
            return None;
        }
    }
    None
}

// Returns whether the block has a salt, and `hash` is the digest of the padded digest and the salt.
fn is_hash(algo: Algo, hash: &[u8], digest: &[u8], block: &[u8]) -> bool
    ensures { result ≡ is_hash algo hash.now digest.now (salt_of block.now) }
{
    match salt_at(block) {
        None => false,
        Some(at) => &hash_of(algo, &[0; 8], digest, &block[at..])[..algo.len()] == hash,
    }
}

// Returns whether an encoded message is consistent with a digest.
#[tactic(auto, unfolding(crate::specs::Pss::is_consistent))]
fn is_consistent(algo: Algo, digest: &[u8], em: &[u8]) -> bool
    requires { (256 ≤ length em.now) × (length em.now ≤ 512) }
    ensures { result ≡ is_consistent algo digest.now em.now }
{
    if em[em.len() - 1] != 0xBC {
        return false;
    }
    if em[0] >= 128 {
        return false;
    }
    let size = algo.len();
    let len = em.len() - size - 1;
    let block = data_block(algo, em);
    is_hash(algo, &em[len..len + size], digest, &block[..len])
}

/// Verifies the signature of a digest by RSASSA-PSS (RFC 8017, section 8.1.2), with MGF1 by the
/// same algorithm and a salt of any length, as U-Boot does.
///
/// `modulus` and `signature` are big-endian octet strings of the same length: 256, 384 or 512
/// octets. `exponent` is the public exponent. `digest` is the digest of the signed message by
/// `algo`: SHA-1, SHA-256, SHA-384 or SHA-512.
///
/// Returns `Ok` if and only if the signature is valid. Otherwise returns the first `Refusal`, in
/// their order, that applies.
#[tactic(auto, unfolding(crate::specs::Pss::pss_verdict))]
pub fn verify_pss(
    modulus: &[u8],
    exponent: u64,
    signature: &[u8],
    algo: Algo,
    digest: &[u8],
) -> Result<(), Refusal>
    ensures verdict { result ≡ pss_verdict modulus.now exponent signature.now algo digest.now }
    ensures valid { IsTrue (is_ok result)
        ↔ VerifiesPss modulus.now exponent signature.now algo digest.now }
{
    let em = open(modulus, exponent, signature, algo, digest)?;
    if !is_consistent(algo, digest, &em[..modulus.len()]) {
        return Err(Refusal::Mismatch);
    }
    Ok(())
}
