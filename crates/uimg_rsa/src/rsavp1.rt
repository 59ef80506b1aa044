//! RSAVP1, the signature verification primitive.

ghost use Rattle.std.specs.Prelude.{◌≡◌, ◌%◌, ◌≤◌, length, slice_index};
ghost use Rattle.uimg_rsa.specs.{Rsavp1.rsavp1, Opening.first_octets};

use crate::limbs::is_less;
use crate::octets::{number_of, put_octets};
use crate::reducing::power;
use crate::refusal::Refusal;

// Returns the octets of the power of the signature representative, at the start of the array.
#[tactic(auto, unfolding(crate::specs::Rsavp1::rsavp1))]
pub(crate) fn rsavp1(modulus: &[u8], exponent: u64, signature: &[u8]) -> Result<[u8; 512], Refusal>
    requires size { (length modulus.now % 8 ≡ 0) × (256 ≤ length modulus.now) × (length modulus.now ≤ 512) }
    requires full { 128 ≤ slice_index modulus.now 0 }
    requires as_long { length signature.now ≡ length modulus.now }
    ensures { first_octets (length modulus.now) result ≡ rsavp1 modulus.now exponent signature.now }
{
    let len = modulus.len() / 8;
    let modulus_number = number_of(modulus, len);
    let signature_number = number_of(signature, len);
    if !is_less(&signature_number, &modulus_number, len) {
        return Err(Refusal::OutOfRange);
    }
    let power = power(&signature_number, exponent, &modulus_number, len);
    let mut octets = [0; 512];
    put_octets(&power, len, &mut octets[..8 * len]);
    Ok(octets)
}
