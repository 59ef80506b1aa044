//! RSA signatures: those by OpenSSL are valid, and those with a fault are refused for it.

use crate::samples::rsa::*;
use uimg_rsa::{Refusal, verify_pkcs1, verify_pss};
use uimg_sums::Algo;

// What a signature is verified with. Octets are at the start of an array, with their number.
#[derive(Clone, Copy)]
struct Case {
    modulus: ([u8; 512], usize),
    exponent: u64,
    signature: ([u8; 512], usize),
    algo: Algo,
    digest: ([u8; 512], usize),
}

impl Case {
    fn of(modulus: &str, exponent: u64, algo: Algo, signature: &str) -> Case {
        Case {
            modulus: octets(modulus),
            exponent,
            signature: octets(signature),
            algo,
            digest: digest_by(algo),
        }
    }

    // A signature of the SHA-256 digest by the key of 2048 bits.
    fn of_2048(signature: &str) -> Case {
        Case::of(MODULUS_2048, 65537, Algo::Sha256, signature)
    }

    fn pkcs1(&self) -> Result<(), Refusal> {
        verify_pkcs1(
            &self.modulus.0[..self.modulus.1],
            self.exponent,
            &self.signature.0[..self.signature.1],
            self.algo,
            &self.digest.0[..self.digest.1],
        )
    }

    fn pss(&self) -> Result<(), Refusal> {
        verify_pss(
            &self.modulus.0[..self.modulus.1],
            self.exponent,
            &self.signature.0[..self.signature.1],
            self.algo,
            &self.digest.0[..self.digest.1],
        )
    }

    // Checks that both schemes refuse it for a reason.
    fn is_refused(&self, refusal: Refusal) -> bool {
        self.pkcs1() == Err(refusal) && self.pss() == Err(refusal)
    }
}

fn digit(code: u8) -> u8 {
    if code >= b'a' {
        code - b'a' + 10
    } else {
        code - b'0'
    }
}

fn octets(hex: &str) -> ([u8; 512], usize) {
    let mut found = [0; 512];
    for (octet, pair) in found.iter_mut().zip(hex.as_bytes().chunks_exact(2)) {
        *octet = digit(pair[0]) * 16 + digit(pair[1]);
    }
    (found, hex.len() / 2)
}

// The digest of the signed message.
fn digest_by(algo: Algo) -> ([u8; 512], usize) {
    let mut found = ([0; 512], 0);
    for (known, hex) in &DIGESTS {
        if *known == algo {
            found = octets(hex);
        }
    }
    found
}

#[test]
fn openssl_signatures_are_valid(rt: HostRuntime) {
    for (modulus, exponent, algo, signature) in &PKCS1 {
        let case = Case::of(modulus, *exponent, *algo, signature);
        assert!(rt; case.pkcs1() == Ok(()), "{algo:?}: {modulus}");
        assert!(rt; case.pss() == Err(Refusal::Mismatch), "{algo:?}: {modulus}");
    }
    for (modulus, exponent, algo, signature) in &PSS {
        let case = Case::of(modulus, *exponent, *algo, signature);
        assert!(rt; case.pss() == Ok(()), "{algo:?}: {modulus}");
        assert!(rt;
            case.pkcs1() == Err(Refusal::Mismatch),
            "{algo:?}: {modulus}"
        );
    }
}

#[test]
fn encoded_messages_with_a_fault_are_refused(rt: HostRuntime) {
    for (fault, signature) in &PKCS1_FAULTS {
        assert!(rt;
            Case::of_2048(signature).pkcs1() == Err(Refusal::Mismatch),
            "{fault}"
        );
    }
    for (fault, signature) in &PSS_FAULTS {
        assert!(rt;
            Case::of_2048(signature).pss() == Err(Refusal::Mismatch),
            "{fault}"
        );
    }
}

#[test]
fn changed_octets_are_refused(rt: HostRuntime) {
    let pkcs1 = Case::of_2048(PKCS1[1].3);
    let pss = Case::of_2048(PSS[1].3);
    for at in 0..256 {
        let mut changed = pkcs1;
        changed.signature.0[at] ^= 1 << (at % 8);
        assert!(rt; changed.pkcs1().is_err(), "octet {at}");
        let mut changed = pss;
        changed.signature.0[at] ^= 1 << (at % 8);
        assert!(rt; changed.pss().is_err(), "octet {at}");
    }
    for at in 0..32 {
        let mut changed = pkcs1;
        changed.digest.0[at] ^= 1 << (at % 8);
        assert!(rt; changed.pkcs1() == Err(Refusal::Mismatch), "octet {at}");
        let mut changed = pss;
        changed.digest.0[at] ^= 1 << (at % 8);
        assert!(rt; changed.pss() == Err(Refusal::Mismatch), "octet {at}");
    }
}

#[test]
fn the_first_reason_is_returned(rt: HostRuntime) {
    let mut case = Case::of_2048(SUM_WITH_MODULUS);
    assert!(rt; case.is_refused(Refusal::OutOfRange));
    case.signature = case.modulus;
    assert!(rt; case.is_refused(Refusal::OutOfRange));
    case.signature.1 = 255;
    assert!(rt; case.is_refused(Refusal::SignatureLength));
    case.signature.1 = 257;
    assert!(rt; case.is_refused(Refusal::SignatureLength));
    for exponent in [0, 1, 2, 65536] {
        case.exponent = exponent;
        assert!(rt; case.is_refused(Refusal::Exponent), "{exponent}");
    }
    for size in [0, 128, 255, 257, 380, 512] {
        case.modulus.1 = size;
        assert!(rt;
            case.is_refused(if size == 512 {
                Refusal::Exponent
            } else {
                Refusal::KeySize
            }),
            "{size}"
        );
    }
    case.modulus.1 = 256;
    case.modulus.0[0] = 127;
    assert!(rt; case.is_refused(Refusal::KeySize));
    for size in [0, 20, 31, 33, 64] {
        case.digest.1 = size;
        assert!(rt; case.is_refused(Refusal::DigestLength), "{size}");
    }
    for algo in [Algo::Crc16, Algo::Crc32, Algo::Md5] {
        case.algo = algo;
        assert!(rt; case.is_refused(Refusal::Algorithm), "{algo:?}");
    }
}
