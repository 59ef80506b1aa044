//! The steps of CRC-32: one byte, or sixteen at once.

ghost use Rattle.std.specs.{Prelude.{◌≡◌, ◌≤◌, ◌+◌, ◌*◌}, List.{concat, fold}};
ghost use Rattle.uimg_sums.specs.CrcSteps.{bit_steps, byte_step};

use crate::crc_table::{crc_entry, entry_after};

// Does eight bit steps with one table look-up.
#[tactic(auto, using(crate::proofs::CrcTable::eight_steps))]
fn table_step(state: u64) -> u64
    ensures { result ≡ bit_steps 8 state }
{
    crc_entry((state % 256) as u8) as u64 ^ (state >> 8)
}

fn byte_step_of(register: u32, byte: u8) -> u32
    ensures { result ≡ byte_step register byte }
{
    table_step((register ^ byte as u32) as u64) as u32
}

pub(crate) fn byte_steps_of(mut register: u32, bytes: &[u8]) -> u32
    ensures { result ≡ fold byte_step register bytes.now }
{
    for byte in bytes {
        register = byte_step_of(register, *byte);
    }
    register
}

// Does the bit steps of eight bytes and of `zeros` zero bytes after them. The lowest bytes come
// last because they hold the register, which a step waits for.
fn entries_after(zeros: usize, number: u64) -> u32
    requires { zeros + 8 ≤ 16 }
    ensures { result ≡ bit_steps (8 * (zeros + 8)) number }
{
    entry_after(zeros, ((number >> 56) % 256) as u8)
        ^ entry_after(zeros + 1, ((number >> 48) % 256) as u8)
        ^ entry_after(zeros + 2, ((number >> 40) % 256) as u8)
        ^ entry_after(zeros + 3, ((number >> 32) % 256) as u8)
        ^ entry_after(zeros + 4, ((number >> 24) % 256) as u8)
        ^ entry_after(zeros + 5, ((number >> 16) % 256) as u8)
        ^ entry_after(zeros + 6, ((number >> 8) % 256) as u8)
        ^ entry_after(zeros + 7, (number % 256) as u8)
}

// Steps over sixteen bytes at once. The last eight come first because they do not need the
// register.
fn word_step_of(register: u32, word: [u8; 16]) -> u32
    ensures { result ≡ fold byte_step register word }
{
    let number = u128::from_le_bytes(word);
    let low = register as u64 ^ (number % (1 << 64)) as u64;
    entries_after(0, (number >> 64) as u64) ^ entries_after(8, low)
}

// Steps over the words in order. Not inlined, to keep the processor's registers for its loop.
#[inline(never)]
pub(crate) fn word_steps_of(mut register: u32, words: &[[u8; 16]]) -> u32
    ensures { result ≡ fold byte_step register (concat words.now) }
{
    for word in words {
        register = word_step_of(register, *word);
    }
    register
}
