//! The CRC-32 tables, computed at compile time.

ghost use Rattle.std.specs.Prelude.{◌≡◌, ◌<◌, ◌+◌, ◌*◌};
ghost use Rattle.uimg_sums.specs.CrcSteps.{bit_steps};

// All XOR combinations of some words: bit i of the index selects word i.
macro_rules! sums {
    ([$($sum:expr),*]) => {
        [$($sum),*]
    };
    ([$($sum:expr),*] $next:literal $($rest:literal)*) => {
        sums!([$($sum,)* $($sum ^ $next),*] $($rest)*)
    };
}

// Table k maps a byte to the register after it and k zero bytes: 8 * (k + 1) bit steps. Each line
// gives the entries of the bytes with one bit set.
const CRC_TABLES: [[u32; 256]; 16] = [
    sums!([0] 0x77073096 0xEE0E612C 0x076DC419 0x0EDB8832 0x1DB71064 0x3B6E20C8 0x76DC4190 0xEDB88320),
    sums!([0] 0x191B3141 0x32366282 0x646CC504 0xC8D98A08 0x4AC21251 0x958424A2 0xF0794F05 0x3B83984B),
    sums!([0] 0x01C26A37 0x0384D46E 0x0709A8DC 0x0E1351B8 0x1C26A370 0x384D46E0 0x709A8DC0 0xE1351B80),
    sums!([0] 0xB8BC6765 0xAA09C88B 0x8F629757 0xC5B428EF 0x5019579F 0xA032AF3E 0x9B14583D 0xED59B63B),
    sums!([0] 0x3D6029B0 0x7AC05360 0xF580A6C0 0x30704BC1 0x60E09782 0xC1C12F04 0x58F35849 0xB1E6B092),
    sums!([0] 0xCB5CD3A5 0x4DC8A10B 0x9B914216 0xEC53826D 0x03D6029B 0x07AC0536 0x0F580A6C 0x1EB014D8),
    sums!([0] 0xA6770BB4 0x979F1129 0xF44F2413 0x33EF4E67 0x67DE9CCE 0xCFBD399C 0x440B7579 0x8816EAF2),
    sums!([0] 0xCCAA009E 0x4225077D 0x844A0EFA 0xD3E51BB5 0x7CBB312B 0xF9766256 0x299DC2ED 0x533B85DA),
    sums!([0] 0x177B1443 0x2EF62886 0x5DEC510C 0xBBD8A218 0xACC04271 0x82F182A3 0xDE920307 0x6655004F),
    sums!([0] 0xEFC26B3E 0x04F5D03D 0x09EBA07A 0x13D740F4 0x27AE81E8 0x4F5D03D0 0x9EBA07A0 0xE6050901),
    sums!([0] 0xC18EDFC0 0x586CB9C1 0xB0D97382 0xBAC3E145 0xAEF6C4CB 0x869C8FD7 0xD64819EF 0x77E1359F),
    sums!([0] 0x9BA54C6F 0xEC3B9E9F 0x03063B7F 0x060C76FE 0x0C18EDFC 0x1831DBF8 0x3063B7F0 0x60C76FE0),
    sums!([0] 0xDD96D985 0x605CB54B 0xC0B96A96 0x5A03D36D 0xB407A6DA 0xB37E4BF5 0xBD8D91AB 0xA06A2517),
    sums!([0] 0x9D0FE176 0xE16EC4AD 0x19AC8F1B 0x33591E36 0x66B23C6C 0xCD6478D8 0x41B9F7F1 0x8373EFE2),
    sums!([0] 0xB9FBDBE8 0xA886B191 0x8A7C6563 0xCF89CC87 0x44629F4F 0x88C53E9E 0xCAFB7B7D 0x4E87F0BB),
    sums!([0] 0xAE689191 0x87A02563 0xD4314C87 0x73139F4F 0xE6273E9E 0x173F7B7D 0x2E7EF6FA 0x5CFDEDF4),
];

/// Returns an entry of the CRC-32 table: eight bit steps from the index.
///
/// A bit step shifts a number right by one and, if the lowest bit was 1, XORs it with `0xEDB88320`.
/// This is the polynomial of ITU-T V.42, section 8.1.1.6.2, with the lowest bit for the highest
/// power. RFC 1952, section 8, has the same table.
pub fn crc_entry(index: u8) -> u32
    ensures { result ≡ bit_steps 8 index }
{
    entry_after(0, index)
}

// Returns the entry of an index after `zeros` zero bytes.
#[tactic(auto, using(crate::proofs::CrcTable::tables_at))]
pub(crate) fn entry_after(zeros: usize, index: u8) -> u32
    requires { zeros < 16 }
    ensures { result ≡ bit_steps (8 * (zeros + 1)) index }
{
    CRC_TABLES[zeros][index as usize]
}
