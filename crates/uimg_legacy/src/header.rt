//! Reading and writing the 64 bytes of a header.

ghost use Rattle.std.specs.Prelude.{◌≡◌, true, Ok};
ghost use Rattle.uimg_base.specs.Honest.{IfHonest};
ghost use Rattle.uimg_texts.specs.Numbers.{be32};
ghost use Rattle.uimg_legacy.specs.Header.{magic, head, has_right_crc, fields, header as header_of, spelled_with, spelled, padded_name};
ghost use Rattle.uimg_legacy.specs.{Faults.GivesBy, Reading.{ReadsHead, IsSpelledIn}};

use crate::fault::{Fault, LegacyFault};
use byteorder::{BigEndian, ByteOrder};
use uimg_base::{Source, be32_at, crc_of};

// The magic number of legacy images.
const MAGIC: u32 = 0x2705_1956;

/// The length of the header of a legacy image, in bytes.
pub const HEADER_LEN: usize = 64;

/// The fields of a legacy image's header (U-Boot's image.h), without the magic number and the
/// header's own CRC.
#[derive(Clone, Copy, Debug, PartialEq, Eq)]
pub struct Header {
    /// Seconds since 1970.
    pub time: u32,
    /// The length of the data after the header, in bytes.
    pub size: u32,
    /// The load address.
    pub load: u32,
    /// The entry point.
    pub ep: u32,
    /// CRC-32 of the data.
    pub dcrc: u32,
    /// The operating system's code.
    pub os: u8,
    /// The architecture's code.
    pub arch: u8,
    /// The image type's code.
    pub kind: u8,
    /// The compression's code.
    pub comp: u8,
    /// The image's name, up to its first NUL or the field's end.
    pub name: [u8; 32],
}

// Returns `TooShort` if the source has fewer than 64 bytes, or `BadMagic`.
#[tactic(auto, unfolding(crate::specs::Header::head))]
pub(crate) fn read_head<S: Source>(source: &mut S) -> Result<[u8; HEADER_LEN], Fault>
    ensures reads { ReadsHead result S.device source }
    ensures gives { IfHonest S.device source (λ file. GivesBy head file result) }
{
    if source.size()? < HEADER_LEN as u64 {
        return Err(Fault::Legacy(LegacyFault::TooShort));
    }
    let mut bytes = [0; HEADER_LEN];
    source.fill_at(0, &mut bytes)?;
    if be32_at(&bytes, 0) != MAGIC {
        return Err(Fault::Legacy(LegacyFault::BadMagic));
    }
    Ok(bytes)
}

// The CRC is that of the bytes with the CRC field zeroed.
#[tactic(auto, unfolding(crate::specs::Header::has_right_crc))]
pub(crate) fn has_right_crc(bytes: &[u8; HEADER_LEN]) -> bool
    ensures { result ≡ has_right_crc bytes.now }
{
    let mut cleared = *bytes;
    cleared[4..8].copy_from_slice(&[0; 4]);
    be32_at(bytes, 4) == crc_of(&cleared)
}

pub(crate) fn fields(bytes: &[u8; HEADER_LEN]) -> Header
    ensures fields { result ≡ fields bytes.now }
    ensures spelled { be32 bytes.now 0 ≡ magic → has_right_crc bytes.now ≡ true →
        spelled result ≡ bytes.now }
{
    let mut name = [0; 32];
    name.copy_from_slice(&bytes[32..]);
    Header {
        time: be32_at(bytes, 8),
        size: be32_at(bytes, 12),
        load: be32_at(bytes, 16),
        ep: be32_at(bytes, 20),
        dcrc: be32_at(bytes, 24),
        os: bytes[28],
        arch: bytes[29],
        kind: bytes[30],
        comp: bytes[31],
        name,
    }
}

/// Reads the header of the image. Requests at most 64 bytes. Over an honest source the returned
/// header spells the first 64 bytes.
///
/// Returns the first of these faults, or `Read` if and only if a read failed:
/// - `TooShort`: the source has fewer than 64 bytes.
/// - `BadMagic`: they do not begin with `0x27051956`.
/// - `BadHeaderCrc`: the header's CRC is not that of its bytes with the CRC field zeroed.
pub fn read_header<S: Source>(source: &mut S) -> Result<Header, Fault>
    ensures reads { ReadsHead result S.device source }
    ensures gives { IfHonest S.device source (λ file. GivesBy header_of file result) }
    ensures spelled { IfHonest S.device source (λ file. IsSpelledIn file result) }
{
    let bytes = read_head(source)?;
    if !has_right_crc(&bytes) {
        return Err(Fault::Legacy(LegacyFault::BadHeaderCrc));
    }
    Ok(fields(&bytes))
}

#[tactic(auto, unfolding(crate::specs::Header::spelled_with))]
fn spelled_with(sum: u32, header: &Header) -> [u8; HEADER_LEN]
    ensures bytes { result ≡ spelled_with sum header.now }
    ensures reads_back { fields (spelled_with sum header.now) ≡ header.now }
{
    let Header {
        time,
        size,
        load,
        ep,
        dcrc,
        os,
        arch,
        kind,
        comp,
        name,
    } = *header;
    let mut bytes = [0; HEADER_LEN];
    BigEndian::write_u32(&mut bytes[0..4], MAGIC);
    BigEndian::write_u32(&mut bytes[4..8], sum);
    BigEndian::write_u32(&mut bytes[8..12], time);
    BigEndian::write_u32(&mut bytes[12..16], size);
    BigEndian::write_u32(&mut bytes[16..20], load);
    BigEndian::write_u32(&mut bytes[20..24], ep);
    BigEndian::write_u32(&mut bytes[24..28], dcrc);
    bytes[28..32].copy_from_slice(&[os, arch, kind, comp]);
    bytes[32..64].copy_from_slice(&name);
    bytes
}

/// Returns the 64 bytes of a header, with the magic number and the header's CRC. `read_header`
/// reads them back as the same header.
pub fn header_bytes(header: &Header) -> [u8; HEADER_LEN]
    ensures bytes { result ≡ spelled header.now }
    ensures reads_back { header_of result ≡ Ok header.now }
{
    let sum = crc_of(&spelled_with(0, header));
    spelled_with(sum, header)
}

/// Returns the field of a name: the name cut or padded with zeros to 32 bytes.
pub fn name_field(name: &[u8]) -> [u8; 32]
    ensures { result ≡ padded_name name.now }
{
    let mut field = [0; 32];
    let len = usize::min(name.len(), 32);
    field[..len].copy_from_slice(&name[..len]);
    field
}
