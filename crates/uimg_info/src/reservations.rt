//! The memory that a blob reserves.

ghost use Rattle.std.specs.Prelude.{◌≡◌, Some, ◌-◌, ◌≤◌, length, drop, map, is_err, IfOk};
ghost use Rattle.json.specs.Tree.{json_tokens};
ghost use Rattle.uimg_base.specs.{Honest.IfHonest, Using.Asks};
ghost use Rattle.uimg_texts.specs.Numbers.{be32};
ghost use Rattle.uimg_printing.specs.Members.{array_of, tokens_of};
ghost use Rattle.uimg_info.specs.Reservations.{reservation_at, ends_list, items_in, entries_in, reservations_of, reservation_json, reservations_members};
ghost use Rattle.uimg_fit_checking.specs.SurveyParts.{IsOwn, is_unread};
ghost use Rattle.uimg_info.specs.Steps.{PutsTokens, AddsTokens};

use byteorder::{BigEndian, ByteOrder};
use json::Writer;
use std::alloc::{AllocError, Global};
use uimg_base::{Source, SourceFault, Span, be32_at};
use uimg_fit_base::Fault;
use uimg_fit_checking::{SurveyFault, read_bytes};
use uimg_printing::put_number;

// The length of an entry, in bytes.
const ENTRY_LEN: usize = 16;

// The most bytes of a block that are read.
const MOST: u32 = 65536;

/// Reserved memory.
#[derive(Clone, Copy, Debug, PartialEq, Eq)]
pub(crate) struct Reservation {
    address: u64,
    size: u64,
}

fn entry_of(bytes: &[u8]) -> Reservation
    requires { 16 ≤ length bytes.now }
    ensures { result ≡ reservation_at bytes.now }
{
    Reservation {
        address: BigEndian::read_u64(&bytes[..8]),
        size: BigEndian::read_u64(&bytes[8..16]),
    }
}

fn is_end(entry: Reservation) -> bool
    ensures { result ≡ ends_list entry }
{
    entry.address == 0 && entry.size == 0
}

fn behind(bytes: &[u8]) -> &[u8]
    requires { 16 ≤ length bytes.now }
    ensures { result.now ≡ drop 16 bytes.now }
{
    &bytes[ENTRY_LEN..]
}

// Returns none without an entry that ends the list.
fn entries_in(alloc: Global, bytes: &[u8]) -> Result<Option<Vec<Reservation>>, AllocError>
    ensures { IfOk result (λ found. items_in found ≡ entries_in bytes.now) }
{
    let mut entries = Vec::new(alloc);
    let mut rest = bytes;
    while rest.len() >= ENTRY_LEN {
        let entry = entry_of(rest);
        if is_end(entry) {
            return Ok(Some(entries));
        }
        entries.push(entry)?;
        rest = behind(rest);
    }
    Ok(None)
}

// Reads where the block begins, from the header.
#[tactic(auto, unfolding(uimg_texts::specs::Numbers::be32))]
fn place_of<S: Source>(source: &mut S) -> Result<u32, SourceFault>
    requires { 20 ≤ length (S.device source.old).bytes }
    ensures uses { Asks 4 (is_err result) (S.device source.old) (S.device source.new) }
    ensures place { IfHonest S.device source (λ file. IfOk result (λ n. n ≡ be32 file 16)) }
{
    let mut word = [0; 4];
    source.fill_at(16, &mut word)?;
    Ok(be32_at(&word, 0))
}

#[tactic(auto, unfolding(crate::specs::Reservations::reservations_of))]
fn read_reservations<S: Source>(
    alloc: Global,
    source: &mut S,
    totalsize: u32,
) -> Result<Option<Vec<Reservation>>, SurveyFault>
    requires { totalsize ≤ length (S.device source.old).bytes }
    ensures uses { Asks 65540 (is_unread result) (S.device source.old) (S.device source.new) }
    ensures own { IsOwn result }
    ensures told { IfHonest S.device source (λ file.
        IfOk result (λ found. items_in found ≡ reservations_of file totalsize)) }
{
    if totalsize < 20 {
        return Ok(None);
    }
    let Ok(place) = place_of(source) else {
        return Err(SurveyFault::Stopped(Fault::Read));
    };
    if place >= totalsize {
        return Ok(None);
    }
    let span = Span {
        place: place as u64,
        length: u32::min(MOST, totalsize - place) as u64,
    };
    let bytes = read_bytes(alloc, source, span)?;
    Ok(entries_in(alloc, bytes.as_slice())?)
}

fn put_reservation(writer: &mut Writer, entry: Reservation) -> Result<(), AllocError>
    ensures { AddsTokens result writer (json_tokens (reservation_json entry)) }
{
    writer.begin_object()?;
    put_number(writer, "address", entry.address)?;
    put_number(writer, "size", entry.size)?;
    writer.end_object()?;
    Ok(())
}

fn put_entries(writer: &mut Writer, entries: &[Reservation]) -> Result<(), AllocError>
    ensures { AddsTokens result writer (json_tokens (array_of (map reservation_json entries.now))) }
{
    writer.begin_array()?;
    for entry in entries {
        put_reservation(writer, *entry)?;
    }
    writer.end_array()?;
    Ok(())
}

fn put_list(writer: &mut Writer, entries: &[Reservation]) -> Result<(), AllocError>
    ensures { AddsTokens result writer (tokens_of (reservations_members (Some entries.now))) }
{
    writer.key("reservations")?;
    put_entries(writer, entries)?;
    Ok(())
}

fn put_found(writer: &mut Writer, found: Option<Vec<Reservation>>) -> Result<(), AllocError>
    ensures { AddsTokens result writer (tokens_of (reservations_members (items_in found))) }
{
    match found {
        Some(entries) => put_list(writer, entries.as_slice()),
        None => Ok(()),
    }
}

/// Writes the entries only if the block ends within the blob and has at most 4095 entries.
pub(crate) fn put_reservations<S: Source>(
    alloc: Global,
    source: &mut S,
    writer: &mut Writer,
    totalsize: u32,
) -> Result<(), SurveyFault>
    requires { totalsize ≤ length (S.device source.old).bytes }
    ensures { PutsTokens 65540 result S.device source writer
        (λ file. tokens_of (reservations_members (reservations_of file totalsize))) }
{
    let found = read_reservations(alloc, source, totalsize)?;
    put_found(writer, found)?;
    Ok(())
}
