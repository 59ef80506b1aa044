//! What is in the file of a legacy image.

ghost use Rattle.std.specs.Prelude.{◌≡◌, ◌<◌, ◌+◌, ◌*◌, ◌^◌, length, nat_lt, true, Some, IfOk, IsTrue, is_err};
ghost use Rattle.uimg_base.specs.{Honest.HonestSource, Using.{Asks, UsesAtMost}};
ghost use Rattle.uimg_legacy.specs.{Image.payload, Parts.{has_parts, sizes, part_sizes}};
ghost use Rattle.uimg_map.specs.{Contents.{AddsFound, Gathers}, Tables.{word_at, count_in}};
ghost use Rattle.uimg_map.specs.Work.{legacy_work, legacy_table_work};
ghost use Rattle.uimg_map.specs.LegacyContents.{legacy_fault, is_bad_crc, refused_header, header_told, padding_told, part_told, parts_told, endless_told, table_told, data_told, legacy_contents};
ghost use Rattle.uimg_texts.specs.Slices.{slice};

use crate::contents::{Contents, Label};
use crate::fault::MapFault;
use uimg_base::{Source, SourceFault, be32_at, up4};
use uimg_legacy::{Fault, HEADER_LEN, Header, LegacyFault, has_parts, read_header};

/// Adds the header and the data, for the types multi and script the table of sizes and the parts;
/// or the header's fault. Reads no data but the table.
pub(crate) fn add_legacy<S: Source>(source: &mut S, contents: &mut Contents) -> Result<(), MapFault>
    requires { contents.old.size ≡ length (S.device source.old).bytes }
    ensures { Gathers legacy_work legacy_contents result (S.device source.old) (S.device source.new)
        contents.old contents.new }
{
    match read_header(source) {
        Ok(header) => {
            add_header(header.size, contents)?;
            add_data(source, &header, contents)?;
            Ok(())
        }
        Err(Fault::Legacy(fault)) => {
            add_refused(fault, contents)?;
            Ok(())
        }
        Err(Fault::Read) => Err(MapFault::Read),
        Err(Fault::Put) => Err(MapFault::Legacy(Fault::Put)),
    }
}

fn legacy_fault(fault: LegacyFault) -> MapFault
    ensures { result ≡ legacy_fault fault }
{
    MapFault::Legacy(Fault::Legacy(fault))
}

// Adds a refused header, if there is one, and its fault.
fn add_refused(fault: LegacyFault, contents: &mut Contents) -> Result<(), MapFault>
    ensures { AddsFound (λ _. refused_header fault) result contents.old contents.new }
{
    if is_bad_crc(fault) {
        contents.add(0, HEADER_LEN as u64, Label::Header)?;
        contents.refuse_at(4, legacy_fault(fault))?;
        return Ok(());
    }
    contents.refuse_at(0, legacy_fault(fault))?;
    Ok(())
}

fn is_bad_crc(fault: LegacyFault) -> bool
    ensures { result ≡ is_bad_crc fault }
{
    match fault {
        LegacyFault::BadHeaderCrc => true,
        _ => false,
    }
}

fn add_header(size: u32, contents: &mut Contents) -> Result<(), MapFault>
    ensures { AddsFound (λ _. header_told contents.old.size size) result contents.old contents.new }
{
    contents.add(0, HEADER_LEN as u64, Label::Header)?;
    contents.refuse_behind(end_of(size), legacy_fault(LegacyFault::Truncated));
    Ok(())
}

fn end_of(size: u32) -> u64
    ensures { result ≡ 64 + size }
{
    HEADER_LEN as u64 + size as u64
}

fn add_data<S: Source>(
    source: &mut S,
    header: &Header,
    contents: &mut Contents,
) -> Result<(), MapFault>
    requires { contents.old.size ≡ length (S.device source.old).bytes }
    ensures { Gathers
        (λ file. legacy_table_work (has_parts header.now.kind) (payload file header.now))
        (λ file. data_told file header.now (has_parts header.now.kind)) result
        (S.device source.old) (S.device source.new) contents.old contents.new }
{
    if !has_parts(header.kind) {
        contents.add(HEADER_LEN as u64, end_of(header.size), Label::Data)?;
        return Ok(());
    }
    add_table(source, header.size, contents)?;
    Ok(())
}

// Adds the table of sizes of `size` bytes of data, and the parts.
fn add_table<S: Source>(source: &mut S, size: u32, contents: &mut Contents) -> Result<(), MapFault>
    requires { contents.old.size ≡ length (S.device source.old).bytes }
    ensures { Gathers (λ file. legacy_table_work true (slice file 64 size))
        (λ file. table_told (length file) size (part_sizes (slice file 64 size))) result
        (S.device source.old) (S.device source.new) contents.old contents.new }
{
    match count_sizes(source, size)? {
        Some(count) => {
            contents.add(HEADER_LEN as u64, first_part(count), Label::Table)?;
            add_parts(source, count, size, contents)?;
            Ok(())
        }
        None => {
            add_endless(size, contents)?;
            Ok(())
        }
    }
}

// Returns where the first part begins, after `count` sizes and the zero word.
fn first_part(count: u32) -> u64
    ensures { result ≡ 64 + 4 * (count + 1) }
{
    HEADER_LEN as u64 + 4 * (count as u64 + 1)
}

fn add_endless(size: u32, contents: &mut Contents) -> Result<(), MapFault>
    ensures { AddsFound (λ _. endless_told contents.old.size size LegacyFault.NoTableEnd) result
        contents.old contents.new }
{
    let end = end_of(size);
    contents.add(HEADER_LEN as u64, end, Label::Table)?;
    if end > contents.size {
        return Ok(());
    }
    contents.refuse_at(end, legacy_fault(LegacyFault::NoTableEnd))?;
    Ok(())
}

// Counts the words of `size` bytes of data before the first zero word, if the file has one there.
fn count_sizes<S: Source>(source: &mut S, size: u32) -> Result<Option<u32>, SourceFault>
    ensures uses { UsesAtMost (4 * length (sizes (slice (S.device source.old).bytes 64 size)) + 4) (is_err result)
        (S.device source.old) (S.device source.new) }
    ensures count { HonestSource S.device source →
        IfOk result (λ count. count ≡ count_in (part_sizes (slice (S.device source.old).bytes 64 size))) }
{
    for number in 0..size / 4 {
        match size_at(source, number)? {
            Some(0) => return Ok(Some(number)),
            Some(_) => {}
            None => return Ok(None),
        }
    }
    Ok(None)
}

#[tactic(auto, unfolding(crate::specs::Tables::word_at, uimg_texts::specs::Numbers::be32))]
fn size_at<S: Source>(source: &mut S, number: u32) -> Result<Option<u32>, SourceFault>
    ensures uses { Asks 4 (is_err result) (S.device source.old) (S.device source.new) }
    ensures word { HonestSource S.device source →
        IfOk result (λ word. word ≡ word_at (S.device source.old).bytes number) }
{
    let at = HEADER_LEN as u64 + 4 * number as u64;
    let size = source.size()?;
    if size < at + 4 {
        return Ok(None);
    }
    let mut word = [0; 4];
    source.fill_at(at, &mut word)?;
    Ok(Some(be32_at(&word, 0)))
}

// Adds the `count` parts of a table of `size` bytes of data, up to the first that ends after the
// data.
fn add_parts<S: Source>(
    source: &mut S,
    count: u32,
    size: u32,
    contents: &mut Contents,
) -> Result<(), MapFault>
    requires { IsTrue (S.device source.old).honest →
        count_in (part_sizes (slice (S.device source.old).bytes 64 size)) ≡ Some count }
    ensures { Gathers (λ _. 4 * count)
        (λ file. parts_told (64 + size) (64 + 4 * (count + 1)) 0 (sizes (slice file 64 size))) result
        (S.device source.old) (S.device source.new) contents.old contents.new }
{
    let end = end_of(size);
    let mut at = first_part(count);
    for number in 0..count {
        let size = match size_at(source, number)? {
            Some(size) => size,
            None => return Ok(()),
        };
        if add_part(number, at, size, number + 1 >= count, end, contents)? {
            return Ok(());
        }
        at = up4(at + size as u64);
    }
    Ok(())
}

// The data ends at `end`. Adds the padding after the part, unless it is the last. Returns whether
// it ends after the data, which is a fault.
fn add_part(
    number: u32,
    at: u64,
    size: u32,
    is_last: bool,
    end: u64,
    contents: &mut Contents,
) -> Result<bool, MapFault>
    requires { at < 2 ^ 36 }
    ensures adds { AddsFound (λ _. part_told (nat_lt end (at + size)) at number size is_last) result
        contents.old contents.new }
    ensures outside { IfOk result (λ outside. outside ≡ nat_lt end (at + size)) }
{
    let stop = at + size as u64;
    contents.add(at, stop, Label::Part(number))?;
    if stop > end {
        contents.refuse_at(at, legacy_fault(LegacyFault::PartOutside))?;
        return Ok(true);
    }
    add_padding(stop, is_last, contents)?;
    Ok(false)
}

// Adds the bytes from the end of a part up to the next part, unless it is the last.
fn add_padding(stop: u64, is_last: bool, contents: &mut Contents) -> Result<(), MapFault>
    requires { stop < 2 ^ 37 }
    ensures { AddsFound (λ _. padding_told stop is_last) result contents.old contents.new }
{
    if is_last {
        return Ok(());
    }
    let next = up4(stop);
    if next <= stop {
        return Ok(());
    }
    contents.add(stop, next, Label::Padding)?;
    Ok(())
}
