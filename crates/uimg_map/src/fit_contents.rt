//! What is in the file of a FIT image.

ghost use Rattle.std.specs.Prelude.{◌≡◌, ◌≤◌, ◌<◌, ◌+◌, ◌*◌, ◌^◌, length, map, ℕ, List, Ok, Err, IfErr, IsTrue, OnOk};
ghost use Rattle.uimg_blob_reading.specs.Faults.{refuses_memory};
ghost use Rattle.uimg_fit_checking.specs.Survey.{survey_of};
ghost use Rattle.uimg_fit_checking.specs.declared.surveying.facts.Survey.{Survey};
ghost use Rattle.uimg_fit_checking.specs.SurveyParts.{is_unread, Surveys};
ghost use Rattle.uimg_map.specs.{Contents.{GrowsBy, AddsFound, Gathers}, Faults.{is_read, stops}};
ghost use Rattle.uimg_map.specs.{Found.read_label, FdtHeader.fdt_header_of};
ghost use Rattle.uimg_map.specs.Images.{ImageInside, ImagesInside, read_image};
ghost use Rattle.uimg_map.specs.Work.{image_count, images_work, fit_work};
ghost use Rattle.uimg_map.specs.FitContents.{blocks_told, is_value, what_payload, payload_told, image_told, images_told, survey_told, fit_contents};

use crate::blocks::blocks_of;
use crate::contents::{Contents, Label};
use crate::fault::MapFault;
use crate::fdt_header::read_fdt_header;
use crate::images::{Image, Images, read_images};
use crate::reservations::end_of_reservations;
use std::alloc::Global;
use uimg_base::{Room, Source, Span};
use uimg_blob_reading::BlobFault;
use uimg_fit_base::{Fault, FitFault};
use uimg_fit_checking::SurveyFault;
use uimg_fit_reading::{PayloadFacts, find_payload};

/// Adds what is in the file of a FIT image: the header and its blocks, if the file has the header
/// of a blob, then the payloads or the fault of the blob.
pub(crate) fn add_fit<S: Source>(
    alloc: Global,
    source: &mut S,
    contents: &mut Contents,
) -> Result<(), MapFault>
    requires { contents.old.size ≡ length (S.device source.old).bytes }
    ensures { Gathers fit_work fit_contents result (S.device source.old) (S.device source.new)
        contents.old contents.new }
{
    add_blocks(source, contents)?;
    add_surveyed(alloc, source, contents)?;
    Ok(())
}

// Adds the header and the blocks of a blob, if it has a header.
fn add_blocks<S: Source>(source: &mut S, contents: &mut Contents) -> Result<(), MapFault>
    requires { contents.old.size ≡ length (S.device source.old).bytes }
    ensures { Gathers (λ file. 40 + length file) (λ file. blocks_told file (fdt_header_of file)) result
        (S.device source.old) (S.device source.new) contents.old contents.new }
{
    let Some(header) = read_fdt_header(source)? else {
        return Ok(());
    };
    let end = end_of_reservations(source, header.off_mem_rsvmap)?;
    let [header, reservations, structure, strings] = blocks_of(&header, end, contents.size);
    contents.add(header.place, header.end, Label::Header)?;
    contents.add(reservations.place, reservations.end, Label::Reservations)?;
    contents.add(structure.place, structure.end, Label::Structure)?;
    contents.add(strings.place, strings.end, Label::Strings)?;
    Ok(())
}

fn add_surveyed<S: Source>(
    alloc: Global,
    source: &mut S,
    contents: &mut Contents,
) -> Result<(), MapFault>
    requires { contents.old.size ≡ length (S.device source.old).bytes }
    ensures { Gathers (λ file. images_work file + 12 * image_count (survey_of file))
        (λ file. survey_told file (survey_of file)) result
        (S.device source.old) (S.device source.new) contents.old contents.new }
{
    let mut room = Room::new(alloc);
    match read_images(alloc, source, &mut room) {
        Ok(found) => add_payloads(source, &found, contents),
        Err(SurveyFault::Stopped(fault)) => {
            add_refused(fault, contents)?;
            Ok(())
        }
        Err(SurveyFault::OutOfMemory) => Err(MapFault::OutOfMemory),
        Err(SurveyFault::Changed) => unreachable!(),
    }
}

// Adds the fault of a FIT image, or returns a fault that is not one of the image.
fn add_refused(fault: Fault, contents: &mut Contents) -> Result<(), MapFault>
    ensures size { contents.new.size ≡ contents.old.size }
    ensures read { is_read result ≡ is_unread {X = Survey} (Err (SurveyFault.Stopped fault)) }
    ensures grows { (file : List ℕ) → Surveys file (Err (SurveyFault.Stopped fault)) →
        OnOk result (GrowsBy file (survey_told file (survey_of file)) contents.old contents.new) }
    ensures stops { (file : List ℕ) → Surveys file (Err (SurveyFault.Stopped fault)) →
        IfErr result (λ fault. IsTrue (stops fault)) }
{
    match fault {
        Fault::Blob(blob, at) => {
            if refuses_memory(blob) {
                return Err(MapFault::Fit(Fault::Blob(blob, at)));
            }
            contents.refuse_at(at, MapFault::Fit(Fault::Blob(blob, at)))?;
            Ok(())
        }
        Fault::Fit(fault) => {
            contents.refuse(MapFault::Fit(Fault::Fit(fault)));
            Ok(())
        }
        Fault::Read => Err(MapFault::Read),
        Fault::Put => Err(MapFault::Fit(Fault::Put)),
    }
}

fn refuses_memory(fault: BlobFault) -> bool
    ensures { result ≡ refuses_memory fault }
{
    match fault {
        BlobFault::OutOfMemory => true,
        _ => false,
    }
}

fn add_payloads<S: Source>(
    source: &mut S,
    found: &Images,
    contents: &mut Contents,
) -> Result<(), MapFault>
    requires found { ImagesInside (length (S.device source.old).bytes) found.now }
    requires size { contents.old.size ≡ length (S.device source.old).bytes }
    ensures { Gathers (λ _. 12 * length found.now.images.items)
        (λ file. images_told (length file) found.now.totalsize (map (read_image file) found.now.images.items))
        result (S.device source.old) (S.device source.new) contents.old contents.new }
{
    for image in &found.images {
        add_image(source, found.totalsize, image, contents)?;
    }
    Ok(())
}

fn add_image<S: Source>(
    source: &mut S,
    totalsize: u32,
    image: &Image,
    contents: &mut Contents,
) -> Result<(), MapFault>
    requires image { ImageInside totalsize image.now }
    requires blob { totalsize ≤ length (S.device source.old).bytes }
    requires size { contents.old.size ≡ length (S.device source.old).bytes }
    ensures { Gathers (λ _. 12) (λ file. image_told (length file) totalsize (read_image file image.now))
        result (S.device source.old) (S.device source.new) contents.old contents.new }
{
    match find_payload(source, totalsize, &image.payload)? {
        Ok(span) => {
            add_payload(image, span, contents)?;
            Ok(())
        }
        Err(fault) => {
            contents.refuse(MapFault::Fit(Fault::Fit(fault)));
            Ok(())
        }
    }
}

fn add_payload(image: &Image, span: Span, contents: &mut Contents) -> Result<(), MapFault>
    requires { (span.place < 2 ^ 41) × (span.length < 2 ^ 32) }
    ensures { AddsFound (λ file. payload_told contents.old.size (read_image file image.now) (Ok span)) result
        contents.old contents.new }
{
    let end = span.place + span.length;
    contents.add(span.place, end, payload_label(image, span))?;
    contents.refuse_behind(end, MapFault::Fit(Fault::Fit(FitFault::DataOutside)));
    Ok(())
}

fn payload_label(image: &Image, span: Span) -> Label
    ensures { (file : List ℕ) → read_label file result ≡ what_payload (read_image file image.now) span }
{
    if is_value(&image.payload, span) {
        Label::Embedded(image.name, image.covered)
    } else {
        Label::Payload(image.name, image.covered)
    }
}

#[tactic(auto, unfolding(crate::specs::FitContents::is_value))]
fn is_value(payload: &PayloadFacts, span: Span) -> bool
    ensures { result ≡ is_value payload.now.embedded span }
{
    match payload.embedded {
        Some(value) => value.place == span.place && value.length == span.length,
        None => false,
    }
}
