//! The object of a FIT image's facts.

ghost use Rattle.std.specs.Prelude.{◌≤◌, length, map};
ghost use Rattle.std.specs.List.{All, sum_by};
ghost use Rattle.json.specs.Tree.{json_tokens};
ghost use Rattle.uimg_fit_checking.specs.Survey.{read_hash, read_image, read_survey};
ghost use Rattle.uimg_fit_checking.specs.SurveyParts.{HashInside, ImageInside, SurveyInside};
ghost use Rattle.uimg_info.specs.Fit.{place_members, image_facts, root_members, hash_json, image_json, head_members};
ghost use Rattle.uimg_printing.specs.Members.{array_of, tokens_of};
ghost use Rattle.uimg_info.specs.{Members.facts_members, Reservations.reservations_of};
ghost use Rattle.uimg_info.specs.Steps.{FactsInside, PutsTokens, AddsTokens, read_json};
ghost use Rattle.uimg_info.specs.Work.{hash_size, image_rows_size, image_size, root_size, fit_size};

use crate::configurations::put_configurations;
use crate::facts::{put_object, put_rows};
use crate::forms::Form::{Address, Cell, Digest, Text};
use crate::placing::find_place;
use crate::reservations::put_reservations;
use crate::signatures::{SignatureFacts, put_signatures};
use json::Writer;
use std::alloc::{AllocError, Global};
use uimg_base::{Source, Span};
use uimg_fit_base::FitFault;
use uimg_fit_checking::{FullSurvey, HashFacts, ImageFacts, Survey, SurveyFault};
use uimg_printing::{put_number, put_string};

fn put_hash<S: Source>(
    alloc: Global,
    source: &mut S,
    writer: &mut Writer,
    facts: &HashFacts,
) -> Result<(), SurveyFault>
    requires { HashInside (length (S.device source.old).bytes) facts.now }
    ensures { PutsTokens (hash_size facts.now) result S.device source writer
        (λ file. json_tokens (hash_json (read_hash file facts.now))) }
{
    let rows = [
        ("name", Text, Some(facts.name)),
        ("algo", Text, facts.algo),
        ("value", Digest, facts.value),
    ];
    put_object(alloc, source, writer, &rows)
}

fn put_hashes<S: Source>(
    alloc: Global,
    source: &mut S,
    writer: &mut Writer,
    hashes: &[HashFacts],
) -> Result<(), SurveyFault>
    requires { All (HashInside (length (S.device source.old).bytes)) hashes.now }
    ensures { PutsTokens (sum_by hash_size hashes.now) result S.device source writer
        (λ file. json_tokens (array_of (map hash_json (map (read_hash file) hashes.now)))) }
{
    writer.begin_array()?;
    for hash in hashes {
        put_hash(alloc, source, writer, hash)?;
    }
    writer.end_array()?;
    Ok(())
}

fn put_place(writer: &mut Writer, found: Result<Span, FitFault>) -> Result<(), AllocError>
    ensures { AddsTokens result writer (tokens_of (place_members found)) }
{
    let Ok(place) = found else {
        return Ok(());
    };
    put_number(writer, "offset", place.place)?;
    put_number(writer, "data-size", place.length)?;
    Ok(())
}

fn put_image_rows<S: Source>(
    alloc: Global,
    source: &mut S,
    writer: &mut Writer,
    facts: &ImageFacts,
) -> Result<(), SurveyFault>
    requires { ImageInside (length (S.device source.old).bytes) facts.now }
    ensures { PutsTokens (image_rows_size facts.now) result S.device source writer
        (λ file. tokens_of (facts_members (image_facts (read_image file facts.now)))) }
{
    let rows = [
        ("name", Text, Some(facts.name)),
        ("description", Text, facts.description),
        ("type", Text, facts.kind),
        ("arch", Text, facts.arch),
        ("os", Text, facts.os),
        ("compression", Text, facts.compression),
        ("load", Address, facts.load),
        ("entry", Address, facts.entry),
    ];
    put_rows(alloc, source, writer, &rows)
}

#[tactic(auto, unfolding(crate::specs::Work::image_size))]
fn put_image<S: Source>(
    alloc: Global,
    source: &mut S,
    writer: &mut Writer,
    totalsize: u32,
    facts: &ImageFacts,
) -> Result<(), SurveyFault>
    requires inside { ImageInside totalsize facts.now }
    requires blob { totalsize ≤ length (S.device source.old).bytes }
    ensures { PutsTokens (image_size facts.now) result S.device source writer
        (λ file. json_tokens (image_json totalsize (read_image file facts.now))) }
{
    writer.begin_object()?;
    put_image_rows(alloc, source, writer, facts)?;
    let place = find_place(source, totalsize, &facts.payload)?;
    put_place(writer, place)?;
    writer.key("hashes")?;
    put_hashes(alloc, source, writer, facts.hashes.as_slice())?;
    writer.end_object()?;
    Ok(())
}

fn put_images<S: Source>(
    alloc: Global,
    source: &mut S,
    writer: &mut Writer,
    totalsize: u32,
    images: &[ImageFacts],
) -> Result<(), SurveyFault>
    requires inside { All (ImageInside totalsize) images.now }
    requires blob { totalsize ≤ length (S.device source.old).bytes }
    ensures { PutsTokens (sum_by image_size images.now) result S.device source writer
        (λ file. json_tokens (array_of
        (map (image_json totalsize) (map (read_image file) images.now)))) }
{
    writer.begin_array()?;
    for image in images {
        put_image(alloc, source, writer, totalsize, image)?;
    }
    writer.end_array()?;
    Ok(())
}

fn put_head(writer: &mut Writer, path: &str, size: u64, totalsize: u32) -> Result<(), AllocError>
    ensures { AddsTokens result writer (tokens_of (head_members path.now size totalsize)) }
{
    put_string(writer, "path", path)?;
    put_number(writer, "status", 0)?;
    put_string(writer, "format", "fit")?;
    put_number(writer, "size", size)?;
    put_number(writer, "totalsize", totalsize as u64)?;
    Ok(())
}

fn put_root<S: Source>(
    alloc: Global,
    source: &mut S,
    writer: &mut Writer,
    survey: &Survey,
) -> Result<(), SurveyFault>
    requires { SurveyInside (length (S.device source.old).bytes) survey.now }
    ensures { PutsTokens (root_size survey.now) result S.device source writer
        (λ file. tokens_of (root_members
        (reservations_of file survey.now.totalsize) (read_survey file survey.now))) }
{
    let rows = [
        ("description", Text, survey.description),
        ("timestamp", Cell, survey.timestamp),
        ("default", Text, survey.preferred),
    ];
    put_rows(alloc, source, writer, &rows)?;
    put_reservations(alloc, source, writer, survey.totalsize)?;
    Ok(())
}

/// The facts of a FIT image, with the properties and the signature nodes of its configurations.
#[derive(Drop)]
pub(crate) struct FitFacts {
    pub(crate) full: FullSurvey,
    pub(crate) signatures: Vec<SignatureFacts>,
}

pub(crate) fn put_fit<S: Source>(
    alloc: Global,
    source: &mut S,
    writer: &mut Writer,
    path: &str,
    size: u64,
    facts: &FitFacts,
) -> Result<(), SurveyFault>
    requires { FactsInside (length (S.device source.old).bytes) facts.now }
    ensures { PutsTokens (fit_size facts.now) result S.device source writer
        (λ file. json_tokens (read_json path.now size file facts.now)) }
{
    let survey = &facts.full.survey;
    writer.begin_object()?;
    put_head(writer, path, size, survey.totalsize)?;
    put_root(alloc, source, writer, survey)?;
    writer.key("images")?;
    put_images(
        alloc,
        source,
        writer,
        survey.totalsize,
        survey.images.as_slice(),
    )?;
    writer.key("configurations")?;
    put_configurations(
        alloc,
        source,
        writer,
        survey.configurations.as_slice(),
        facts.full.properties.as_slice(),
    )?;
    put_signatures(alloc, source, writer, facts.signatures.as_slice())?;
    writer.end_object()?;
    Ok(())
}
