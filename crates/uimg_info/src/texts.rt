//! The text of the object of a FIT image's facts.

ghost use Rattle.std.specs.{Prelude.{◌≡◌, ◌+◌, ◌*◌, length, map, true, IfOk}, Str.IsUtf8};
ghost use Rattle.json.specs.Json.{document};
ghost use Rattle.uimg_printing.specs.Objects.{is_one_line};
ghost use Rattle.uimg_base.specs.{Honest.{HonestSource, IfHonest}, Using.{Asks, UsesAtMost, UsesWithin}};
ghost use Rattle.uimg_blob_reading.specs.{Counts.index_cost, Indexed.TakesNodes};
ghost use Rattle.uimg_fit_checking.specs.FullSurvey.{properties_cost, properties_of, read_properties};
ghost use Rattle.uimg_fit_checking.specs.SurveyParts.{is_unread, lacks_room, IsOwn, Surveys};
ghost use Rattle.uimg_info.specs.{Fit.{info_of, ok_of}, Steps.{FactsInside, Informs, Prints, IsJson, OfJson, survey_in}};
ghost use Rattle.uimg_info.specs.{Signatures.{read_signature, signatures_of}, Work.{fit_size, info_work}};

use crate::fit::{FitFacts, put_fit};
use crate::placing::first_fault;
use crate::signatures::read_signatures;
use json::Writer;
use std::alloc::{Allocator, Global};
use uimg_base::{Room, Source};
use uimg_fit_base::Fault;
use uimg_fit_checking::{SurveyFault, survey_with_properties};

fn survey_text<S: Source>(
    alloc: Global,
    path: &str,
    source: &mut S,
    size: u64,
    facts: &FitFacts,
) -> Result<Vec<u8>, SurveyFault>
    requires { FactsInside (length (S.device source.old).bytes) facts.now }
    ensures uses { Asks (fit_size facts.now) (is_unread result)
        (S.device source.old) (S.device source.new) }
    ensures own { IsOwn result }
    ensures text { IfHonest S.device source (OfJson Prints path.now size facts.now result) }
    ensures reads_back { IfHonest S.device source (OfJson IsJson path.now size facts.now result) }
    ensures utf8 { IfOk result (λ text. IsUtf8 text.items) }
    ensures one_line { IfHonest S.device source (λ file.
        IfOk result (λ text. is_one_line text.items ≡ true)) }
{
    let mut writer = Writer::new(Vec::new(alloc));
    put_fit(alloc, source, &mut writer, path, size, facts)?;
    Ok(writer.into_inner())
}

// Reads the facts of a FIT image: first its signature nodes, then the survey, each by an index.
fn read_facts<S: Source, A: Allocator>(
    alloc: Global,
    source: &mut S,
    room: &mut Room<A>,
) -> Result<FitFacts, SurveyFault>
    ensures uses { UsesWithin (λ file. 2 * index_cost file + properties_cost file)
        (is_unread result) S.device source }
    ensures room { TakesNodes (S.device source.old) (lacks_room result) room.old room.new }
    ensures inside { IfOk result (FactsInside (length (S.device source.old).bytes)) }
    ensures told { IfHonest S.device source (λ file. Surveys file (survey_in result)) }
    ensures properties { IfHonest S.device source (λ file. IfOk result
        (λ facts. map (read_properties file) facts.full.properties.items ≡ properties_of file)) }
    ensures signatures { IfHonest S.device source (λ file. IfOk result
        (λ facts. map (read_signature file) facts.signatures.items ≡ signatures_of file)) }
{
    let signatures = read_signatures(alloc, source, room)?;
    let full = survey_with_properties(alloc, source, room)?;
    Ok(FitFacts { full, signatures })
}

/// Returns the text of the object of a FIT image's facts, of a file at a path. Over an honest
/// source it is one line, without its end, and reads as this object; over any source it is UTF-8.
///
/// Reads each value at most once, but `data-size`, `data-offset` and `data-position` at most twice,
/// and none of more than 65,536 bytes. Reads no payload, unless the header puts the memory
/// reservation block there. Requests no more than `survey_with_properties`, another index for the
/// signature nodes, the values, the names of the properties, 24 bytes for each image and 65,540 for
/// the memory reservation block. The room holds the nodes meanwhile.
///
/// - The faults of `survey_with_properties`.
/// - `NoData`, `DataOutside`: of the first image whose payload is not in the file.
/// - `OutOfMemory`: memory for facts, a value or the text was refused.
pub fn fit_text<S: Source, A: Allocator>(
    alloc: Global,
    path: &str,
    source: &mut S,
    room: &mut Room<A>,
) -> Result<Vec<u8>, SurveyFault>
    ensures uses { UsesAtMost (info_work (S.device source.old).bytes) (is_unread result)
        (S.device source.old) (S.device source.new) }
    ensures room { TakesNodes (S.device source.old) (lacks_room result) room.old room.new }
    ensures told { HonestSource S.device source →
        Informs (λ text. text.items) path.now (S.device source.old).bytes result }
    ensures reads_back { IfHonest S.device source (λ file.
        IfOk result (λ text. document text.items ≡ ok_of (info_of path.now file))) }
    ensures utf8 { IfOk result (λ text. IsUtf8 text.items) }
    ensures one_line { IfHonest S.device source (λ file.
        IfOk result (λ text. is_one_line text.items ≡ true)) }
{
    let facts = read_facts(alloc, source, room)?;
    let Ok(size) = source.size() else {
        return Err(SurveyFault::Stopped(Fault::Read));
    };
    let survey = &facts.full.survey;
    match first_fault(source, size, survey.totalsize, survey.images.as_slice())? {
        Some(fault) => Err(SurveyFault::Stopped(Fault::Fit(fault))),
        None => survey_text(alloc, path, source, size, &facts),
    }
}
