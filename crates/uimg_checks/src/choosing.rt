//! Finds the images that a configuration names.

ghost use Rattle.std.specs.Prelude.{◌≡◌, ◌||◌, ℕ, List, codes, map, length, Result, IfOk, IfSome, Ok, Err, true};
ghost use Rattle.std.specs.List.{All, list_any};
ghost use Rattle.std.specs.{Option.option_map, Result.OnOk, Str.bytes_eq};
ghost use Rattle.uimg_base.specs.{Device.SameDevice, Honest.{HonestSource, IfHonest}};
ghost use Rattle.uimg_fit_checking.specs.{Survey.{read_configuration, read_survey}, SurveyParts.{ConfigurationInside, IsOwn, SurveyInside}};
ghost use Rattle.uimg_fit_reading.specs.{PayloadPlaces.Ends, Values.pieces};
ghost use Rattle.uimg_fit_base.specs.Files.{bytes_in};
ghost use Rattle.uimg_checks.specs.Choices.{Chooses, IsChoice, Unchosen, TellsChoice, chosen_by, chosen_of, configuration_of, default_images, image_names_of, images_among, images_named, lost, names_among, names_in};
ghost use Rattle.uimg_checks.specs.Given.{GivenInside, read_given};
ghost use Rattle.uimg_checks.specs.ReferenceNames.{HasNames, has_name};

use crate::answer::{Answer, Stop};
use crate::ends::{CHANGED, Names, answer_of_fault, answer_of_missing};
use crate::references::{Missing, Reference, behind, given_by, image_names, is_ended, missing_of};
use std::alloc::{AllocError, Global};
use std::collections::BTreeSet;
use uimg_base::{Room, Source, Span, before_nul};
use uimg_engine::{Fault, is_fit};
use uimg_fit_checking::{ConfigurationFacts, Survey, SurveyFault, read_bytes, survey};
use uimg_fit_reading::read_tree;
use uimg_requests::Form;

const IS_LEGACY: Answer<'static> = Answer::Refused(Stop {
    message: "a legacy image has no configuration",
    code: None,
    format: None,
    offset: None,
});

/// The images that a configuration names.
#[derive(Drop)]
pub(crate) enum Choice {
    /// The names of its images.
    Names(BTreeSet<Vec<u8>>),

    /// There is no such configuration, or it names an image that does not exist.
    Lost(Missing),
}

// Adds the texts of a value to names.
fn add_texts(alloc: Global, value: &[u8], names: &mut BTreeSet<Vec<u8>>) -> Result<(), AllocError>
    ensures { OnOk result ((name : List ℕ) → has_name names.new name
        ≡ (list_any (bytes_eq name) (pieces value.now) || has_name names.old name)) }
{
    let mut rest = value;
    while !rest.is_empty() {
        let text = before_nul(rest);
        let name = Vec::from_slice(alloc, text)?;
        names.insert(name)?;
        rest = behind(rest, text.len());
    }
    Ok(())
}

// Adds the names in the value of a property, if it has one.
fn add_names<S: Source>(
    alloc: Global,
    source: &mut S,
    value: Option<Span>,
    names: &mut BTreeSet<Vec<u8>>,
) -> Result<(), SurveyFault>
    requires { Ends (length (S.device source.old).bytes) value }
    ensures same { SameDevice (S.device source.old) (S.device source.new) }
    ensures own { IsOwn result }
    ensures told { HonestSource S.device source → OnOk result ((name : List ℕ) →
        has_name names.new name ≡ (list_any (bytes_eq name)
        (names_in (bytes_in (S.device source.old).bytes value)) || has_name names.old name)) }
{
    let Some(span) = value else {
        return Ok(());
    };
    let bytes = read_bytes(alloc, source, span)?;
    add_texts(alloc, bytes.as_slice(), names)?;
    Ok(())
}

fn names_given<S: Source>(
    alloc: Global,
    source: &mut S,
    properties: &[(Reference, Option<Span>)],
) -> Result<BTreeSet<Vec<u8>>, SurveyFault>
    requires { All (GivenInside (length (S.device source.old).bytes)) properties.now }
    ensures same { SameDevice (S.device source.old) (S.device source.new) }
    ensures own { IsOwn result }
    ensures told { HonestSource S.device source → IfOk result (λ names. HasNames names
        (names_among (map (read_given (S.device source.old).bytes) properties.now))) }
{
    let mut names = BTreeSet::new(alloc);
    for (_, value) in properties {
        add_names(alloc, source, *value, &mut names)?;
    }
    Ok(names)
}

// Returns the names of the images of a configuration, if images have all of them.
fn images_of<S: Source>(
    alloc: Global,
    source: &mut S,
    images: &BTreeSet<Vec<u8>>,
    configuration: &ConfigurationFacts,
) -> Result<Choice, SurveyFault>
    requires { ConfigurationInside (length (S.device source.old).bytes) configuration.now }
    ensures same { SameDevice (S.device source.old) (S.device source.new) }
    ensures own { IsOwn result }
    ensures told { IfHonest S.device source (λ file. (list : List (List ℕ)) →
        HasNames images.now list → IfOk result (IsChoice file
        (images_among list (read_configuration file configuration.now)))) }
{
    if let Some(missing) = missing_of(alloc, source, images, configuration)? {
        return Ok(Choice::Lost(missing));
    }
    let names = names_given(alloc, source, &given_by(configuration))?;
    Ok(Choice::Names(names))
}

fn find_configuration<'a, S: Source>(
    alloc: Global,
    source: &mut S,
    configurations: &'a [ConfigurationFacts],
    name: &[u8],
) -> Result<Option<&'a ConfigurationFacts>, SurveyFault>
    requires { All (ConfigurationInside (length (S.device source.old).bytes)) configurations.now }
    ensures same { SameDevice (S.device source.old) (S.device source.new) }
    ensures own { IsOwn result }
    ensures inside { IfOk result (λ found. IfSome found (λ it.
        ConfigurationInside (length (S.device source.old).bytes) it.now)) }
    ensures told { IfHonest S.device source (λ file. IfOk result (λ found.
        option_map (λ it. read_configuration file it.now) found
        ≡ configuration_of name.now (map (read_configuration file) configurations.now))) }
{
    for configuration in configurations {
        let its = read_bytes(alloc, source, configuration.name)?;
        if name == its.as_slice() {
            return Ok(Some(configuration));
        }
    }
    Ok(None)
}

// There is no configuration of a name that this property gives, or that is requested.
fn lost(alloc: Global, reference: Reference, name: &[u8]) -> Result<Choice, SurveyFault>
    ensures own { IsOwn result }
    ensures told { (file : List ℕ) →
        IfOk result (IsChoice file (Err (lost reference name.now))) }
{
    let name = Vec::from_slice(alloc, name)?;
    Ok(Choice::Lost(Missing {
        configuration: None,
        reference,
        name,
    }))
}

// Returns the names of the images of the default configuration.
fn default_images<S: Source>(
    alloc: Global,
    source: &mut S,
    survey: &Survey,
    images: &BTreeSet<Vec<u8>>,
) -> Result<Choice, SurveyFault>
    requires { SurveyInside (length (S.device source.old).bytes) survey.now }
    ensures same { SameDevice (S.device source.old) (S.device source.new) }
    ensures own { IsOwn result }
    ensures told { IfHonest S.device source (λ file.
        HasNames images.now (image_names_of (read_survey file survey.now)) →
        IfOk result (IsChoice file
        (default_images (read_survey file survey.now) (bytes_in file survey.now.preferred)))) }
{
    let Some(preferred) = survey.preferred else {
        return lost(alloc, Reference::Requested, b"default");
    };
    let value = read_bytes(alloc, source, preferred)?;
    if !is_ended(value.as_slice()) {
        return lost(alloc, Reference::Default, value.as_slice());
    }
    let name = before_nul(value.as_slice());
    match find_configuration(alloc, source, survey.configurations.as_slice(), name)? {
        Some(found) => images_of(alloc, source, images, found),
        None => lost(alloc, Reference::Default, name),
    }
}

// Returns the names of the images of the requested configuration.
#[tactic(auto, unfolding(crate::specs::Choices::images_named))]
fn choose<S: Source>(
    alloc: Global,
    source: &mut S,
    survey: &Survey,
    asked: &[u8],
) -> Result<Choice, SurveyFault>
    requires { SurveyInside (length (S.device source.old).bytes) survey.now }
    ensures same { SameDevice (S.device source.old) (S.device source.new) }
    ensures own { IsOwn result }
    ensures told { IfHonest S.device source (λ file. IfOk result (IsChoice file
        (images_named asked.now (read_survey file survey.now)))) }
{
    let images = image_names(alloc, source, survey.images.as_slice())?;
    match find_configuration(alloc, source, survey.configurations.as_slice(), asked)? {
        Some(found) => images_of(alloc, source, &images, found),
        None => {
            if asked == b"default".as_slice() {
                default_images(alloc, source, survey, &images)
            } else {
                lost(alloc, Reference::Requested, asked)
            }
        }
    }
}

fn choose_in<S: Source>(alloc: Global, asked: &[u8], source: &mut S) -> Result<Choice, SurveyFault>
    ensures same { SameDevice (S.device source.old) (S.device source.new) }
    ensures told { IfHonest S.device source (λ file.
        TellsChoice (chosen_by true asked.now file) file result) }
{
    let mut room = Room::new(alloc);
    let blob = read_tree(source, &mut room)?;
    let facts = survey(alloc, &blob, &room)?;
    choose(alloc, source, &facts, asked)
}

fn answer_of_choice<'a, S: Source>(
    choice: Result<Choice, SurveyFault>,
    source: &mut S,
    names: &'a mut Names,
) -> Result<BTreeSet<Vec<u8>>, Answer<'a>>
    ensures same { SameDevice (S.device source.old) (S.device source.new) }
    ensures chosen { IfHonest S.device source (λ file.
        (chosen : Result (List (List ℕ)) Unchosen) → TellsChoice chosen file choice →
        Chooses chosen result) }
{
    match choice {
        Ok(Choice::Names(names)) => Ok(names),
        Ok(Choice::Lost(missing)) => Err(answer_of_missing(missing, source, names)),
        Err(SurveyFault::Stopped(fault)) => Err(answer_of_fault(Fault::from(fault), names)),
        Err(SurveyFault::OutOfMemory) => Err(answer_of_fault(Fault::OutOfMemory, names)),
        Err(SurveyFault::Changed) => Err(CHANGED),
    }
}

/// Returns the names of the images that the configuration of a name gives, or the answer of a check
/// that shows why there are none: the image is refused, it has no such configuration, or the first
/// name in it that no image has. The name `default` is that of the default configuration, unless a
/// configuration has it. The properties `kernel`, `ramdisk`, `fdt`, `loadables`, `firmware`, `fpga`,
/// `setup`, `standalone` and `script` name images.
///
/// Indexes the blob, and reads the names of images and configurations and the values of this one,
/// these twice. The answer is also that a read failed, that memory was refused, or that the source
/// had other bytes when it was read again.
pub fn configuration_images<'a, S: Source>(
    alloc: Global,
    asked: &str,
    source: &mut S,
    names: &'a mut Names,
) -> Result<BTreeSet<Vec<u8>>, Answer<'a>>
    ensures same { SameDevice (S.device source.old) (S.device source.new) }
    ensures chosen { IfHonest S.device source (λ file.
        Chooses (chosen_of asked.now file) result) }
{
    match is_fit(Form::Guess, source) {
        Ok(true) => {
            let choice = choose_in(alloc, asked.as_bytes(), source);
            answer_of_choice(choice, source, names)
        }
        Ok(false) => Err(IS_LEGACY),
        Err(fault) => Err(answer_of_fault(Fault::from(fault), names)),
    }
}
