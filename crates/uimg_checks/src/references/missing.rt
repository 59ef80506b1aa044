//! Finds the first missing name.

ghost use Rattle.std.specs.Prelude.{◌≡◌, ◌+◌, ℕ, List, length, drop};
ghost use Rattle.std.specs.List.{All, find, sum_by};
ghost use Rattle.std.specs.Option.{option_map};
ghost use Rattle.uimg_base.specs.Using.{Asks};
ghost use Rattle.uimg_fit_reading.specs.Heads.{span_size};
ghost use Rattle.uimg_fit_checking.specs.SurveyParts.{IsOwn, ConfigurationInside, SurveyInside, is_unread};
ghost use Rattle.uimg_fit_reading.specs.PayloadPlaces.{Ends};
ghost use Rattle.uimg_fit_reading.specs.Values.{pieces};
ghost use Rattle.uimg_checks.specs.Given.{given_facts, GivenInside};
ghost use Rattle.uimg_checks.specs.ReferenceNames.{HasNames, is_lost, is_ended};
ghost use Rattle.uimg_checks.specs.ReferenceWork.{given_size, values_size, missing_work};
ghost use Rattle.uimg_checks.specs.References.{Seeks, TellsFirst, or_unended, under_property, among_properties, of_configuration, of_configurations};

use crate::references::names::{configuration_names, image_names};
use crate::references::reference::Reference;
use std::alloc::Global;
use std::collections::BTreeSet;
use uimg_base::{Source, Span, before_nul};
use uimg_fit_checking::{ConfigurationFacts, Survey, SurveyFault, read_bytes};

/// A name that no image, or no configuration, has, or a value that is no list of names.
#[derive(Drop)]
pub struct Missing {
    /// The span of the name of the configuration that gives it; none for the default, which the
    /// node `configurations` gives.
    pub configuration: Option<Span>,

    /// The property that gives it.
    pub reference: Reference,

    /// The name, or the whole value if it does not end with a NUL.
    pub name: Vec<u8>,
}

// Returns the bytes after a text and its NUL.
pub(crate) fn behind(bytes: &[u8], text: usize) -> &[u8]
    ensures { result.now ≡ drop (text + 1) bytes.now }
{
    if text < bytes.len() {
        &bytes[text + 1..]
    } else {
        &[]
    }
}

// Returns the first text of a value that is empty or not among these names.
fn lost_in<'a>(names: &BTreeSet<Vec<u8>>, value: &'a [u8]) -> Option<&'a [u8]>
    ensures { (list : List (List ℕ)) → HasNames names.now list →
        option_map (λ text. text.now) result ≡ find (is_lost list) (pieces value.now) }
{
    let mut rest = value;
    while !rest.is_empty() {
        let text = before_nul(rest);
        if text.is_empty() {
            return Some(text);
        }
        if !names.contains(text) {
            return Some(text);
        }
        rest = behind(rest, text.len());
    }
    None
}

#[tactic(auto, unfolding(crate::specs::ReferenceNames::is_ended))]
pub(crate) fn is_ended(value: &[u8]) -> bool
    ensures { result ≡ is_ended value.now }
{
    if value.is_empty() {
        return false;
    }
    value[value.len() - 1] == 0
}

// Returns a text that is lost, or else a value without its NUL.
fn or_unended<'a>(lost: Option<&'a [u8]>, value: &'a [u8]) -> Option<&'a [u8]>
    ensures { option_map (λ text. text.now) result
        ≡ or_unended (option_map (λ text. text.now) lost.entry) value.now }
{
    match lost {
        Some(text) => Some(text),
        None => { if is_ended(value) { None } else { Some(value) } }
    }
}

// Returns what is lost in a property's value, if it has one: a text, or a value without its NUL.
fn missing_under<S: Source>(
    alloc: Global,
    source: &mut S,
    names: &BTreeSet<Vec<u8>>,
    configuration: Option<Span>,
    reference: Reference,
    value: Option<Span>,
) -> Result<Option<Missing>, SurveyFault>
    requires { Ends (length (S.device source.old).bytes) value }
    ensures { Seeks (span_size value) (under_property configuration reference value)
        names.now result S.device source }
{
    let Some(span) = value else {
        return Ok(None);
    };
    let bytes = read_bytes(alloc, source, span)?;
    let value = bytes.as_slice();
    match or_unended(lost_in(names, value), value) {
        Some(name) => Ok(Some(Missing {
            configuration,
            reference,
            name: Vec::from_slice(alloc, name)?,
        })),
        None => Ok(None),
    }
}

// Returns the properties of a configuration that name images, in the order of the check.
pub(crate) fn given_by(configuration: &ConfigurationFacts) -> [(Reference, Option<Span>); 9]
    ensures { result ≡ given_facts configuration.now }
{
    [
        (Reference::Kernel, configuration.kernel),
        (Reference::Ramdisk, configuration.ramdisk),
        (Reference::Fdt, configuration.fdt),
        (Reference::Loadables, configuration.loadables),
        (Reference::Firmware, configuration.firmware),
        (Reference::Fpga, configuration.fpga),
        (Reference::Setup, configuration.setup),
        (Reference::Standalone, configuration.standalone),
        (Reference::Script, configuration.script),
    ]
}

fn missing_among<S: Source>(
    alloc: Global,
    source: &mut S,
    names: &BTreeSet<Vec<u8>>,
    configuration: Option<Span>,
    properties: &[(Reference, Option<Span>)],
) -> Result<Option<Missing>, SurveyFault>
    requires { All (GivenInside (length (S.device source.old).bytes)) properties.now }
    ensures { Seeks (sum_by given_size properties.now)
        (among_properties configuration properties.now) names.now result S.device source }
{
    for (reference, value) in properties {
        let found = missing_under(alloc, source, names, configuration, *reference, *value)?;
        if found.is_some() {
            return Ok(found);
        }
    }
    Ok(None)
}

pub(crate) fn missing_of<S: Source>(
    alloc: Global,
    source: &mut S,
    images: &BTreeSet<Vec<u8>>,
    configuration: &ConfigurationFacts,
) -> Result<Option<Missing>, SurveyFault>
    requires { ConfigurationInside (length (S.device source.old).bytes) configuration.now }
    ensures { Seeks (values_size configuration.now) (of_configuration configuration.now)
        images.now result S.device source }
{
    let given = given_by(configuration);
    missing_among(alloc, source, images, Some(configuration.name), &given)
}

fn first_missing<S: Source>(
    alloc: Global,
    source: &mut S,
    images: &BTreeSet<Vec<u8>>,
    configurations: &[ConfigurationFacts],
) -> Result<Option<Missing>, SurveyFault>
    requires { All (ConfigurationInside (length (S.device source.old).bytes)) configurations.now }
    ensures { Seeks (sum_by values_size configurations.now) (of_configurations configurations.now)
        images.now result S.device source }
{
    for configuration in configurations {
        let found = missing_of(alloc, source, images, configuration)?;
        if found.is_some() {
            return Ok(found);
        }
    }
    Ok(None)
}

/// Finds the first name that a FIT image uses but lacks. The first is its default, if no
/// configuration has this name. After that come the properties `kernel`, `ramdisk`, `fdt`,
/// `loadables`, `firmware`, `fpga`, `setup`, `standalone` and `script` of each configuration, in
/// this order: a name that no image has, or that is empty, or a value that does not end with a NUL.
/// Configurations are checked in their order, and each text of a value is a name.
///
/// Reads each name and each value once, up to the missing name, and holds the names and one value
/// in memory.
///
/// - `OutOfMemory`: that memory was refused.
/// - `Stopped`: a read failed.
pub fn find_missing<S: Source>(
    alloc: Global,
    source: &mut S,
    survey: &Survey,
) -> Result<Option<Missing>, SurveyFault>
    requires { SurveyInside (length (S.device source.old).bytes) survey.now }
    ensures uses { Asks (missing_work survey.now) (is_unread result)
        (S.device source.old) (S.device source.new) }
    ensures own { IsOwn result }
    ensures told { TellsFirst survey.now result S.device source }
{
    let configurations = survey.configurations.as_slice();
    let names = configuration_names(alloc, source, configurations)?;
    let preferred = missing_under(
        alloc,
        source,
        &names,
        None,
        Reference::Default,
        survey.preferred,
    )?;
    if preferred.is_some() {
        return Ok(preferred);
    }
    let images = image_names(alloc, source, survey.images.as_slice())?;
    first_missing(alloc, source, &images, configurations)
}
