//! The facts of configurations as objects.

ghost use Rattle.std.specs.{Prelude.{◌+◌, ◌<◌, length, map}, List.{All, sum_by}};
ghost use Rattle.json.specs.Tree.{json_tokens};
ghost use Rattle.uimg_blob_reading.specs.Places.{read_place, EndsBy};
ghost use Rattle.uimg_fit_checking.specs.FullSurvey.{read_properties, PlacesInside};
ghost use Rattle.uimg_fit_checking.specs.Survey.{read_name, read_configuration};
ghost use Rattle.uimg_fit_checking.specs.SurveyParts.{NameInside, ConfigurationInside};
ghost use Rattle.uimg_info.specs.Fit.{configuration_facts, node_json, property_json, configuration_json, configurations_json};
ghost use Rattle.uimg_printing.specs.Members.{array_of, tokens_of};
ghost use Rattle.uimg_info.specs.{Members.facts_members, Steps.PutsTokens};
ghost use Rattle.uimg_info.specs.Work.{node_size, configuration_rows_size, configuration_size, place_size, list_size};

use crate::facts::{put_object, put_rows};
use crate::forms::Form::{Text, Texts};
use json::Writer;
use std::alloc::Global;
use uimg_base::{Source, Span};
use uimg_blob_reading::PropertyPlace;
use uimg_fit_checking::{ConfigurationFacts, SurveyFault};
use uimg_printing::put_number;

fn put_node<S: Source>(
    alloc: Global,
    source: &mut S,
    writer: &mut Writer,
    name: Span,
) -> Result<(), SurveyFault>
    requires { NameInside (length (S.device source.old).bytes) name }
    ensures { PutsTokens (node_size name) result S.device source writer
        (λ file. json_tokens (node_json (read_name file name))) }
{
    put_object(alloc, source, writer, &[("name", Text, Some(name))])
}

fn put_nodes<S: Source>(
    alloc: Global,
    source: &mut S,
    writer: &mut Writer,
    nodes: &[Span],
) -> Result<(), SurveyFault>
    requires { All (NameInside (length (S.device source.old).bytes)) nodes.now }
    ensures { PutsTokens (sum_by node_size nodes.now) result S.device source writer
        (λ file. json_tokens (array_of (map node_json (map (read_name file) nodes.now)))) }
{
    writer.begin_array()?;
    for node in nodes {
        put_node(alloc, source, writer, *node)?;
    }
    writer.end_array()?;
    Ok(())
}

fn put_property<S: Source>(
    alloc: Global,
    source: &mut S,
    writer: &mut Writer,
    place: PropertyPlace,
) -> Result<(), SurveyFault>
    requires { EndsBy (length (S.device source.old).bytes) place }
    ensures { PutsTokens (place_size place) result S.device source writer
        (λ file. json_tokens (property_json (read_place file place))) }
{
    writer.begin_object()?;
    put_rows(alloc, source, writer, &[("name", Text, Some(place.name))])?;
    put_number(writer, "size", place.value.length)?;
    writer.end_object()?;
    Ok(())
}

fn put_properties<S: Source>(
    alloc: Global,
    source: &mut S,
    writer: &mut Writer,
    properties: &[PropertyPlace],
) -> Result<(), SurveyFault>
    requires { All (EndsBy (length (S.device source.old).bytes)) properties.now }
    ensures { PutsTokens (sum_by place_size properties.now) result S.device source writer
        (λ file. json_tokens (array_of
        (map property_json (map (read_place file) properties.now)))) }
{
    writer.begin_array()?;
    for property in properties {
        put_property(alloc, source, writer, *property)?;
    }
    writer.end_array()?;
    Ok(())
}

fn put_configuration_rows<S: Source>(
    alloc: Global,
    source: &mut S,
    writer: &mut Writer,
    facts: &ConfigurationFacts,
) -> Result<(), SurveyFault>
    requires { ConfigurationInside (length (S.device source.old).bytes) facts.now }
    ensures { PutsTokens (configuration_rows_size facts.now) result S.device source writer
        (λ file. tokens_of (facts_members
        (configuration_facts (read_configuration file facts.now)))) }
{
    let rows = [
        ("name", Text, Some(facts.name)),
        ("description", Text, facts.description),
        ("kernel", Text, facts.kernel),
        ("ramdisk", Text, facts.ramdisk),
        ("fdt", Texts, facts.fdt),
        ("loadables", Texts, facts.loadables),
        ("firmware", Text, facts.firmware),
        ("fpga", Text, facts.fpga),
        ("setup", Text, facts.setup),
        ("standalone", Text, facts.standalone),
        ("script", Text, facts.script),
    ];
    put_rows(alloc, source, writer, &rows)
}

#[tactic(auto, unfolding(crate::specs::Work::configuration_size))]
fn put_configuration<S: Source>(
    alloc: Global,
    source: &mut S,
    writer: &mut Writer,
    facts: &ConfigurationFacts,
    properties: &[PropertyPlace],
) -> Result<(), SurveyFault>
    requires facts { ConfigurationInside (length (S.device source.old).bytes) facts.now }
    requires properties { All (EndsBy (length (S.device source.old).bytes)) properties.now }
    ensures { PutsTokens (configuration_size facts.now + sum_by place_size properties.now)
        result S.device source writer (λ file. json_tokens (configuration_json
        (read_configuration file facts.now) (map (read_place file) properties.now))) }
{
    writer.begin_object()?;
    put_configuration_rows(alloc, source, writer, facts)?;
    writer.key("nodes")?;
    put_nodes(alloc, source, writer, facts.nodes.as_slice())?;
    writer.key("properties")?;
    put_properties(alloc, source, writer, properties)?;
    writer.end_object()?;
    Ok(())
}

pub(crate) fn put_configurations<S: Source>(
    alloc: Global,
    source: &mut S,
    writer: &mut Writer,
    configurations: &[ConfigurationFacts],
    properties: &[Vec<PropertyPlace>],
) -> Result<(), SurveyFault>
    requires facts { All (ConfigurationInside (length (S.device source.old).bytes))
        configurations.now }
    requires properties { All (PlacesInside (length (S.device source.old).bytes)) properties.now }
    ensures { PutsTokens
        (sum_by configuration_size configurations.now + sum_by list_size properties.now)
        result S.device source writer (λ file. json_tokens (array_of (configurations_json
        (map (read_configuration file) configurations.now)
        (map (read_properties file) properties.now)))) }
{
    writer.begin_array()?;
    for i in 0..configurations.len().min(properties.len()) {
        put_configuration(
            alloc,
            source,
            writer,
            &configurations[i],
            properties[i].as_slice(),
        )?;
    }
    writer.end_array()?;
    Ok(())
}
