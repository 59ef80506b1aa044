//! The names of images and configurations, as a set.

ghost use Rattle.std.specs.Prelude.{◌+◌, ◌≤◌, length, map};
ghost use Rattle.std.specs.Result.{OnOk};
ghost use Rattle.std.specs.List.{All, sum_by};
ghost use Rattle.uimg_base.specs.Honest.{HonestSource};
ghost use Rattle.uimg_base.specs.Using.{Asks};
ghost use Rattle.uimg_fit_checking.specs.SurveyParts.{is_unread, IsOwn, ImageInside, ConfigurationInside};
ghost use Rattle.uimg_checks.specs.ReferenceNames.{name_in_span, image_name_in, configuration_name_in, AddsName, TellsNames};

use std::alloc::Global;
use std::collections::BTreeSet;
use uimg_base::{Source, Span};
use uimg_fit_checking::{ConfigurationFacts, ImageFacts, SurveyFault, read_bytes};

fn add_name<S: Source>(
    alloc: Global,
    source: &mut S,
    span: Span,
    names: &mut BTreeSet<Vec<u8>>,
) -> Result<(), SurveyFault>
    requires { span.place + span.length ≤ length (S.device source.old).bytes }
    ensures uses { Asks span.length (is_unread result) (S.device source.old) (S.device source.new) }
    ensures own { IsOwn result }
    ensures told { HonestSource S.device source →
        OnOk result (AddsName (name_in_span (S.device source.old).bytes span) names.old names.new) }
{
    let name = read_bytes(alloc, source, span)?;
    let Ok(_is_new) = names.insert(name) else {
        return Err(SurveyFault::OutOfMemory);
    };
    Ok(())
}

pub(crate) fn image_names<S: Source>(
    alloc: Global,
    source: &mut S,
    images: &[ImageFacts],
) -> Result<BTreeSet<Vec<u8>>, SurveyFault>
    requires { All (ImageInside (length (S.device source.old).bytes)) images.now }
    ensures uses { Asks (sum_by (λ i. i.name.length) images.now) (is_unread result)
        (S.device source.old) (S.device source.new) }
    ensures own { IsOwn result }
    ensures told { TellsNames (λ file. map (image_name_in file) images.now) result S.device source }
{
    let mut names = BTreeSet::new(alloc);
    for image in images {
        add_name(alloc, source, image.name, &mut names)?;
    }
    Ok(names)
}

pub(crate) fn configuration_names<S: Source>(
    alloc: Global,
    source: &mut S,
    configurations: &[ConfigurationFacts],
) -> Result<BTreeSet<Vec<u8>>, SurveyFault>
    requires { All (ConfigurationInside (length (S.device source.old).bytes)) configurations.now }
    ensures uses { Asks (sum_by (λ c. c.name.length) configurations.now) (is_unread result)
        (S.device source.old) (S.device source.new) }
    ensures own { IsOwn result }
    ensures told { TellsNames (λ file. map (configuration_name_in file) configurations.now)
        result S.device source }
{
    let mut names = BTreeSet::new(alloc);
    for configuration in configurations {
        add_name(alloc, source, configuration.name, &mut names)?;
    }
    Ok(names)
}
