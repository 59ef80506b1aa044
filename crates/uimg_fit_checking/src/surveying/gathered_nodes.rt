//! Collects the facts of images, hash nodes and configurations from the nodes of an indexed blob.

ghost use Rattle.std.specs.Prelude.{◌≡◌, ◌<◌, length, IfOk, true};
ghost use Rattle.uimg_blob_reading.specs.LookUps.{hashes};
ghost use Rattle.uimg_blob_reading.specs.Roles.{in_image, in_images, in_configurations, is_hash};
ghost use Rattle.uimg_fit_reading.specs.Nodes.{AtLevel, IsEntry, IsEntryOrNone, InAnyFile, FromNode, FromHash};
ghost use Rattle.uimg_fit_checking.specs.Survey.{hash_said, image_said, configuration_said, name_of_node, read_name, read_hash, read_image, read_configuration, Say};
ghost use Rattle.uimg_fit_checking.specs.SurveyParts.{NameInside, HashInside, ImageInside, ConfigurationInside, AllInside};

use crate::surveying::facts::{ConfigurationFacts, HashFacts, ImageFacts};
use std::alloc::{AllocError, Allocator, Global};
use uimg_base::{Room, Span};
use uimg_blob_reading::{Blob, Key};
use uimg_fit_reading::nodes::{child_of, first_hash, name_of, next_hash, next_of, value_of};
use uimg_fit_reading::payload_facts;

fn hash_facts<A: Allocator>(blob: &Blob, room: &Room<A>, hash: usize) -> HashFacts
    requires { hash < length room.now.entries }
    ensures inside { InAnyFile blob.now room.now (λ size. HashInside size result) }
    ensures said { AtLevel blob.now room.now in_image hash
        (λ file found. is_hash found.name ≡ true → read_hash file result ≡ hash_said found) }
{
    HashFacts {
        name: name_of(blob, room, hash),
        algo: value_of(blob, room, hash, Key::Algo),
        value: value_of(blob, room, hash, Key::Value),
    }
}

fn gather_hashes<A: Allocator>(
    alloc: Global,
    blob: &Blob,
    room: &Room<A>,
    first: Option<usize>,
) -> Result<Vec<HashFacts>, AllocError>
    requires { IsEntryOrNone blob.now room.now first }
    ensures inside { InAnyFile blob.now room.now (AllInside HashInside result) }
    ensures said { FromHash blob.now room.now first (Say read_hash hash_said result) }
{
    let mut facts = Vec::new(alloc);
    let mut next = first;
    while let Some(hash) = next {
        facts.push(hash_facts(blob, room, hash))?;
        next = next_hash(blob, room, hash);
    }
    Ok(facts)
}

fn image_facts<A: Allocator>(
    alloc: Global,
    blob: &Blob,
    room: &Room<A>,
    image: usize,
) -> Result<ImageFacts, AllocError>
    requires { IsEntry blob.now room.now image }
    ensures inside { InAnyFile blob.now room.now (λ size. IfOk result (ImageInside size)) }
    ensures said { AtLevel blob.now room.now in_images image
        (λ file found. IfOk result (λ facts. read_image file facts ≡ image_said found)) }
{
    let hashes = gather_hashes(alloc, blob, room, first_hash(blob, room, image))?;
    Ok(ImageFacts {
        name: name_of(blob, room, image),
        description: value_of(blob, room, image, Key::Description),
        kind: value_of(blob, room, image, Key::Kind),
        arch: value_of(blob, room, image, Key::Arch),
        os: value_of(blob, room, image, Key::Os),
        compression: value_of(blob, room, image, Key::Compression),
        load: value_of(blob, room, image, Key::Load),
        entry: value_of(blob, room, image, Key::Entry),
        payload: payload_facts(blob, room, image),
        hashes,
    })
}

pub(super) fn gather_images<A: Allocator>(
    alloc: Global,
    blob: &Blob,
    room: &Room<A>,
    first: Option<usize>,
) -> Result<Vec<ImageFacts>, AllocError>
    requires { IsEntryOrNone blob.now room.now first }
    ensures inside { InAnyFile blob.now room.now (AllInside ImageInside result) }
    ensures said { FromNode blob.now room.now in_images first (Say read_image image_said result) }
{
    let mut facts = Vec::new(alloc);
    let mut next = first;
    while let Some(image) = next {
        facts.push(image_facts(alloc, blob, room, image)?)?;
        next = next_of(blob, room, image);
    }
    Ok(facts)
}

fn gather_names<A: Allocator>(
    alloc: Global,
    blob: &Blob,
    room: &Room<A>,
    first: Option<usize>,
) -> Result<Vec<Span>, AllocError>
    requires { IsEntryOrNone blob.now room.now first }
    ensures inside { InAnyFile blob.now room.now (AllInside NameInside result) }
    ensures said { FromNode blob.now room.now in_image first (Say read_name name_of_node result) }
{
    let mut names = Vec::new(alloc);
    let mut next = first;
    while let Some(node) = next {
        names.push(name_of(blob, room, node))?;
        next = next_of(blob, room, node);
    }
    Ok(names)
}

fn configuration_facts<A: Allocator>(
    alloc: Global,
    blob: &Blob,
    room: &Room<A>,
    configuration: usize,
) -> Result<ConfigurationFacts, AllocError>
    requires { IsEntry blob.now room.now configuration }
    ensures inside { InAnyFile blob.now room.now (λ size. IfOk result (ConfigurationInside size)) }
    ensures said { AtLevel blob.now room.now in_configurations configuration (λ file found.
        IfOk result (λ facts. read_configuration file facts ≡ configuration_said found)) }
{
    let nodes = gather_names(alloc, blob, room, child_of(blob, room, configuration))?;
    Ok(ConfigurationFacts {
        name: name_of(blob, room, configuration),
        description: value_of(blob, room, configuration, Key::Description),
        kernel: value_of(blob, room, configuration, Key::Kernel),
        ramdisk: value_of(blob, room, configuration, Key::Ramdisk),
        fdt: value_of(blob, room, configuration, Key::Fdt),
        loadables: value_of(blob, room, configuration, Key::Loadables),
        firmware: value_of(blob, room, configuration, Key::Firmware),
        fpga: value_of(blob, room, configuration, Key::Fpga),
        setup: value_of(blob, room, configuration, Key::Setup),
        standalone: value_of(blob, room, configuration, Key::Standalone),
        script: value_of(blob, room, configuration, Key::Script),
        nodes,
    })
}

pub(super) fn gather_configurations<A: Allocator>(
    alloc: Global,
    blob: &Blob,
    room: &Room<A>,
    first: Option<usize>,
) -> Result<Vec<ConfigurationFacts>, AllocError>
    requires { IsEntryOrNone blob.now room.now first }
    ensures inside { InAnyFile blob.now room.now (AllInside ConfigurationInside result) }
    ensures said { FromNode blob.now room.now in_configurations first
        (Say read_configuration configuration_said result) }
{
    let mut facts = Vec::new(alloc);
    let mut next = first;
    while let Some(configuration) = next {
        facts.push(configuration_facts(alloc, blob, room, configuration)?)?;
        next = next_of(blob, room, configuration);
    }
    Ok(facts)
}
