//! Queries on an indexed blob.
ghost use Rattle.std.specs.Prelude.{◌<◌, length};

use super::super::answers::is_said;
use super::made::{made, shown};
use std::alloc::{AllocError, Global};
use std::process::Abort;
use std::test::Fail;
use uimg_base::{MemSource, Room, Span};
use uimg_blob_reading::{Blob, Key, index};

// The keys but for those of signatures only, in the order of the documentation, with the names of
// their properties.
const KEYS: [(&str, Key); 24] = [
    ("description", Key::Description),
    ("timestamp", Key::Timestamp),
    ("data", Key::Data),
    ("type", Key::Kind),
    ("arch", Key::Arch),
    ("os", Key::Os),
    ("compression", Key::Compression),
    ("load", Key::Load),
    ("entry", Key::Entry),
    ("data-size", Key::DataSize),
    ("data-offset", Key::DataOffset),
    ("data-position", Key::DataPosition),
    ("algo", Key::Algo),
    ("value", Key::Value),
    ("default", Key::Default),
    ("kernel", Key::Kernel),
    ("ramdisk", Key::Ramdisk),
    ("fdt", Key::Fdt),
    ("loadables", Key::Loadables),
    ("firmware", Key::Firmware),
    ("fpga", Key::Fpga),
    ("setup", Key::Setup),
    ("standalone", Key::Standalone),
    ("script", Key::Script),
];

fn key_of(name: &str) -> Option<Key> {
    for (known, key) in &KEYS {
        if *known == name {
            return Some(*key);
        }
    }
    None
}

fn placed(alloc: Global, span: Option<Span>) -> Result<String, AllocError> {
    match span {
        Some(Span { place, length }) => format!(in alloc; "{place}+{length}"),
        None => format!(in alloc; "none"),
    }
}

// Returns a node's first child, its next sibling, and whether it is a hash node.
fn links(alloc: Global, blob: Blob, room: &Room<Global>, node: usize) -> Result<String, AllocError>
    requires { node < length room.now.entries }
{
    let child = shown(blob.first_child(room, node));
    let next = shown(blob.next_sibling(room, node));
    let kind = if blob.is_hash(room, node) {
        "hash"
    } else {
        "-"
    };
    format!(in alloc; "{child} {next} {kind}")
}

// Returns the keys for which a node has values.
fn kept(alloc: Global, blob: Blob, room: &Room<Global>, node: usize) -> Result<String, AllocError>
    requires { node < length room.now.entries }
{
    let mut names = String::new(alloc);
    for (name, key) in &KEYS {
        if blob.value(room, node, *key).is_some() {
            names.push_str(name)?;
            names.push_str(" ")?;
        }
    }
    Ok(names)
}

// Returns the result of a query on a node; any other word is the name of a key's property.
fn looked_up(
    alloc: Global,
    blob: Blob,
    room: &Room<Global>,
    node: usize,
    what: &str,
) -> Result<String, AllocError> {
    if node >= room.count() {
        return format!(in alloc; "no node");
    }
    match what {
        "links" => links(alloc, blob, room, node),
        "name" => placed(alloc, Some(blob.name(room, node))),
        "kept" => kept(alloc, blob, room, node),
        _ => match key_of(what) {
            Some(key) => placed(alloc, blob.value(room, node, key)),
            None => format!(in alloc; "no key"),
        },
    }
}

// A blob in which nodes at other depths have the names of roles.
const ALIKE: &str = "+images,|hash,+images,+images,+hash@1,|hash,-,-,-,+images,|hash,-,-";

// A name, a blob, the number of a node, the query, and its result.
const ROWS: [(&str, &str, usize, &str, &str); 45] = [
    ("four-hash-fit", "demo", 0, "links", "1 - -"),
    ("four-hash-fit", "demo", 1, "links", "2 7 -"),
    ("four-hash-fit", "demo", 2, "links", "3 - -"),
    ("four-hash-fit", "demo", 3, "links", "- 4 hash"),
    ("four-hash-fit", "demo", 4, "links", "- 5 hash"),
    ("four-hash-fit", "demo", 5, "links", "- 6 hash"),
    ("four-hash-fit", "demo", 6, "links", "- - hash"),
    ("four-hash-fit", "demo", 7, "links", "8 - -"),
    ("four-hash-fit", "demo", 8, "links", "- - -"),
    ("four-hash-fit", "demo", 0, "name", "60+0"),
    ("four-hash-fit", "demo", 2, "name", "132+6"),
    ("four-hash-fit", "demo", 6, "name", "468+6"),
    ("four-hash-fit", "demo", 0, "description", "76+5"),
    ("four-hash-fit", "demo", 0, "timestamp", "112+4"),
    ("four-hash-fit", "demo", 0, "data", "none"),
    ("four-hash-fit", "demo", 1, "description", "none"),
    ("four-hash-fit", "demo", 2, "description", "152+2"),
    ("four-hash-fit", "demo", 2, "data", "168+3"),
    ("four-hash-fit", "demo", 2, "type", "184+7"),
    ("four-hash-fit", "demo", 2, "entry", "280+4"),
    ("four-hash-fit", "demo", 2, "data-size", "none"),
    ("four-hash-fit", "demo", 2, "algo", "none"),
    ("four-hash-fit", "demo", 3, "algo", "308+6"),
    ("four-hash-fit", "demo", 3, "value", "328+4"),
    ("four-hash-fit", "demo", 7, "default", "584+5"),
    ("four-hash-fit", "demo", 8, "description", "616+2"),
    ("four-hash-fit", "demo", 8, "kernel", "632+7"),
    ("four-hash-fit", "demo", 8, "fdt", "none"),
    ("roles that look alike", ALIKE, 0, "links", "1 - -"),
    ("roles that look alike", ALIKE, 1, "links", "- 2 -"),
    ("roles that look alike", ALIKE, 2, "links", "3 6 -"),
    ("roles that look alike", ALIKE, 3, "links", "4 - -"),
    ("roles that look alike", ALIKE, 4, "links", "5 - hash"),
    ("roles that look alike", ALIKE, 5, "links", "- - -"),
    ("roles that look alike", ALIKE, 6, "links", "7 - -"),
    ("roles that look alike", ALIKE, 7, "links", "- - -"),
    (
        "a name of 255 bytes",
        "+,+images,+~,-,-,-",
        2,
        "name",
        "80+255",
    ),
    (
        "the first property counts",
        ".,+,.,0=first,.,0=again,.,+images,.,-,.,-,./description;",
        0,
        "description",
        "84+5",
    ),
    (
        "the first property counts",
        "+,0=x,4=abcd,4=12345678,-/foo;timestamp;",
        0,
        "timestamp",
        "92+4",
    ),
    (
        "blocks that overlap",
        "+,0=timestamp;,-/0123456789 12=0000004c",
        0,
        "timestamp",
        "76+10",
    ),
    (
        "blocks that overlap",
        "+,0=timestamp;,-/0123456789 12=0000004c",
        0,
        "data",
        "none",
    ),
    ("many siblings", "+,1000*|n,-", 0, "links", "1 - -"),
    ("many siblings", "+,1000*|n,-", 1000, "links", "- - -"),
    ("mixed-values", "mixed", 0, "links", "- - -"),
    ("mixed-values", "mixed", 0, "name", "60+0"),
];

// Blobs with one property, of a node of each role.
const ROOT: &str = "+,0=x,-";

const IMAGE: &str = "+,+images,+a,0=x,-,-,-";

const HASH: &str = "+,+images,+a,+hash,0=x,-,-,-,-";

const CONFIGURATIONS: &str = "+,+configurations,0=x,-,-";

const CONFIGURATION: &str = "+,+configurations,+a,0=x,-,-,-";

// A blob with one property, the number of its node, the property's name, and its value's place.
const PROPERTIES: [(&str, usize, &str, &str); 26] = [
    (ROOT, 0, "description", "76+1"),
    (ROOT, 0, "timestamp", "76+1"),
    (IMAGE, 2, "description", "96+1"),
    (IMAGE, 2, "data", "96+1"),
    (IMAGE, 2, "type", "96+1"),
    (IMAGE, 2, "arch", "96+1"),
    (IMAGE, 2, "os", "96+1"),
    (IMAGE, 2, "compression", "96+1"),
    (IMAGE, 2, "load", "96+1"),
    (IMAGE, 2, "entry", "96+1"),
    (IMAGE, 2, "data-size", "96+1"),
    (IMAGE, 2, "data-offset", "96+1"),
    (IMAGE, 2, "data-position", "96+1"),
    (HASH, 3, "algo", "108+1"),
    (HASH, 3, "value", "108+1"),
    (CONFIGURATIONS, 1, "default", "96+1"),
    (CONFIGURATION, 2, "description", "104+1"),
    (CONFIGURATION, 2, "kernel", "104+1"),
    (CONFIGURATION, 2, "ramdisk", "104+1"),
    (CONFIGURATION, 2, "fdt", "104+1"),
    (CONFIGURATION, 2, "loadables", "104+1"),
    (CONFIGURATION, 2, "firmware", "104+1"),
    (CONFIGURATION, 2, "fpga", "104+1"),
    (CONFIGURATION, 2, "setup", "104+1"),
    (CONFIGURATION, 2, "standalone", "104+1"),
    (CONFIGURATION, 2, "script", "104+1"),
];

// The same with a property that has no key, so no value is kept.
const OTHERS: [(&str, usize, &str); 9] = [
    (IMAGE, 2, ""),
    (IMAGE, 2, "Data"),
    (IMAGE, 2, "dat"),
    (IMAGE, 2, "data-"),
    (IMAGE, 2, "loadable"),
    (CONFIGURATION, 2, "firm"),
    (CONFIGURATION, 2, "scripts"),
    (IMAGE, 2, "images"),
    (IMAGE, 2, "hash-1"),
];

// A blob with all properties, the number of their node, and the keys whose values are kept.
const KEPT: [(&str, usize, &str); 8] = [
    ("+,ALL,-", 0, "description timestamp "),
    ("+,+images,ALL,-,-", 1, ""),
    (
        "+,+images,+a,ALL,-,-,-",
        2,
        "description data type arch os compression load entry data-size data-offset data-position ",
    ),
    ("+,+images,+a,+hash,ALL,-,-,-,-", 3, "algo value "),
    ("+,+configurations,ALL,-,-", 1, "default "),
    (
        "+,+configurations,+a,ALL,-,-,-",
        2,
        "description kernel ramdisk fdt loadables firmware fpga setup standalone script ",
    ),
    ("+,+a,ALL,-,-", 1, ""),
    ("+,+images,+a,+b,ALL,-,-,-,-", 3, ""),
];

// The name of a node in an image, and the result for the node.
const IN_IMAGE: [(&str, &str); 7] = [
    ("hash", "- - hash"),
    ("hash-1", "- - hash"),
    ("hash@1", "- - hash"),
    ("", "- - -"),
    ("has", "- - -"),
    ("a-hash", "- - -"),
    ("Hash", "- - -"),
];

fn found_in(alloc: Global, bytes: &[u8], node: usize, what: &str) -> Result<String, AllocError> {
    let mut room = Room::new(alloc);
    match index(&mut MemSource::new(bytes), &mut room) {
        Ok(blob) => looked_up(alloc, blob, &room, node, what),
        Err(fault) => format!(in alloc; "refused: {fault}"),
    }
}

fn is_found<R: AllocGlobal + Abort>(
    rt: &R,
    name: &str,
    text: &str,
    node: usize,
    what: &str,
    wanted: &str,
) -> Result<(), Fail> {
    let bytes = made(rt.alloc(), text)?;
    let found = found_in(rt.alloc(), &bytes, node, what);
    is_said(rt, found, wanted, name, node as u64);
    Ok(())
}

#[test]
fn node_rows(rt: HostRuntime) -> Result<(), Fail> {
    for (name, text, node, what, wanted) in &ROWS {
        is_found(&rt, name, text, *node, what, wanted)?;
    }
    Ok(())
}

#[test]
fn each_property(rt: HostRuntime) -> Result<(), Fail> {
    for (blob, node, name, wanted) in &PROPERTIES {
        let text = format!(in rt.alloc(); "{blob}/{name};")?;
        is_found(&rt, name, text.as_str(), *node, name, wanted)?;
    }
    for (blob, node, name) in &OTHERS {
        let text = format!(in rt.alloc(); "{blob}/{name};")?;
        is_found(&rt, name, text.as_str(), *node, "kept", "")?;
    }
    Ok(())
}

#[test]
fn each_role(rt: HostRuntime) -> Result<(), Fail> {
    for (blob, node, wanted) in &KEPT {
        let text = format!(in rt.alloc(); "{blob}/KEYS")?;
        is_found(&rt, blob, text.as_str(), *node, "kept", wanted)?;
    }
    for (name, wanted) in &IN_IMAGE {
        let text = format!(in rt.alloc(); "+,+images,+a,|{name},-,-,-")?;
        is_found(&rt, name, text.as_str(), 3, "links", wanted)?;
    }
    Ok(())
}
