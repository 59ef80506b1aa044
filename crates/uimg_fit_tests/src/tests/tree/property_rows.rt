//! The properties of a node of an indexed blob.
ghost use Rattle.std.specs.Prelude.{◌<◌, length};

use super::super::answers::is_said;
use super::made::made;
use std::alloc::{AllocError, Global};
use std::test::Fail;
use uimg_base::{FuseSource, MemSource, Room, Source, Span};
use uimg_blob_reading::{Blob, PropertiesFault, PropertyPlace, index, properties_of};

fn text_at(bytes: &[u8], span: Span) -> &str {
    let from = bytes.get(span.place as usize..).unwrap_or(b"?");
    let text = from.get(..span.length as usize).unwrap_or(b"?");
    str::from_utf8(text).unwrap_or("?")
}

fn listed(alloc: Global, bytes: &[u8], places: &[PropertyPlace]) -> Result<String, AllocError> {
    let mut list = String::new(alloc);
    for PropertyPlace { name, value } in places {
        let Span { place, length } = *value;
        let stands = format!(in alloc; "={place}+{length} ")?;
        list.push_str(text_at(bytes, *name))?;
        list.push_str(&stands)?;
    }
    Ok(list)
}

// Returns the properties of a node whose blob is read again from these bytes.
fn told(
    alloc: Global,
    bytes: &[u8],
    blob: Blob,
    room: &mut Room<Global>,
    node: usize,
) -> Result<String, AllocError> {
    if node >= room.count() {
        return format!(in alloc; "no node");
    }
    match properties_of(alloc, &mut MemSource::new(bytes), &blob, room, node) {
        Ok(places) => listed(alloc, bytes, &places),
        Err(fault) => format!(in alloc; "{fault}"),
    }
}

// The node is of a blob that is indexed first.
fn told_of(alloc: Global, indexed: &[u8], bytes: &[u8], node: usize) -> Result<String, AllocError> {
    let mut room = Room::new(alloc);
    match index(&mut MemSource::new(indexed), &mut room) {
        Ok(blob) => told(alloc, bytes, blob, &mut room, node),
        Err(fault) => format!(in alloc; "refused: {fault}"),
    }
}

// A name, a blob, the number of a node, and its properties.
const ROWS: [(&str, &str, usize, &str); 14] = [
    (
        "four-hash-fit",
        "demo",
        0,
        "description=76+5 #address-cells=96+4 timestamp=112+4 ",
    ),
    ("four-hash-fit", "demo", 1, ""),
    (
        "four-hash-fit",
        "demo",
        2,
        "description=152+2 data=168+3 type=184+7 arch=204+6 os=224+6 compression=244+5 load=264+4 entry=280+4 ",
    ),
    ("four-hash-fit", "demo", 3, "algo=308+6 value=328+4 "),
    ("four-hash-fit", "demo", 7, "default=584+5 "),
    (
        "four-hash-fit",
        "demo",
        8,
        "description=616+2 kernel=632+7 ",
    ),
    ("mixed-values", "mixed", 0, "v=76+12 e=100+0 "),
    (
        "names of no key, and one twice",
        "+,0=x,4=abcd,4=12345678,-/foo;timestamp;",
        0,
        "foo=76+1 timestamp=92+4 timestamp=108+8 ",
    ),
    (
        "NOPs between",
        ".,+,.,.,0=first,.,0=again,.,+images,.,-,.,-,./description;",
        0,
        "description=88+5 description=112+5 ",
    ),
    ("NOPs alone", "+,+a,.,.,-,0*.,-/", 1, ""),
    (
        "an end of a name",
        "+,5=x,-/data-position;",
        0,
        "position=76+1 ",
    ),
    ("an empty name", "+,3=x,-/foo;", 0, "=76+1 "),
    (
        "blocks that overlap",
        "+,0=timestamp;,-/0123456789 12=0000004c",
        0,
        "timestamp=76+10 ",
    ),
    (
        "children that are no properties",
        "+,0=x,|a,|b,-/foo;",
        0,
        "foo=76+1 ",
    ),
];

#[test]
fn property_rows(rt: HostRuntime) -> Result<(), Fail> {
    for (name, text, node, wanted) in &ROWS {
        let bytes = made(rt.alloc(), text)?;
        let found = told_of(rt.alloc(), &bytes, &bytes, *node);
        is_said(&rt, found, wanted, name, *node as u64);
    }
    Ok(())
}

// A blob, the content of its file when its root's properties are read, and the result.
const CHANGED_ROWS: [(&str, &str, &str); 7] = [
    ("+,0=x,-/foo;", "+,0=x,-/bar;", "bar=76+1 "),
    (
        "+,0=x,-/foo;",
        "+,0=x,-/foobar;",
        "changed while it was read",
    ),
    ("+,0=x,-/foo;", "hex:d00dfeed", "changed while it was read"),
    (
        "+,0=x,-/foo;",
        "+,0=x,-/foo; 64=00000009",
        "changed while it was read",
    ),
    (
        "+,0=x,-/foo;",
        "+,0=x,-/foo; 64=00000005",
        "changed while it was read",
    ),
    (
        "+,0=x,-/foo;",
        "+,0=x,-/foo; 72=00000004",
        "changed while it was read",
    ),
    ("+,0=x,-/foo;", "+,0=x,-/foo; 64=00000002", ""),
];

#[test]
fn changed_rows(rt: HostRuntime) -> Result<(), Fail> {
    for (indexed, text, wanted) in &CHANGED_ROWS {
        let first = made(rt.alloc(), indexed)?;
        let bytes = made(rt.alloc(), text)?;
        let found = told_of(rt.alloc(), &first, &bytes, 0);
        is_said(&rt, found, wanted, text, 0);
    }
    Ok(())
}

// Returns the result for the root over a source that lets `calls` calls through: `.` for its
// properties, `r` if the read failed and was counted, `?` for anything else.
fn answer(alloc: Global, bytes: &[u8], blob: Blob, room: &mut Room<Global>, calls: u64) -> u8 {
    let mut source = FuseSource::new(MemSource::new(bytes), calls);
    if room.count() == 0 {
        return b'?';
    }
    match properties_of(alloc, &mut source, &blob, room, 0) {
        Ok(_) => b'.',
        Err(PropertiesFault::Read) if source.failures() == 1 => b'r',
        Err(_) => b'?',
    }
}

fn calls_needed(alloc: Global, bytes: &[u8], most: u64) -> Option<u64> {
    let mut room = Room::new(alloc);
    let blob = index(&mut MemSource::new(bytes), &mut room).ok()?;
    for calls in 0..most {
        match answer(alloc, bytes, blob, &mut room, calls) {
            b'.' => return Some(calls),
            b'r' => {}
            _ => return None,
        }
    }
    None
}

// Two calls are for the header, three for each property, and one for the token after them.
#[test]
fn property_reads_fail_in_turn(rt: HostRuntime) -> Result<(), Fail> {
    for (text, calls) in [("mixed", 9), ("demo", 12), ("+,.,.,-", 5)] {
        let bytes = made(rt.alloc(), text)?;
        assert_eq!(rt; calls_needed(rt.alloc(), &bytes, 20), Some(calls), "{text}");
    }
    Ok(())
}
