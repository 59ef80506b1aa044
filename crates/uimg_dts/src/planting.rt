//! The tree that the tables hold.

ghost use Rattle.std.specs.Prelude.{◌≡◌, IfOk, OnOk, map};
ghost use Rattle.uimg_base.specs.Named.{FileMap};
ghost use Rattle.uimg_blob_writing.specs.Properties.{property, content};
ghost use Rattle.uimg_dts.specs.Answers.{OpensFiles};
ghost use Rattle.uimg_dts.specs.FileValues.{IsSoundIn, AreSound, IsSoundTree, IsSoundNode, AreSoundNodes, IsSoundIfFound};

use crate::bytes::after;
use crate::fault::Refusal;
use crate::finding::ROOT;
use crate::opening::{WHOLE, kept, read_file};
use crate::stop::{FileStop, Stop, at, out_of_memory, refused};
use crate::table::{MarkKind, PropertyEntry, Table};
use std::alloc::Allocator;
use uimg_base::Files;
use uimg_blob_writing::{ByteList, Node, Nodes, Prop, Props, Value};

/// The most levels of a tree.
const MOST_LEVELS: u8 = 64;

fn append<A: Allocator>(out: &mut Vec<u8, A>, bytes: &[u8]) -> Result<(), Stop> {
    match out.extend_from_slice(bytes) {
        Ok(()) => Ok(()),
        Err(_) => Err(out_of_memory(0)),
    }
}

fn copied<A: Allocator>(alloc: A, bytes: &[u8]) -> Result<ByteList<A>, Stop>
    ensures { IfOk result (λ l. l ≡ bytes.now) }
{
    match Vec::from_slice(alloc, bytes) {
        Ok(copy) => Ok(ByteList::of(copy)),
        Err(_) => Err(out_of_memory(0)),
    }
}

// A NUL ends the path.
fn push_path<A: Allocator + Copy>(
    table: &Table<'_, A>,
    place: usize,
    out: &mut Vec<u8, A>,
) -> Result<(), Stop> {
    let level = table.level_of(place);
    if level <= 1 {
        append(out, b"/")?;
    }
    for depth in 2..level.saturating_add(1) {
        let mut found = place;
        for _ in depth..level {
            if let Some(node) = table.node(found) {
                found = node.parent;
            }
        }
        append(out, b"/")?;
        if let Some(node) = table.node(found) {
            append(out, table.text(node.name))?;
        }
    }
    append(out, &[0])
}

fn push_value<A: Allocator + Copy>(
    table: &Table<'_, A>,
    property: PropertyEntry,
    out: &mut Vec<u8, A>,
) -> Result<(), Stop> {
    let value = table.value(property.value);
    let mut done = 0usize;
    for i in property.marks.start..property.marks.end {
        match table.marks.get(i) {
            Some(mark) if mark.kind == MarkKind::Path => {
                let bytes = value.get(done..mark.offset).unwrap_or(&[]);
                append(out, bytes)?;
                done = mark.offset;
                push_path(table, mark.node, out)?;
            }
            _ => {}
        }
    }
    append(out, after(value, done))
}

fn value_of<F: Files, A: Allocator + Copy>(
    files: &mut F,
    table: &Table<'_, A>,
    name: &[u8],
    property: PropertyEntry,
) -> Result<Value<A>, FileStop>
    ensures opens { OpensFiles F.Opened.steady F.map result files }
    ensures sound { IfOk result (λ v. IsSoundIn (F.map files.old) name.now (content v)) }
{
    let mut bytes = Vec::new(table.alloc);
    if !property.is_file {
        push_value(table, property, &mut bytes)?;
        return Ok(Value::Bytes(ByteList::of(bytes)));
    }
    append(&mut bytes, table.value(property.value))?;
    if name == b"data".as_slice() {
        return kept(files, bytes, 0);
    }
    let read = read_file(table.alloc, files, &bytes, WHOLE, 0)?;
    Ok(Value::Bytes(ByteList::of(read)))
}

fn push_property<A: Allocator>(
    props: &mut Vec<Prop<A>, A>,
    name: ByteList<A>,
    value: Value<A>,
) -> Result<(), Stop>
    ensures { OnOk result ((files : FileMap) → AreSound files (map property props.old.items) →
        IsSoundIn files name (content value) → AreSound files (map property props.new.items)) }
{
    let Ok(()) = props.push(Prop { name, value }) else {
        return Err(out_of_memory(0));
    };
    Ok(())
}

// Leaves out a deleted property.
fn add_property<F: Files, A: Allocator + Copy>(
    files: &mut F,
    table: &Table<'_, A>,
    props: &mut Vec<Prop<A>, A>,
    entry: PropertyEntry,
) -> Result<(), FileStop>
    ensures opens { OpensFiles F.Opened.steady F.map result files }
    ensures sound { OnOk result (AreSound (F.map files.old) (map property props.old.items) →
        AreSound (F.map files.old) (map property props.new.items)) }
{
    if entry.is_deleted {
        return Ok(());
    }
    let text = table.text(entry.name);
    let value = value_of(files, table, text, entry)?;
    let name = copied(table.alloc, text)?;
    push_property(props, name, value)?;
    Ok(())
}

fn properties<F: Files, A: Allocator + Copy>(
    files: &mut F,
    table: &Table<'_, A>,
    first: usize,
) -> Result<Props<A>, FileStop>
    ensures opens { OpensFiles F.Opened.steady F.map result files }
    ensures sound { IfOk result (λ x. AreSound (F.map files.old) x) }
{
    let mut props = Vec::new(table.alloc);
    let mut place = first;
    for _ in 0..table.properties.len() {
        let Some(found) = table.property(place) else {
            break;
        };
        add_property(files, table, &mut props, found)?;
        place = found.next;
    }
    Ok(Props::of(props))
}

fn push_node<A: Allocator>(nodes: &mut Vec<Node<A>, A>, node: Node<A>) -> Result<(), Stop>
    ensures { OnOk result ((files : FileMap) → AreSoundNodes files nodes.old.items →
        IsSoundNode files node → AreSoundNodes files nodes.new.items) }
{
    let Ok(()) = nodes.push(node) else {
        return Err(out_of_memory(0));
    };
    Ok(())
}

fn push_found<A: Allocator>(nodes: &mut Vec<Node<A>, A>, found: Option<Node<A>>) -> Result<(), Stop>
    ensures { OnOk result ((files : FileMap) → AreSoundNodes files nodes.old.items →
        IsSoundIfFound files found → AreSoundNodes files nodes.new.items) }
{
    let Some(node) = found else {
        return Ok(());
    };
    push_node(nodes, node)?;
    Ok(())
}

// Returns a node with all below it, of at most `levels` levels, unless it is deleted.
#[cycle(planting)]
fn live_node<F: Files, A: Allocator + Copy>(
    files: &mut F,
    table: &Table<'_, A>,
    levels: u8,
    place: usize,
) -> Result<Option<Node<A>>, FileStop>
    ensures opens { OpensFiles F.Opened.steady F.map result files }
    ensures sound { IfOk result (λ x. IsSoundIfFound (F.map files.old) x) }
{
    if !table.is_live(place) {
        return Ok(None);
    }
    let node = plant(files, table, levels, place)?;
    Ok(Some(node))
}

#[cycle(planting)]
fn children<F: Files, A: Allocator + Copy>(
    files: &mut F,
    table: &Table<'_, A>,
    levels: u8,
    first: usize,
) -> Result<Nodes<A>, FileStop>
    ensures opens { OpensFiles F.Opened.steady F.map result files }
    ensures sound { IfOk result (λ x. IsSoundTree (F.map files.old) x) }
{
    let mut nodes = Vec::new(table.alloc);
    let mut place = first;
    for _ in 0..table.nodes.len() {
        let Some(found) = table.node(place) else {
            break;
        };
        let child = live_node(files, table, levels, place)?;
        push_found(&mut nodes, child)?;
        place = found.next;
    }
    Ok(Nodes::of(nodes))
}

#[cycle(planting)]
#[tactic(auto, using(crate::proofs::SoundLaws::tree_same))]
fn plant<F: Files, A: Allocator + Copy>(
    files: &mut F,
    table: &Table<'_, A>,
    levels: u8,
    place: usize,
) -> Result<Node<A>, FileStop>
    ensures opens { OpensFiles F.Opened.steady F.map result files }
    ensures sound { IfOk result (λ x. IsSoundNode (F.map files.old) x) }
{
    if levels == 0 {
        return refused(at(Refusal::Depth, 0));
    }
    let Some(node) = table.node(place) else {
        return refused(at(Refusal::NoRoot, 0));
    };
    let name = copied(table.alloc, table.text(node.name))?;
    let props = properties(files, table, node.first_property)?;
    let children = children(files, table, levels - 1, node.first_child)?;
    Ok(Node {
        name,
        props,
        children,
    })
}

pub(crate) fn planted<F: Files, A: Allocator + Copy>(
    files: &mut F,
    table: &Table<'_, A>,
) -> Result<Node<A>, FileStop>
    ensures opens { OpensFiles F.Opened.steady F.map result files }
    ensures sound { IfOk result (λ x. IsSoundNode (F.map files.old) x) }
{
    if !table.is_live(ROOT) {
        return refused(at(Refusal::NoRoot, 0));
    }
    plant(files, table, MOST_LEVELS, ROOT)
}
