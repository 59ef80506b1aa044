//! Nodes and their children, by recursion.

ghost use Rattle.std.specs.Prelude.{◌≡◌, ◌<◌, ◌≤◌, ◌++◌, ◌∷◌, [], IfSome, IfOk, OnOk, length};
ghost use Rattle.uimg_base.specs.Named.{FileMap};
ghost use Rattle.uimg_blob_writing.specs.LentFiles.{OfHonest};
ghost use Rattle.uimg_its.specs.{Words.words, Answers.{Gives, IsInText, OnlyMemory, OpensFiles}};
ghost use Rattle.uimg_its.specs.FileValues.{AreSound, IsSoundNode, AreSoundNodes};
ghost use Rattle.uimg_its.specs.Included.{OpensIncluded};
ghost use Rattle.uimg_its.specs.Reader.{inside, child_step, children, node_within};
ghost use Rattle.uimg_its.specs.Parts.{FileBytes, props_in_full, parts_of, all_parts_of, chain, child_found};

use crate::fault::{Construct, FaultKind};
use crate::growth::{copied, out_of_memory};
use crate::items::{Item, read_item};
use crate::lexer::expect;
use crate::properties::properties;
use crate::stop::{Place, Stop, unexpected};
use crate::tokens::Mark;
use std::alloc::Allocator;
use uimg_base::Files;
use uimg_blob_writing::{ByteList, Node, Nodes, Props};

fn node_of<A: Allocator>(name: ByteList<A>, props: Props<A>, children: Vec<Node<A>, A>) -> Node<A>
    ensures parts { (files : FileBytes) → parts_of files result ≡ record {
      name = name;
      props = props_in_full files props;
      children = chain (all_parts_of files children.items);
    } }
    ensures sound { (map : FileMap) → AreSound map props → AreSoundNodes map children.items →
        IsSoundNode map result }
{
    Node {
        name,
        props,
        children: Nodes::of(children),
    }
}

fn push_node<A: Allocator>(
    nodes: &mut Vec<Node<A>, A>,
    node: Node<A>,
    left: usize,
) -> Result<(), Stop>
    ensures pushed { OnOk result ((files : FileBytes) → all_parts_of files nodes.new.items
        ≡ all_parts_of files nodes.old.items ++ parts_of files node ∷ []) }
    ensures sound { OnOk result ((files : FileMap) → AreSoundNodes files nodes.old.items →
        IsSoundNode files node → AreSoundNodes files nodes.new.items) }
    ensures memory { OnlyMemory result }
{
    let Ok(()) = nodes.push(node) else {
        return Err(out_of_memory(left));
    };
    Ok(())
}

fn too_deep(left: usize) -> Stop
    ensures { IsInText result.kind }
{
    Stop {
        kind: FaultKind::OutOfProfile(Construct::Depth),
        left,
    }
}

// Reads a node with this name after its opening brace, with at most `levels` levels below it.
// Returns it and the text after its closing brace.
#[cycle(tree)]
#[tactic(auto, unfolding(crate::specs::Reader::inside))]
fn inside<'a, F: Files, A: Allocator + Copy>(
    alloc: A,
    files: &mut F,
    levels: u8,
    name: ByteList<A>,
    text: &'a [u8],
) -> Result<(Node<A>, &'a [u8]), Stop>
    ensures opens { OpensFiles F.Opened.steady F.map result files }
    ensures included { OpensIncluded F.map (λ x. words x.1.now) result files (words text.now) }
    ensures gives { OfHonest F.map files (λ there. Gives (λ x. (parts_of there x.0, words x.1.now))
        result (inside there (children levels there) name (words text.now))) }
    ensures sound { IfOk result (λ x. IsSoundNode (F.map files.old) x.0) }
    ensures shorter { IfOk result (λ x. length x.1.now ≤ length text.now) }
{
    let (props, behind) = properties(alloc, files, text)?;
    let (children, rest) = children(alloc, files, levels, behind)?;
    Ok((node_of(name, props, children), rest))
}

/// Reads a node with this name after its opening brace, with at most `levels` levels, its own
/// included. Returns it and the text after its closing brace.
#[cycle(tree)]
pub(crate) fn node<'a, F: Files, A: Allocator + Copy>(
    alloc: A,
    files: &mut F,
    levels: u8,
    name: &'a [u8],
    left: usize,
    text: &'a [u8],
) -> Result<(Node<A>, &'a [u8]), Stop>
    ensures opens { OpensFiles F.Opened.steady F.map result files }
    ensures included { OpensIncluded F.map (λ x. words x.1.now) result files (words text.now) }
    ensures gives { OfHonest F.map files (λ there. Gives (λ x. (parts_of there x.0, words x.1.now))
        result (node_within levels there name.now (words text.now))) }
    ensures sound { IfOk result (λ x. IsSoundNode (F.map files.old) x.0) }
    ensures within { IfOk result (λ x. length x.1.now ≤ length text.now) }
{
    if levels == 0 {
        return Err(too_deep(left));
    }
    let name = copied(alloc, name, left)?;
    inside(alloc, files, levels - 1, name, text)
}

// Returns `None` at the end of the body.
#[cycle(tree)]
#[tactic(auto, unfolding(crate::specs::Reader::child_step))]
fn child<'a, F: Files, A: Allocator + Copy>(
    alloc: A,
    files: &mut F,
    levels: u8,
    text: &'a [u8],
) -> Result<(Option<Node<A>>, &'a [u8]), Stop>
    ensures opens { OpensFiles F.Opened.steady F.map result files }
    ensures included { OpensIncluded F.map (λ x. words x.1.now) result files (words text.now) }
    ensures gives { OfHonest F.map files (λ there.
        Gives (λ x. child_found there x.0 (words x.1.now)) result
        (child_step (node_within levels there) (words text.now))) }
    ensures sound { IfOk result (λ x. IfSome x.0 (λ node. IsSoundNode (F.map files.old) node)) }
    ensures shorter { IfOk result (λ x. length x.1.now < length text.now) }
{
    let head = read_item(text)?;
    match head.item {
        Item::Opens(name) => {
            let (found, behind) = node(alloc, files, levels, name, head.last.left, head.rest)?;
            let rest = expect(Mark::Semicolon, Place::Body, behind)?;
            Ok((Some(found), rest))
        }
        Item::Closes => Ok((None, head.rest)),
        _ => Err(unexpected(head.last, Place::Body)),
    }
}

#[cycle(tree)]
fn children<'a, F: Files, A: Allocator + Copy>(
    alloc: A,
    files: &mut F,
    levels: u8,
    text: &'a [u8],
) -> Result<(Vec<Node<A>, A>, &'a [u8]), Stop>
    ensures opens { OpensFiles F.Opened.steady F.map result files }
    ensures included { OpensIncluded F.map (λ x. words x.1.now) result files (words text.now) }
    ensures gives { OfHonest F.map files (λ there.
        Gives (λ x. (all_parts_of there x.0.items, words x.1.now)) result
        (children levels there (words text.now))) }
    ensures sound { IfOk result (λ x. AreSoundNodes (F.map files.old) x.0.items) }
    ensures within { IfOk result (λ x. length x.1.now ≤ length text.now) }
{
    let mut nodes = Vec::new(alloc);
    let mut rest = text;
    loop {
        let (found, after) = child(alloc, files, levels, rest)?;
        match found {
            None => return Ok((nodes, after)),
            Some(node) => push_node(&mut nodes, node, after.len())?,
        }
        rest = after;
    }
}
