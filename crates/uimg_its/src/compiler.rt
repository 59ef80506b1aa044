//! The whole source text: `compile`.

ghost use Rattle.std.specs.Prelude.{◌≡◌, ◌<◌, List, [], IfOk, IsTrue, is_err, false};
ghost use Rattle.uimg_blob_reading.specs.Plain.{Nodes};
ghost use Rattle.uimg_blob_writing.specs.{Content.{AreKept, FilesAtData, in_full}, Trees.node_of};
ghost use Rattle.uimg_blob_writing.specs.{UsingFiles.{UsesFiles, OpensEach}, LentFiles.OfHonest};
ghost use Rattle.uimg_its.specs.{Words.{Word, words}, Reading.ReadsText, FileValues.IsSoundNode};
ghost use Rattle.uimg_its.specs.Answers.{Gives, NeverInFile, IsInText, OpensFiles};
ghost use Rattle.uimg_its.specs.{Parts.{FileBytes, parts_of}, Seen.seen_word};
ghost use Rattle.uimg_its.specs.Included.{included, OpensIncluded};
ghost use Rattle.uimg_its.specs.{Compiled.{Accepts, finds_no_file, is_file_unread}, Grammar.Spells};
ghost use Rattle.uimg_its.specs.Reader.{version, is_version, alone, source};

use crate::fault::{Construct, FaultKind, ItsFault};
use crate::lexer::{expect, is_mark, need_word, next_word};
use crate::lines::line_of;
use crate::nodes::node;
use crate::stop::{Place, Stop, unexpected};
use crate::tokens::{Mark, Token, Word as Found};
use std::alloc::Allocator;
use uimg_base::Files;
use uimg_blob_writing::{Node, Tree};

/// The most levels of nodes in a tree; the root is at the first.
const MOST_LEVELS: u8 = 64;

// Returns whether a word is the directive that begins a source.
fn is_version(word: Found<'_>) -> bool
    ensures { result ≡ is_version (seen_word word.entry) }
{
    match word {
        Found::Directive(name) => name == b"dts-v1".as_slice(),
        _ => false,
    }
}

fn version(text: &[u8]) -> Result<&[u8], Stop>
    ensures { ReadsText (λ x. words x.now) result (version (words text.now)) }
{
    let (token, rest) = need_word(text)?;
    if is_version(token.word) {
        Ok(rest)
    } else {
        Err(unexpected(token, Place::Outside))
    }
}

// Returns the fault of a word after the root, which with the text after it may begin a second root.
fn second_root(token: Token<'_>, rest: &[u8]) -> Stop
    ensures { IsInText result.kind }
{
    if is_mark(Mark::Slash, token.word) && expect(Mark::BraceOpen, Place::Outside, rest).is_ok() {
        Stop {
            kind: FaultKind::OutOfProfile(Construct::SecondRoot),
            left: token.left,
        }
    } else {
        unexpected(token, Place::Outside)
    }
}

// Returns the root if no word is left.
fn alone<A: Allocator>(root: Node<A>, text: &[u8]) -> Result<Node<A>, Stop>
    ensures root { IfOk result (λ node. node ≡ root) }
    ensures gives { (files : FileBytes) →
        Gives (parts_of files) result (alone (parts_of files root) (words text.now)) }
    ensures no_file { NeverInFile result }
{
    match next_word(text)? {
        None => Ok(root),
        Some((token, rest)) => Err(second_root(token, rest)),
    }
}

#[tactic(auto, unfolding(crate::specs::Reader::source))]
fn source<F: Files, A: Allocator + Copy>(
    alloc: A,
    files: &mut F,
    text: &[u8],
) -> Result<Node<A>, Stop>
    ensures opens { OpensFiles F.Opened.steady F.map result files }
    ensures included { OpensIncluded F.map (λ root. []) result files (words text.now) }
    ensures gives { OfHonest F.map files (λ there.
        Gives (parts_of there) result (source there (words text.now))) }
    ensures sound { IfOk result (λ root. IsSoundNode (F.map files.old) root) }
{
    let behind = version(text)?;
    let behind = expect(Mark::Semicolon, Place::Outside, behind)?;
    let behind = expect(Mark::Slash, Place::Outside, behind)?;
    let inner = expect(Mark::BraceOpen, Place::Outside, behind)?;
    let (root, behind) = node(alloc, files, MOST_LEVELS, b"", inner.len(), inner)?;
    let rest = expect(Mark::Semicolon, Place::Outside, behind)?;
    alone(root, rest)
}

/// Compiles a source text to its tree.
///
/// The text is image-tree source: devicetree source (Devicetree Specification 0.4, chapter 6, and
/// dtc's `/incbin/`) with one root, at most 64 levels, and without the constructs in [`Construct`].
/// A value `/incbin/("name")` is the bytes of that file. If it is the whole value of a property
/// named `data`, the file is opened only for its size and stays a [`Value::File`]; any other file
/// is read whole.
///
/// The time grows with the text and the files that are read. Calls nest as deep as the nodes, at
/// most 64.
///
/// Returns the fault of the first word at which the text cannot continue. Over honest files any
/// other fault than these three means that the text spells no tree.
/// - `NoFile`: if and only if an open was refused.
/// - `ReadFailed`: a read of an opened file failed; never over steady sources.
/// - `OutOfMemory`: memory was refused.
///
/// Only tested are: which of the other faults it is, its line and the name of I3; that a sole
/// `/incbin/` of `data` stays a file whose bytes are not requested; that `ReadFailed` and
/// `OutOfMemory` come only after a failed read and a refused growth.
///
/// [`Construct`]: crate::Construct
/// [`Value::File`]: crate::Value::File
pub fn compile<F: Files, A: Allocator + Copy>(
    alloc: A,
    text: &[u8],
    files: &mut F,
) -> Result<Tree<A>, ItsFault>
    // The files are unchanged, and `NoFile` is returned if and only if they refused an open.
    ensures files { UsesFiles (finds_no_file result) (F.map files.old) (F.map files.new) }
    // Exactly the files that the text includes are opened, in order; at a fault the first ones.
    ensures opened { OpensEach (is_err result) (included (words text.now))
        (F.map files.old) (F.map files.new) }
    // If opened files never fail, `ReadFailed` is never returned.
    ensures steady { IsTrue F.Opened.steady → is_file_unread result ≡ false }
    // Only properties named `data` are files.
    ensures at_data { IfOk result (λ tree. FilesAtData (node_of tree.root)) }
    // Each of these files exists, with the stored size.
    ensures kept { OfHonest F.map files (λ there.
        IfOk result (λ tree. AreKept there (node_of tree.root))) }
    // The text spells the tree.
    ensures only { OfHonest F.map files (λ there. IfOk result (λ tree.
        Spells (words text.now) there (in_full there (node_of tree.root)))) }
    // If the text spells a tree, that tree is returned, unless a file or memory is missing. So any
    // other fault means that the text spells none.
    ensures accepted { OfHonest F.map files (λ there.
        (t : Nodes) → Spells (words text.now) there t → Accepts there result t) }
{
    match source(alloc, files, text) {
        Ok(root) => Ok(Tree { root }),
        Err(stop) => Err(ItsFault {
            kind: stop.kind,
            line: line_of(text, stop.left),
        }),
    }
}

/// States that a list of words spells at most one tree: the contract is this law.
pub fn one_tree()
    ensures { (ws : List Word) (files : FileBytes) (t u : Nodes) →
        Spells ws files t → Spells ws files u → t ≡ u }
{}
