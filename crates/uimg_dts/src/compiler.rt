//! A whole source: `compile_all`.

ghost use Rattle.std.specs.Prelude.{◌≡◌, IfOk, IsTrue, false};
ghost use Rattle.uimg_blob_writing.specs.{Content.{AreKept, FilesAtData}, Trees.node_of};
ghost use Rattle.uimg_blob_writing.specs.{UsingFiles.UsesFiles, LentFiles.OfHonest};
ghost use Rattle.uimg_dts.specs.Answers.{OpensFiles, finds_no_file, is_file_unread};
ghost use Rattle.uimg_dts.specs.FileValues.{IsSoundNode};

use crate::fault::DtsFault;
use crate::finding::ROOT;
use crate::lexing::lex;
use crate::planting::planted;
use crate::statements::{headers, reservations, root, statement};
use crate::stop::{FileStop, Stop, out_of_memory};
use crate::table::Table;
use crate::tokens::Token;
use std::alloc::Allocator;
use uimg_base::Files;
use uimg_blob_writing::{Reservation, Tree};

/// What a source means.
#[derive(Drop)]
pub struct Compiled<A: Allocator> {
    pub tree: Tree<A>,
    /// The ranges of memory that `/memreserve/` names, in order.
    pub reservations: Vec<Reservation, A>,
}

// Each node is before those below it.
fn order_of<A: Allocator + Copy>(alloc: A, table: &Table<'_, A>) -> Result<Vec<usize, A>, Stop> {
    let mut order = Vec::new(alloc);
    let mut place = ROOT;
    for _ in 0..table.nodes.len() {
        if order.push(place).is_err() {
            return Err(out_of_memory(0));
        }
        match table.following(ROOT, place) {
            Some(next) => place = next,
            None => break,
        }
    }
    Ok(order)
}

fn resolve<A: Allocator + Copy>(alloc: A, table: &mut Table<'_, A>) -> Result<(), Stop> {
    let order = order_of(alloc, table)?;
    table.check_names(&order)?;
    table.check_labels()?;
    table.give_numbers(&order)?;
    table.resolve(&order)?;
    table.omit(&order);
    Ok(())
}

fn statements<F: Files, A: Allocator + Copy>(
    files: &mut F,
    table: &mut Table<'_, A>,
    found: &mut Vec<Reservation, A>,
    tokens: &[Token],
) -> Result<(), FileStop>
    ensures opens { OpensFiles F.Opened.steady F.map result files }
{
    let behind = headers(tokens)?;
    let first = reservations(found, behind)?;
    let mut rest = root(files, table, first)?;
    for _ in 0..tokens.len() {
        if rest.is_empty() {
            break;
        }
        rest = statement(files, table, rest)?;
    }
    Ok(())
}

fn compile_words<F: Files, A: Allocator + Copy>(
    alloc: A,
    files: &mut F,
    bytes: &[u8],
    tokens: &[Token],
) -> Result<Compiled<A>, FileStop>
    ensures opens { OpensFiles F.Opened.steady F.map result files }
    ensures sound { IfOk result (λ x. IsSoundNode (F.map files.old) x.tree.root) }
{
    let mut found = Vec::new(alloc);
    let mut table = Table::new(alloc, bytes);
    statements(files, &mut table, &mut found, tokens)?;
    resolve(alloc, &mut table)?;
    let root = planted(files, &table)?;
    Ok(Compiled {
        tree: Tree { root },
        reservations: found,
    })
}

fn compile_text<F: Files, A: Allocator + Copy>(
    alloc: A,
    text: &[u8],
    files: &mut F,
) -> Result<Compiled<A>, FileStop>
    ensures opens { OpensFiles F.Opened.steady F.map result files }
    ensures sound { IfOk result (λ x. IsSoundNode (F.map files.old) x.tree.root) }
{
    let sheet = lex(alloc, files, text)?;
    compile_words(
        alloc,
        files,
        sheet.bytes.as_slice(),
        sheet.tokens.as_slice(),
    )
}

// Returns the line, from 1, of the byte at which `left` bytes remain. If none remain, returns the
// last line; a newline at the end belongs to it.
fn line_of(text: &[u8], left: usize) -> u64 {
    let mut line = 1u64;
    let before = text.len().saturating_sub(usize::max(left, 1));
    for b in text.get(..before).unwrap_or(&[]) {
        if *b == b'\n' {
            line = line.saturating_add(1);
        }
    }
    line
}

/// Compiles a devicetree source to its tree, as dtc 1.6.1 does.
///
/// The text is a source in the whole language of dtc, but for `/plugin/`: roots and nodes that are
/// given again, labels and references, expressions, `/bits/`, `/include/`, `/memreserve/`,
/// `/delete-node/`, `/delete-property/`, `/omit-if-no-ref/`, `/incbin/` with a range, and the line
/// markers of a preprocessor. What dtc's checks refuse is refused; what they warn of is not. A file
/// is named from the folder of the file that names it. If `/incbin/("name")` is the whole value of
/// a property named `data`, the file is opened only for its size and stays a
/// [`Value::File`](uimg_blob_writing::Value); any other file is read.
///
/// At most 64 levels are taken of nodes, of parentheses, and of files that include one another, and
/// at most 199 included files. A tree whose root is deleted is refused; dtc writes a blob without
/// nodes.
///
/// The contract says nothing else of the text: which tree is returned, and which sources are
/// refused, is tested against dtc.
///
/// The time grows with the text and the files that are read, and n nodes, properties or labels take
/// n log n, unless many that are deleted have one name, or a node with many children is deleted many
/// times. Memory is the words, the tables and the tree.
///
/// - `NoFile`: if and only if an open was refused.
/// - `ReadFailed`: only if a read of an opened file failed.
pub fn compile_all<F: Files, A: Allocator + Copy>(
    alloc: A,
    text: &[u8],
    files: &mut F,
) -> Result<Compiled<A>, DtsFault>
    // The files are unchanged, and `NoFile` is returned if and only if they refused an open.
    ensures files { UsesFiles (finds_no_file result) (F.map files.old) (F.map files.new) }
    // If opened files never fail, `ReadFailed` is never returned.
    ensures steady { IsTrue F.Opened.steady → is_file_unread result ≡ false }
    // Only properties named `data` are files.
    ensures at_data { IfOk result (λ x. FilesAtData (node_of x.tree.root)) }
    // Each of these files exists, with the stored size.
    ensures kept { OfHonest F.map files (λ there.
        IfOk result (λ x. AreKept there (node_of x.tree.root))) }
{
    match compile_text(alloc, text, files) {
        Ok(compiled) => Ok(compiled),
        Err(stop) => Err(DtsFault {
            kind: stop.kind,
            line: line_of(text, stop.left),
        }),
    }
}
