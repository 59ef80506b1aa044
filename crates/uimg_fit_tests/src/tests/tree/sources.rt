//! Sources that several rows name, and what they compile to.
use crate::sources::FOUR_HASH;
use std::alloc::Global;
use uimg_base::{MemFiles, Out};
use uimg_blob_writing::{
    BlobEnd, Layout, Reservation, Tree, WORD_ALIGNMENT, measure_with, write_tree,
};
use uimg_its::compile;

/// The files of the tests.
pub(super) const WORDS: BlobEnd = BlobEnd {
    align: WORD_ALIGNMENT,
    least: 0,
};

pub(super) const NAMED: [(&[u8], &[u8]); 2] = [(b"a", b"abc"), (b"abc.bin", b"abc")];

/// The source of the case mixed-values, which is `examples/mixed-values.its`.
const MIXED: &str = "/dts-v1/;
// sample
/ {
\t/* mixed */
\tlab: v = \"a\", <1 0x2>, [00 ff];
\te;
};
";

/// Two nodes below the root, with properties of the same names, one value in the file `abc.bin`.
pub(super) const FAMILY: &str = "/dts-v1/;
/ {
\tkernel-1 { type = \"kernel\"; data = /incbin/(\"abc.bin\"); };
\tfdt { data = [0102030405]; type = \"flat_dt\"; };
};";

/// The source of the case file-values: which values stay files, and which are read.
const FILE_VALUES: &str = "/dts-v1/; / {
\tdata = /incbin/(\"abc.bin\");
\tdata = /incbin/(\"abc.bin\"), [00];
\tdata = [00], /incbin/(\"abc.bin\");
\tl: data = /* c */ /incbin/ ( \"abc.bin\" ) ;
\tdatax = /incbin/(\"abc.bin\");
\tdata = \"abc.bin\";
\tdata;
};";

/// Returns the source with a name; any other text is a source itself.
pub(super) fn source(text: &str) -> &str {
    match text {
        "four-hash-fit" => FOUR_HASH,
        "mixed-values" => MIXED,
        "family" => FAMILY,
        "file-values" => FILE_VALUES,
        _ => text,
    }
}

/// Returns the tree of a source over the files of the tests, if it is compiled.
pub(super) fn tree_of(alloc: Global, text: &str) -> Option<Tree<Global>> {
    compile(alloc, source(text).as_bytes(), &mut MemFiles::new(&NAMED)).ok()
}

/// Returns the blob of a tree over these files, if it is written and has its measured size.
pub(super) fn blob_of(
    alloc: Global,
    tree: &Tree<Global>,
    named: &[(&[u8], &[u8])],
) -> Option<Vec<u8>> {
    blob_ending(alloc, tree, WORDS, named)
}

pub(super) fn blob_ending(
    alloc: Global,
    tree: &Tree<Global>,
    ending: BlobEnd,
    named: &[(&[u8], &[u8])],
) -> Option<Vec<u8>> {
    let layout = measure_with(alloc, tree, ending, &[]).ok()?;
    written(alloc, tree, &layout, named)
}

pub(super) fn blob_with(
    alloc: Global,
    tree: &Tree<Global>,
    reservations: &[Reservation],
    named: &[(&[u8], &[u8])],
) -> Option<Vec<u8>> {
    let layout = measure_with(alloc, tree, WORDS, reservations).ok()?;
    written(alloc, tree, &layout, named)
}

// Returns the blob of a layout, if it is written and has its size.
fn written(
    alloc: Global,
    tree: &Tree<Global>,
    layout: &Layout<Global>,
    named: &[(&[u8], &[u8])],
) -> Option<Vec<u8>> {
    let mut files = MemFiles::new(named);
    let mut out = Out::new(Vec::new(alloc));
    let answer = write_tree(tree, layout, &mut files, &mut out);
    let blob = out.into_inner();
    if answer.is_ok() && blob.len() == layout.totalsize() as usize {
        Some(blob)
    } else {
        None
    }
}
