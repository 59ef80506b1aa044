//! The calls of `uimg_fit`: FIT images (Flattened Image Tree format).

ghost use Rattle.std.specs.Prelude.{◌≡◌, IsTrue, OnOk};
ghost use Rattle.uimg_texts.specs.declared.naming.Naming.TheVariants.{Profile};
ghost use Rattle.uimg_blob_reading.specs.LookUps.{images};
ghost use Rattle.uimg_blob_writing.specs.{Content.FilesAtData, Trees.node_of, UsingFiles.UsesFiles};
ghost use Rattle.uimg_blob_writing.specs.LentFiles.{IfKept, IfInFull};
ghost use Rattle.uimg_fit_base.specs.{Report.verify_of, Extraction.extract_of, Faults.is_refused};
ghost use Rattle.uimg_fit_base.specs.Placements.{aligned_by};
ghost use Rattle.uimg_fit_reading.specs.{Listing.list_of, Rooms.{Delivers, TellsOf, KeepsAhead}};
ghost use Rattle.uimg_fit_reading.specs.Work.{list_work, verify_work, extract_work};
ghost use Rattle.uimg_fit_building.specs.{FillAnswers.{FillsAnswer, opens_no_file}, ImageSteps.AnswersInOrder};
ghost use Rattle.uimg_fit_building.specs.{Filling.IsFilled, Building.built, ReadsBack.ReadsBack};
ghost use Rattle.uimg_fit_building.specs.BuildSteps.{Builds};

use std::alloc::Allocator;
use std::io::Write;
use uimg_base::{Files, Out, Room, Source, Status};
use uimg_blob::Tree;
use uimg_fit::{Fault, FitFault, Placement};

/// Writes the listing of an image. No payload is read, and no hash is checked.
///
/// Over an honest source the listing and its end are those of `list_of`, or a prefix of it after
/// `Read`, `Put` or `OutOfMemory`. At most `list_work` bytes are requested: 60, 1024 for each node
/// and property, and 4 for each NOP and each byte of a text. The room takes 128 bytes for each
/// node.
///
/// - The faults of the blob: before the first line.
/// - `NoImages`: after the head lines.
/// - `OutOfMemory` of the blob: if and only if the room refused to grow.
/// - `Read`, `Put`: if and only if a read, or a write, failed.
pub fn list<S: Source, A: Allocator, W: Write>(
    source: &mut S,
    room: &mut Room<A>,
    out: &mut Out<W>,
) -> Result<Status, Fault>
    ensures told { TellsOf (list_of Profile) result S.device source out }
    ensures delivers { Delivers (list_work Profile) result S.device source room out }
{
    uimg_fit::list(source, room, out)
}

/// Writes the report on the hashes of an image, a line for each hash node of each image. Returns
/// `NotRight` if a line ends with another word than `ok` and `unhashed`.
///
/// Over an honest source the report and its end are those of `verify_of`, or a prefix of it after
/// `Read`, `Put` or `OutOfMemory`. At most `verify_work` bytes are requested: those of a listing,
/// and each payload once, or not at all if no hash of it is compared.
///
/// - The faults of the blob and `NoImages`: without a line.
/// - `NoData`, `DataOutside`: of an image, before its lines.
/// - `OutOfMemory` of the blob: if and only if the room refused to grow.
/// - `Read`, `Put`: if and only if a read, or a write, failed.
pub fn verify<S: Source, A: Allocator, W: Write>(
    source: &mut S,
    room: &mut Room<A>,
    out: &mut Out<W>,
) -> Result<Status, Fault>
    ensures told { TellsOf verify_of result S.device source out }
    ensures delivers { Delivers verify_work result S.device source room out }
{
    uimg_fit::verify(source, room, out)
}

/// Writes the payload of the image at a position, counted from 0.
///
/// Over an honest source the bytes and the end are those of `extract_of`, or a prefix of them after
/// `Read` or `Put`. At every exit at most as many bytes are requested as for a listing, those that
/// were written and 8192.
///
/// These come before the first byte, over any source:
/// - The faults of the blob.
/// - `NoImages`, `NoSuchImage`: there is no image at the position.
/// - `NoData`, `DataOutside`: the image has no payload, or one outside the file.
/// - `OutOfMemory` of the blob: if and only if the room refused to grow.
///
/// - `Read`, `Put`: if and only if a read, or a write, failed.
pub fn extract<S: Source, A: Allocator, W: Write>(
    position: u32,
    source: &mut S,
    room: &mut Room<A>,
    out: &mut Out<W>,
) -> Result<Status, Fault>
    ensures told { TellsOf (λ file. extract_of file position) result S.device source out }
    ensures delivers { Delivers (λ file. extract_work file position) result
        S.device source room out }
    ensures ahead { KeepsAhead (list_work Profile) (λ file. extract_of file position) S.device source out }
    ensures untouched { IsTrue (is_refused result) → out.new ≡ out.old }
{
    uimg_fit::extract(position, source, room, out)
}

/// Fills a tree before it is built: sets the root's `timestamp` to a time in seconds since 1970,
/// and the `value` of each hash node to the digest of the image's first `data`; removes
/// `data-offset`, `data-size` and `data-position` of each image. Each file stays a file. Only
/// properties named `data` may be files.
///
/// Over honest files of the stored sizes the tree is that of `filled`. At a fault it is dropped.
///
/// - `NoImages`: the root has no child `images`.
/// - `NoData`: an image has no `data`.
/// - `UnknownAlgo`: the `algo` of a hash node is missing or unknown.
/// - `NoFile`: if and only if an open was refused.
/// - `ReadFailed`: a read failed, or a file has another size than the tree stores.
/// - `OutOfMemory`: memory for a property was refused.
pub fn fill<F: Files, A: Allocator + Copy>(
    alloc: A,
    tree: Tree<A>,
    time: u32,
    files: &mut F,
) -> Result<Tree<A>, FitFault>
    requires { FilesAtData (node_of tree.root) }
    ensures filled { IfKept F.map files (node_of tree.root) (λ there.
        FillsAnswer (λ filled. node_of filled.root) there time (node_of tree.root) result) }
    ensures order { AnswersInOrder Profile F.Opened.steady F.map (images (node_of tree.root))
        result files }
    ensures files { UsesFiles (opens_no_file result) (F.map files.old) (F.map files.new) }
{
    uimg_fit::fill(alloc, tree, time, files)
}

/// Builds the image of a tree: its blob, and after it the payloads that are not in it, each at a
/// multiple of 4.
///
/// Over honest files of the stored sizes the bytes are those of `built`. The image of a filled tree
/// verifies, and the extraction at each position is the payload of the image of that number.
///
/// These come before the first byte:
/// - `BadNodeName`, `BadPropertyName` of the blob: a name has more than 255 bytes or a NUL.
/// - `TooLarge`: the blob, or the file, has more than 4294967295 bytes.
/// - `PositionTooLow`: the payloads would begin before the blob's end.
/// - `OutOfMemory`: memory was refused.
///
/// These come later. Over honest files of the stored sizes a prefix of the image was written:
/// - `Put`: if and only if a write failed.
/// - `NoFile`: if and only if an open was refused.
/// - `Read`: a read failed, or a file has another size than the tree stores.
pub fn build<F: Files, W: Write, A: Allocator + Copy>(
    alloc: A,
    tree: &Tree<A>,
    files: &mut F,
    placement: Placement,
    out: &mut Out<W>,
) -> Result<(), Fault>
    ensures builds { Builds F.Opened.steady F.map (node_of tree.now.root) (aligned_by placement 4)
        result files out }
    ensures reads_back { IfInFull F.map files (node_of tree.now.root) (λ t.
        IsFilled t → OnOk result (ReadsBack (built t (aligned_by placement 4)) t)) }
{
    uimg_fit::build(alloc, tree, files, placement, out)
}
