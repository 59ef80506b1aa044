//! The payload of an image by its name, and the name of an image, in memory.

ghost use Rattle.std.specs.Prelude.{◌≡◌, ◌+◌, ◌<◌, ◌≤◌, false, length, Ok, IfErr, IfOk};
ghost use Rattle.std.specs.Str.{bytes_eq};
ghost use Rattle.uimg_base.specs.Honest.{HonestSource, IfHonest};
ghost use Rattle.uimg_texts.specs.Slices.{slice};
ghost use Rattle.uimg_blob_reading.specs.Grammar.{Siblings};
ghost use Rattle.uimg_blob_reading.specs.LookUps.{NodeOf};
ghost use Rattle.uimg_blob_reading.specs.Roles.{in_images};
ghost use Rattle.uimg_blob_reading.specs.Spots.{Spot};
ghost use Rattle.uimg_fit_base.specs.Faults.{of_making, Gives};
ghost use Rattle.uimg_fit_checking.specs.Named.{TellsNamed, name_at, payload_named, place_named};
ghost use Rattle.uimg_fit_reading.specs.Nodes.{InFile, IsNode, IsRead};
ghost use Rattle.uimg_fit_reading.specs.Values.{in_span};
ghost use Rattle.uimg_fit_reading.specs.Rooms.{ReadsAny, ReadsInMemory};

use std::alloc::Allocator;
use uimg_base::{MemSource, Room, Source, Span};
use uimg_blob_reading::Blob;
use uimg_fit_base::{Fault, FitFault};
use uimg_fit_reading::images::{first_image, image_at};
use uimg_fit_reading::nodes::{name_of, next_of};
use uimg_fit_reading::{payload_place, read_tree};

#[tactic(auto, unfolding(uimg_texts::specs::Slices::slice))]
fn bytes_at(file: &[u8], span: Span) -> &[u8]
    requires { span.place + span.length ≤ length file.now }
    ensures { result.now ≡ in_span file.now span }
{
    let start = span.place as usize;
    let end = start + span.length as usize;
    &file[start..end]
}

fn is_named<A: Allocator>(
    file: &[u8],
    blob: &Blob,
    room: &Room<A>,
    image: usize,
    name: &[u8],
) -> bool
    requires within { image < length room.now.entries }
    requires file { InFile (length file.now) blob.now room.now.entries }
    ensures { (t : Siblings) → IsRead file.now blob.now room.now.entries t → (found : NodeOf Spot) →
        IsNode t in_images image found → result ≡ bytes_eq name.now found.name }
{
    let its_name = bytes_at(file, name_of(blob, room, image));
    name == its_name
}

fn image_named<A: Allocator>(
    file: &[u8],
    blob: &Blob,
    room: &Room<A>,
    name: &[u8],
) -> Result<usize, FitFault>
    requires { InFile (length file.now) blob.now room.now.entries }
    ensures within { IfOk result (λ i. i < length room.now.entries) }
    ensures no_making { IfErr result (λ fault. of_making fault ≡ false) }
    ensures told { (t : Siblings) → IsRead file.now blob.now room.now.entries t →
        TellsNamed t name.now result }
{
    let mut next = first_image(blob, room)?;
    while let Some(image) = next {
        if is_named(file, blob, room, image, name) {
            return Ok(image);
        }
        next = next_of(blob, room, image);
    }
    Err(FitFault::NoSuchImage)
}

fn locate_in<S: Source, A: Allocator>(
    name: &[u8],
    file: &[u8],
    source: &mut S,
    room: &mut Room<A>,
) -> Result<Span, Fault>
    requires { (S.device source.old).bytes ≡ file.now }
    ensures reads { ReadsAny result S.device source room }
    ensures inside { IfOk result (λ p. p.place + p.length ≤ length file.now) }
    ensures told { HonestSource S.device source →
        Gives (in_span file.now) result (payload_named file.now name.now) }
    ensures span { HonestSource S.device source →
        IfOk result (λ span. place_named file.now name.now ≡ Ok span) }
{
    let blob = read_tree(source, room)?;
    let image = image_named(file, &blob, room, name)?;
    payload_place(source, &blob, room, image)
}

/// Finds the payload of the first image of a name in the bytes of a FIT image, and returns its
/// span, which ends inside them.
///
/// Returns the first of these faults, in this order:
/// - The faults of the blob.
/// - `NoImages`, `NoSuchImage`.
/// - `NoData`, `DataOutside`: of that image.
///
/// Returns `OutOfMemory` if and only if the room refused to grow. `Read` is never returned.
pub fn locate_named<A: Allocator>(
    name: &[u8],
    file: &[u8],
    room: &mut Room<A>,
) -> Result<Span, Fault>
    ensures memory { ReadsInMemory file.now result room }
    ensures inside { IfOk result (λ p. p.place + p.length ≤ length file.now) }
    ensures told { Gives (in_span file.now) result (payload_named file.now name.now) }
    ensures span { IfOk result (λ span. place_named file.now name.now ≡ Ok span) }
{
    let mut source = MemSource::new(file);
    locate_in(name, file, &mut source, room)
}

fn name_in<S: Source, A: Allocator>(
    position: u32,
    source: &mut S,
    room: &mut Room<A>,
) -> Result<Span, Fault>
    ensures reads { ReadsAny result S.device source room }
    ensures inside { IfOk result (λ p. p.place + p.length ≤ length (S.device source.old).bytes) }
    ensures told { IfHonest S.device source (λ file.
        Gives (in_span file) result (name_at file position)) }
{
    let blob = read_tree(source, room)?;
    let image = image_at(&blob, room, position)?;
    Ok(name_of(&blob, room, image))
}

/// Finds the name of the image at a position, counted from 0, in the bytes of a FIT image, and
/// returns its span, which ends inside them.
///
/// - The faults of the blob, then `NoImages` and `NoSuchImage`.
/// - `OutOfMemory`: if and only if the room refused to grow.
///
/// `Read` is never returned.
pub fn locate_name<A: Allocator>(
    position: u32,
    file: &[u8],
    room: &mut Room<A>,
) -> Result<Span, Fault>
    ensures memory { ReadsInMemory file.now result room }
    ensures inside { IfOk result (λ p. p.place + p.length ≤ length file.now) }
    ensures told { Gives (in_span file.now) result (name_at file.now position) }
{
    let mut source = MemSource::new(file);
    name_in(position, &mut source, room)
}
