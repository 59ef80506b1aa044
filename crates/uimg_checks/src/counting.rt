//! How many payloads an image in memory has.

ghost use Rattle.std.specs.Prelude.{◌≡◌, false};
ghost use Rattle.uimg_requests.specs.declared.command.Form.TheVariants as form;
ghost use Rattle.uimg_checks.specs.Counting.{TellsCount, count_of};
ghost use Rattle.uimg_engine.specs.Faults.{is_put};
ghost use Rattle.uimg_engine.specs.Headline.{is_fit, InMemory, TakesNone};

use std::alloc::Allocator;
use uimg_base::{MemSource, Room};
use uimg_engine::{Fault, is_fit};
use uimg_requests::Form;

fn count_parts<A: Allocator>(image: &[u8], room: &mut Room<A>) -> Result<usize, Fault>
    ensures told { TellsCount (count_of false image.now) result }
    ensures no_put { is_put result ≡ false }
    ensures memory { InMemory form.Legacy image.now result room }
    ensures legacy { TakesNone result room }
{
    let count = uimg_legacy::count_parts(&mut MemSource::new(image), room)?;
    Ok(count as usize)
}

/// Counts the parts of a legacy image, or the images of a FIT image. At each position below this
/// number an extraction finds a part or a payload, or returns why it cannot be had.
///
/// Returns the fault by which the image is refused. `Fault::Read`, `Fault::Put` and the faults of a
/// build are never returned. The room takes at most 128 bytes for each node of a FIT image, and
/// none for a legacy image. If memory for the table of a FIT image's nodes was refused, returns
/// `OutOfMemory` of the blob.
pub fn count_in_memory<A: Allocator>(image: &[u8], room: &mut Room<A>) -> Result<usize, Fault>
    ensures told { TellsCount (count_of (is_fit form.Guess image.now) image.now) result }
    ensures no_put { is_put result ≡ false }
    ensures memory { InMemory form.Guess image.now result room }
    ensures legacy { is_fit form.Guess image.now ≡ false → TakesNone result room }
{
    if is_fit(Form::Guess, &mut MemSource::new(image))? {
        let count = uimg_fit_checking::count_images(image, room)?;
        return Ok(count);
    }
    count_parts(image, room)
}
