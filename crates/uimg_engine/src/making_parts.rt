//! Legacy images that are made from files.
ghost use Rattle.std.specs.Prelude.{◌≡◌, ◌≢◌, false, length, map, is_err, IsTrue, IfOk};
ghost use Rattle.uimg_legacy.specs.{Parts.has_parts, Devices.{bytes_of, AreHonest}};
ghost use Rattle.uimg_blob_writing.specs.UsingFiles.{OpensEach};
ghost use Rattle.uimg_engine.specs.Faults.{is_unread, is_put, is_keep, is_no_file};
ghost use Rattle.uimg_engine.specs.Commands.{HonestFiles};
ghost use Rattle.uimg_requests.specs.Commands.{FitNames};
ghost use Rattle.uimg_engine.specs.Making.{texts, OpensNames, OpensAnswer, BuildsParts, BuildsNames, WritesImage};

use crate::fault::Fault;
use std::alloc::Allocator;
use std::io::Write;
use uimg_base::{Files, Out, Source};
use uimg_legacy::{Options, build};

// Memory for all files is taken first.
fn open_all<F: Files, A: Allocator>(
    alloc: A,
    names: &[Vec<u8>],
    files: &mut F,
) -> Result<Vec<F::Opened, A>, Fault>
    ensures files { OpensNames (texts names.now) result (F.map files.old) (F.map files.new) }
    ensures in_order { OpensEach (is_err result) (texts names.now)
        (F.map files.old) (F.map files.new) }
    ensures count { IfOk result (λ opened. length opened.items ≡ length names.now) }
    ensures only_opens { (is_unread result ≡ false) × (is_put result ≡ false)
        × (is_keep result ≡ false) }
    ensures opened { HonestFiles F.map files →
        OpensAnswer (λ opened. map F.Opened.device opened.items) (F.map files.old).bytes
        (texts names.now) result }
{
    let mut opened = Vec::with_capacity(alloc, names.len())?;
    for i in 0..names.len() {
        let Ok(source) = files.open(&names[i]) else {
            return Err(Fault::NoFile(i as u64));
        };
        if opened.push(source).is_err() {
            return Err(Fault::OutOfMemory);
        }
    }
    Ok(opened)
}

fn build_opened<S: Source, W: Write>(
    options: &Options,
    parts: &mut [S],
    image: &mut Out<W>,
) -> Result<(), Fault>
    requires some { length parts.old ≢ 0 }
    requires single { has_parts options.now.kind ≡ false → length parts.old ≡ 1 }
    ensures built { AreHonest (map S.device parts.old) → BuildsParts options.now
        (bytes_of (map S.device parts.old)) result image.old image.new }
    ensures image { WritesImage result image }
    ensures reads { IsTrue S.steady → is_unread result ≡ false }
    ensures no_file { is_no_file result ≡ false }
{
    build(options, parts, image)?;
    Ok(())
}

pub(crate) fn build_parts<F: Files, W: Write, A: Allocator>(
    alloc: A,
    options: &Options,
    names: &[Vec<u8>],
    files: &mut F,
    image: &mut Out<W>,
) -> Result<(), Fault>
    requires fit { FitNames options.now (texts names.now) }
    ensures built { HonestFiles F.map files → BuildsNames options.now (F.map files.old).bytes
        (texts names.now) result image.old image.new }
    ensures files { OpensNames (texts names.now) result (F.map files.old) (F.map files.new) }
    ensures in_order { OpensEach (is_err result) (texts names.now)
        (F.map files.old) (F.map files.new) }
    ensures image { WritesImage result image }
    ensures reads { IsTrue F.Opened.steady → is_unread result ≡ false }
{
    let mut parts = open_all(alloc, names, files)?;
    build_opened(options, &mut parts, image)
}
