//! Where the file for a path is written.

ghost use Rattle.std.specs.Prelude.{◌≡◌, ◌++◌, [], Some, codes, decimal, true, IfErr, IfOk, IfSome, IsTrue, string_bytes};
ghost use Rattle.uimg_tool.specs.{Complaints.Ends, OldMakings.Begins};
ghost use Rattle.uimg_tool.specs.{BesidePaths.is_beside, Writings.{CreatesBeside, IsFile, LeadsTo, WritesFor, WritesNew}};

use crate::complaints::Complaints;
use crate::request_fault::FAILED;
use crate::safe_path::{NewBeside, SafePath, Writing};
use std::alloc::{AllocError, Global};
use std::io;
use std::io::{ErrorKind, Write};
use uimg_compat::OldFault;
use uimg_printing::Printed;
use uimg_world::{Kind, Target, World};

/// How many names are tried beside a path. Commands that were stopped left those that exist.
const TRIED: u32 = 10_000;

/// What a path leads to, to be written.
#[derive(Drop)]
pub(crate) enum Lead {
    /// A pipe.
    Pipe,

    /// What is written in place.
    InPlace,

    /// A file at this path, or nothing.
    File(String),
}

/// Creates a new file for the image at a path, or finds that it is written in place: then returns
/// `None`. If neither can be done, tells why and returns the status.
pub(crate) fn begin_image<D: World, V: Write>(
    world: &mut D,
    path: &str,
    complaints: &mut Complaints<'_, V>,
) -> Result<Option<(D::File, SafePath)>, u8>
    ensures begins { Begins path.now result (D.trace world.old) (D.trace world.new) }
    ensures empty { IsTrue D.knows → IfOk result (λ begun.
        IfSome begun (λ new. D.File.contents new.0 ≡ Some [])) }
    ensures failed { IfErr result (λ status. status ≡ 3) }
    ensures ends { IfErr result (λ status. Ends status complaints.old.count complaints.new.count) }
    ensures silent { IfOk result (λ begun. complaints.new.count ≡ complaints.old.count) }
{
    match writing_of(world, world.alloc(), path) {
        Ok(Writing::Beside(file, beside)) => Ok(Some((file, beside))),
        Ok(Writing::InPlace) => Ok(None),
        Ok(Writing::Pipe) => {
            let path = Printed(path.as_bytes());
            Err(complaints.tell(&OldFault::MadeAsPipe(path), FAILED))
        }
        Ok(Writing::Nowhere(reason)) => Err(complaints.tell_unwritten(path, &reason)),
        Err(_) => Err(complaints.tell_no_memory()),
    }
}

/// Creates the file if it is a new one. Fails if memory for the paths is refused.
pub(crate) fn writing_of<D: World>(
    world: &mut D,
    alloc: Global,
    path: &str,
) -> Result<Writing<D::File>, AllocError>
    ensures writes { WritesFor path.now result (D.trace world.old) (D.trace world.new) }
    ensures empty { IsTrue D.knows → WritesNew D.File.contents result }
{
    match lead_of(world, alloc, path) {
        Ok(Lead::Pipe) => Ok(Writing::Pipe),
        Ok(Lead::InPlace) => Ok(Writing::InPlace),
        Ok(Lead::File(whole)) => match new_beside(world, alloc, whole.as_str()) {
            Ok(Ok(NewBeside { file, path: new })) => {
                Ok(Writing::Beside(file, SafePath { new, whole }))
            }
            Ok(Err(error)) => Ok(Writing::Nowhere(error)),
            Err(error) => Err(error),
        },
        Err(error) => Err(error),
    }
}

// Follows symbolic links to a file. Fails if memory for its path is refused.
fn lead_of<D: World>(world: &mut D, alloc: Global, path: &str) -> Result<Lead, AllocError>
    ensures { LeadsTo path.now result (D.trace world.old) (D.trace world.new) }
{
    match world.target_of(path) {
        Target::Pipe => Ok(Lead::Pipe),
        Target::Other => Ok(Lead::InPlace),
        Target::File => match world.canonicalize(path) {
            Ok(canonical) => file(alloc, canonical.as_str()),
            Err(_) => match world.kind_at(path) {
                Kind::Link => Ok(Lead::InPlace),
                Kind::Nothing => file(alloc, path),
                Kind::File => file(alloc, path),
                Kind::Folder => file(alloc, path),
            },
        },
        Target::Nothing => match world.kind_at(path) {
            Kind::Nothing => file(alloc, path),
            Kind::File => Ok(Lead::InPlace),
            Kind::Folder => Ok(Lead::InPlace),
            Kind::Link => Ok(Lead::InPlace),
        },
    }
}

fn file(alloc: Global, path: &str) -> Result<Lead, AllocError>
    ensures { IsFile path.now result }
{
    match String::from_str(alloc, path) {
        Ok(path) => Ok(Lead::File(path)),
        Err(error) => Err(error),
    }
}

/// Creates a file beside a path, under the first free name. Returns why it cannot be created. Fails
/// if memory for its path is refused.
fn new_beside<W: World>(
    world: &mut W,
    alloc: Global,
    path: &str,
) -> Result<io::Result<NewBeside<W::File>>, AllocError>
    ensures made { IfOk result (λ tried. IfOk tried (λ new.
        is_beside path.now (string_bytes new.path) ≡ true)) }
    ensures tries { CreatesBeside path.now result (W.trace world.old) (W.trace world.new) }
    ensures empty { IsTrue W.knows → IfOk result (λ tried. IfOk tried (λ new.
        W.File.contents new.file ≡ Some [])) }
{
    for number in 0..TRIED {
        let path = path_beside(alloc, path, number + 1)?;
        match world.create_new(path.as_str()) {
            Ok(file) => return Ok(Ok(NewBeside { file, path })),
            Err(error) if error.kind() == ErrorKind::AlreadyExists => {}
            Err(error) => return Ok(Err(error)),
        }
    }
    Ok(Err(io::Error::from(ErrorKind::AlreadyExists)))
}

fn path_beside(alloc: Global, path: &str, number: u32) -> Result<String, AllocError>
    ensures { IfOk result (λ new. string_bytes new
        ≡ path.now ++ codes ".uimg-new" ++ decimal number) }
{
    format!(in alloc; "{path}.uimg-new{number}")
}
