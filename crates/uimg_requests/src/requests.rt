//! Requests of a command line, with the paths that it names.

ghost use Rattle.std.specs.Prelude.{◌≡◌, ◌++◌, [], IfOk};
ghost use Rattle.uimg_requests.specs.{Names.part_names, Requests.{AsksParts, AsksSource, folder_of}};
ghost use Rattle.uimg_requests.specs.Commands.{HasFitNames, has_fit_names_prop};

use crate::command::Command;
use crate::make_command::{MakeCommand, Manner};
use crate::names::file_names;
use std::alloc::{AllocError, Global};
use uimg_fit_base::{Placement, WORD_ALIGNMENT};
use uimg_legacy::Options;
use uimg_texts::Naming;

/// A command on an image.
#[derive(Clone, Copy, Debug, PartialEq, Eq)]
pub struct RunRequest<'a> {
    /// What is done with the image.
    pub command: Command,

    /// The names for a listing.
    pub naming: Naming,

    /// The path of the image.
    pub image: &'a str,

    /// The path of an extraction's file.
    pub outfile: Option<&'a str>,
}

/// The build of an image.
#[derive(Drop)]
pub struct MakeRequest<'a> {
    /// What it is made from, with names of files that `make` accepts.
    pub command: MakeCommand,

    /// How it is made.
    pub manner: Manner,

    /// The path of the image source, or an empty text if the image is made from data.
    pub source: &'a str,

    /// The folder of the files; an empty text is the current one.
    pub folder: &'a str,

    /// The path of the image.
    pub outfile: &'a str,

    /// Whether the header replaces the first 64 bytes of the file, which are 0xff.
    pub is_xip: bool,

    ghost fits: { HasFitNames command } by { has_fit_names_prop command },
}

impl<'a> MakeRequest<'a> {
    ghost use Rattle.uimg_requests.specs.Plain.{IsAt, IsPlain};

    /// Returns the request for a legacy image from the files in the argument of -d, listed with the
    /// names of the profile. Fails if memory for the files' names is refused.
    #[tactic(auto, using(crate::proofs::NameLaws::names_fit))]
    pub fn of_parts(
        alloc: Global,
        options: Options,
        word: &str,
        time: u32,
        outfile: &'a str,
    ) -> Result<MakeRequest<'a>, AllocError>
        ensures asks { IfOk result (λ request. AsksParts request.command options
            (part_names options.kind word.now)) }
        ensures place { IfOk result (λ request. IsAt request [] []) }
        ensures plain { IfOk result (λ request. IsPlain request time outfile.entry.now) }
    {
        let files = file_names(alloc, options.kind, word)?;
        Ok(MakeRequest {
            command: MakeCommand::Parts { options, files },
            manner: Manner {
                time,
                naming: Naming::Profile,
                align: WORD_ALIGNMENT,
            },
            source: "",
            folder: "",
            outfile,
            is_xip: false,
        })
    }

    /// Returns the request for a FIT image from the source at a path. Files are in the source's
    /// folder. The image is listed with the names of the profile, and its payloads are padded to
    /// multiples of 4. Folder and name together are the path; the folder ends with the last slash.
    /// Fails if memory for the name is refused.
    pub fn of_source(
        alloc: Global,
        path: &'a str,
        placement: Placement,
        time: u32,
        outfile: &'a str,
    ) -> Result<MakeRequest<'a>, AllocError>
        ensures asks { IfOk result (λ request. AsksSource request.command request.folder.now
            path.entry.now placement) }
        ensures place { IfOk result (λ request.
            IsAt request path.entry.now (folder_of path.entry.now)) }
        ensures plain { IfOk result (λ request. IsPlain request time outfile.entry.now) }
    {
        let (folder, name) = cut_behind_folder(path);
        let mut request = MakeRequest::of_source_here(alloc, name, placement, time, outfile)?;
        request.source = path;
        request.folder = folder;
        Ok(request)
    }

    /// Returns the same request, but with files in the current folder, wherever the source is.
    pub fn of_source_here(
        alloc: Global,
        path: &'a str,
        placement: Placement,
        time: u32,
        outfile: &'a str,
    ) -> Result<MakeRequest<'a>, AllocError>
        ensures asks { IfOk result (λ request. AsksSource request.command request.folder.now
            path.entry.now placement) }
        ensures place { IfOk result (λ request. IsAt request path.entry.now []) }
        ensures plain { IfOk result (λ request. IsPlain request time outfile.entry.now) }
    {
        let source = Vec::from_slice(alloc, path.as_bytes())?;
        Ok(MakeRequest {
            command: MakeCommand::Tree { source, placement },
            manner: Manner {
                time,
                naming: Naming::Profile,
                align: WORD_ALIGNMENT,
            },
            source: path,
            folder: "",
            outfile,
            is_xip: false,
        })
    }
}

/// Cuts a path after its last slash.
pub fn cut_behind_folder(path: &str) -> (&str, &str)
    ensures whole { result.0.now ++ result.1.now ≡ path.now }
    ensures folder { result.0.now ≡ folder_of path.now }
{
    match path.rfind('/') {
        Some(slash) => path.split_at(slash + 1),
        None => ("", path),
    }
}
