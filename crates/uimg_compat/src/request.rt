//! The request of a command line.

use crate::auto_source::AutoSource;
use crate::dtc_words::DtcWords;
use uimg_fit_base::Placement;
use uimg_requests::{MakeRequest, Manner, RunRequest};
use uimg_texts::Field;

/// The request of a command line.
#[derive(Drop)]
pub enum OldRequest<'a> {
    /// A command on an image, whose listing may be suppressed.
    Run {
        request: RunRequest<'a>,
        is_quiet: bool,
    },

    /// The build of a legacy image, whose listing may be suppressed.
    Make {
        request: MakeRequest<'a>,
        is_quiet: bool,
    },

    /// The build of a FIT image from a source.
    MakeFit(FitRequest<'a>),

    /// The build of a FIT image from the source that mkimage makes itself.
    MakeAuto(AutoRequest<'a>),

    /// The update of a FIT image.
    Update(UpdateRequest<'a>),

    /// A text.
    Show(Show),
}

/// The build of a FIT image from a source.
#[derive(Drop)]
pub struct FitRequest<'a> {
    /// The path of the source, or `-` for standard input.
    pub source: &'a str,

    /// Where the payloads are placed.
    pub placement: Placement,

    /// How it is made.
    pub manner: Manner,

    /// The path of the image.
    pub outfile: &'a str,

    /// What the arguments for dtc change.
    pub dtc: DtcWords<'a>,

    /// The path of a key that mkimage signs with, if such a file exists.
    pub key: Option<&'a str>,

    /// Whether the listing is suppressed.
    pub is_quiet: bool,
}

/// The build of a FIT image from the source that mkimage makes itself.
#[derive(Clone, Copy)]
pub struct AutoRequest<'a> {
    /// The source.
    pub source: AutoSource<'a>,

    /// Where the payloads are placed.
    pub placement: Placement,

    /// How it is made.
    pub manner: Manner,

    /// The path of the image.
    pub outfile: &'a str,

    /// The path of a key that mkimage signs with, if such a file exists.
    pub key: Option<&'a str>,

    /// Whether the listing is suppressed.
    pub is_quiet: bool,
}

/// The update of a FIT image: its hashes are set, and its timestamp.
#[derive(Clone, Copy)]
pub struct UpdateRequest<'a> {
    /// The path of the image.
    pub image: &'a str,

    /// Where the payloads are placed.
    pub placement: Placement,

    /// How it is made.
    pub manner: Manner,

    /// Whether the timestamp is set.
    pub sets_time: bool,

    /// Whether the listing is suppressed.
    pub is_quiet: bool,
}

/// A requested text.
#[derive(Clone, Copy)]
pub enum Show {
    /// This help text.
    Help(&'static str),

    /// The version.
    Version,

    /// The names of a field.
    Names(Field),
}
