//! Why a command line requests nothing.

ghost use Rattle.std.specs.Prelude.{◌≡◌};
ghost use Rattle.uimg_compat.specs.declared.fault.OldFault.TheVariants.{Misused, OutOfMemory};

use crate::getopt::Misuse;
use std::alloc::AllocError;
use thiserror::Error;
use uimg_printing::Printed;

/// Why a command line requests nothing. Its text is the line after the tool's name, in which
/// arguments are printed by the rule of names.
#[derive(Clone, Copy, Debug, Error)]
pub enum OldFault<'a> {
    /// The arguments are not options and operands as getopt reads them.
    #[error("{0}")]
    Misused(Misuse<'a>),

    /// The argument of -A, -O, -T or -C is not a name of its field.
    #[error("-{letter}: unknown {title} '{word}'; mkimage -{letter} list prints all names")]
    UnknownName {
        letter: char,
        title: &'static str,
        word: Printed<'a>,
    },

    /// The argument of -A, -O, -T or -C is not a name of its field, but near to one.
    #[error("-{letter}: unknown {title} '{word}'; did you mean '{nearest}'? mkimage -{letter} list prints all names")]
    NearName {
        letter: char,
        title: &'static str,
        word: Printed<'a>,
        nearest: &'static str,
    },

    /// The argument of an option is not a number.
    #[error("-{letter}: '{word}' is not a {title} number")]
    NoNumber {
        letter: char,
        title: &'static str,
        word: Printed<'a>,
    },

    /// Readers of the image look only at multiples of 4 for payloads after the tree.
    #[error("-B: '{0}' is not a multiple of 4")]
    UnevenAlignment(Printed<'a>),

    /// SOURCE_DATE_EPOCH is in no year that the C library has.
    #[error("SOURCE_DATE_EPOCH is too large")]
    BadEpoch,

    /// No image is named.
    #[error("no image given")]
    NoImage,

    /// dumpimage was given neither -l nor -o.
    #[error("no -l or -o given")]
    NoOutfile,

    /// Standard output is named as the outfile.
    #[error("-o -: standard output is not supported; for a file of that name use ./-")]
    PartToOutput,

    /// mkimage was given none of -l, -d and -f.
    #[error("no -l, -d or -f given")]
    NothingToMake,

    /// Both data and a source are named.
    #[error("-d is given with -f")]
    DataWithSource,

    /// Data are named for an image that is updated.
    #[error("-d is given with -F")]
    DataWithUpdate,

    /// -l was given with -F.
    #[error("-l is given with -F")]
    ListWithUpdate,

    /// -l was given with a source.
    #[error("-l is given with -f")]
    ListWithSource,

    /// An image would be written to a pipe, from which it could not be read back.
    #[error("cannot write {0}: it is a pipe")]
    MadeAsPipe(Printed<'a>),

    /// -f auto was given without data.
    #[error("-f auto needs -d")]
    NoData,

    /// The type flat_dt was given without a source.
    #[error("-T flat_dt needs -f")]
    NoSource,

    /// Images of this type are neither legacy nor FIT images.
    #[error("-T {0}: not supported; use mkimage of u-boot-tools")]
    OtherImages(Printed<'a>),

    /// The option is for signing.
    #[error("-{0}: uimg does not sign; mkimage -F of u-boot-tools signs an existing image")]
    Signs(char),

    /// The header of an image of several parts is to replace the beginning of the data.
    #[error("-x: not supported for several parts")]
    XipOfParts,

    /// With this argument dtc makes another image or none, or a shell reads it otherwise.
    #[error("-D: '{0}' is not supported; use mkimage of u-boot-tools")]
    DtcWord(Printed<'a>),

    /// The last option for dtc has no value.
    #[error("-D: the last option needs a value")]
    DtcEnd,

    /// dtc refuses both options together.
    #[error("-D: -p is given with -S")]
    DtcPadAndSpace,

    /// The labels of the source would be in the image.
    #[error("-D: -@ is not supported for a source with labels; use mkimage of u-boot-tools")]
    DtcSymbols,

    /// A key for signatures of -f auto has no algorithm.
    #[error("-f auto with -g needs -o")]
    NoAlgorithm,

    /// Memory ran out.
    #[error("out of memory")]
    OutOfMemory,
}

impl<'a> From<AllocError> for OldFault<'a> {
    ghost from_gives = { λ _ fault. fault ≡ OutOfMemory };

    fn from(_error: AllocError) -> OldFault<'a> {
        OldFault::OutOfMemory
    }
}

impl<'a> From<Misuse<'a>> for OldFault<'a> {
    ghost from_gives = { λ misuse fault. fault ≡ Misused misuse };

    fn from(misuse: Misuse<'a>) -> OldFault<'a> {
        OldFault::Misused(misuse)
    }
}
