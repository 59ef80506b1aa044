//! Why a command line requests nothing.

ghost use Rattle.std.specs.Prelude.{Some};
ghost use Rattle.uimg_cli.specs.FaultTexts.{not_number, text_of};

use std::alloc::AllocError;
use std::error::Error;
use std::fmt;
use std::fmt::{Display, Formatter, Write};

/// Why a command line requests nothing. Its text is the line that the program prints after `uimg:
/// `, except for `NoCommand`, whose text is all that it prints.
#[derive(Debug, Drop)]
pub enum WordsFault {
    /// The arguments are not those of a command; this text says why.
    NoCommand(String),

    /// There is no subcommand. The command line library reports this itself.
    NoSubcommand,

    /// dumpimage was given neither -l nor -o.
    NoListOrOutfile,

    /// mkimage was given none of -l, -d and -f.
    NoDataOrSource,

    /// No image to check or to unpack is named.
    NoImages,

    /// Standard input would be read twice.
    InputTwice,

    /// The name of a folder is empty.
    NoFolder,

    /// The argument of --need is not the name of an algorithm.
    UnknownAlgo(String),

    /// The argument of this option is not a decimal number of 64 bits.
    NotNumber(&'static str, String),

    /// The file of this option would be written to standard output.
    ToOutput(&'static str),

    /// The lines of --clean are no JSON.
    CleansWithJson,

    /// An image is named beside a configuration.
    OnlyWithConfig,

    /// This option is given without --key.
    WithoutKey(&'static str),

    /// Both data and a source are named.
    DataWithSource,

    /// The argument of -A, -O, -T or -C is not a known short name.
    UnknownName,

    /// -d was given with the type of FIT images.
    FlatDtNeedsSource,

    /// A position is not a decimal number of 32 bits, or an address not a hexadecimal one.
    BadNumber,

    /// SOURCE_DATE_EPOCH is set, but not to a decimal number of 32 bits.
    BadEpoch,

    /// Memory ran out.
    OutOfMemory,
}

// An argument that is no number, and what it should be.
#[derive(Drop)]
struct NotNumber<'a>(&'a str);

impl<'a> Display for NotNumber<'a> {
    ghost output = { λ word. Some (not_number word.0.now) };

    fn fmt<W: Write>(&self, f: &mut Formatter<W>) -> fmt::Result {
        write!(f, "'{}' is not a decimal number below 2^64", self.0)
    }
}

impl Display for WordsFault {
    ghost output = { λ fault. Some (text_of fault) };

    fn fmt<W: Write>(&self, f: &mut Formatter<W>) -> fmt::Result {
        match self {
            WordsFault::NoCommand(text) => write!(f, "{text}"),
            WordsFault::NoSubcommand => f.write_str("no command"),
            WordsFault::NoListOrOutfile => f.write_str("no -l or -o"),
            WordsFault::NoDataOrSource => f.write_str("no -d or -f"),
            WordsFault::NoImages => f.write_str("no image"),
            WordsFault::InputTwice => {
                f.write_str("- is given twice, but standard input is read once")
            }
            WordsFault::NoFolder => f.write_str("-C: no folder"),
            WordsFault::UnknownAlgo(name) => write!(
                f,
                "--need: unknown algorithm '{name}'; use crc32, md5, sha1, sha256, sha384 or sha512"
            ),
            WordsFault::NotNumber(option, text) => {
                write!(f, "--{option}: {}", NotNumber(text.as_str()))
            }
            WordsFault::ToOutput(option) => write!(
                f,
                "--{option} -: standard output is not supported; for a file of that name use ./-"
            ),
            WordsFault::CleansWithJson => f.write_str("--clean with --json"),
            WordsFault::OnlyWithConfig => f.write_str("--only with --config"),
            WordsFault::WithoutKey(option) => write!(f, "--{option} without --key"),
            WordsFault::DataWithSource => f.write_str("-d with -f"),
            WordsFault::UnknownName => f.write_str("unknown name"),
            WordsFault::FlatDtNeedsSource => f.write_str("flat_dt needs -f"),
            WordsFault::BadNumber => f.write_str("bad number"),
            WordsFault::BadEpoch => f.write_str("bad SOURCE_DATE_EPOCH"),
            WordsFault::OutOfMemory => f.write_str("out of memory"),
        }
    }
}

impl Error for WordsFault {}

impl From<AllocError> for WordsFault {
    ghost use Rattle.std.specs.Prelude.{◌≡◌};
    ghost use Rattle.uimg_cli.specs.declared.command_line.words_fault.WordsFault.TheVariants.{OutOfMemory};

    ghost from_gives = { λ _ fault. fault ≡ OutOfMemory };

    fn from(_error: AllocError) -> WordsFault {
        WordsFault::OutOfMemory
    }
}
