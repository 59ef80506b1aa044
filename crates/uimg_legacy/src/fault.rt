//! What is wrong with an image, and why a command stopped.

ghost use Rattle.std.specs.Prelude.{◌≡◌, Some};
ghost use Rattle.uimg_legacy.specs.FaultTexts.{fault_text, fault_code, text_of};

use std::error::Error;
use std::fmt;
use std::fmt::{Display, Formatter, Write};
use uimg_base::{MoveFault, PutFault, SourceFault};

/// What is wrong with a legacy image, or with the parts to build one from. Its text is the line
/// that the program prints, a letter and the variant's number first.
#[derive(Clone, Copy, Debug, PartialEq, Eq)]
pub enum LegacyFault {
    /// The file has fewer than 64 bytes.
    TooShort = 1,
    /// The file does not begin with `0x27051956`.
    BadMagic = 2,
    /// The header's CRC is not that of its bytes.
    BadHeaderCrc = 3,
    /// The data end after the file.
    Truncated = 4,
    /// The data's CRC is not that in the header.
    BadDataCrc = 5,
    /// The data end before the zero word at the end of the table of sizes.
    NoTableEnd = 6,
    /// A part ends after the data.
    PartOutside = 7,
    /// The image has no part at the position.
    NoSuchPart = 8,
    /// A part is empty.
    EmptyPart = 9,
    /// The data have more than 4294967295 bytes.
    TooLarge = 10,
}

impl LegacyFault {
    /// Returns the line of the fault.
    pub fn text(self) -> &'static str
        ensures { result.now ≡ fault_text self }
    {
        match self {
            LegacyFault::TooShort => "L1 too short",
            LegacyFault::BadMagic => "L2 bad magic",
            LegacyFault::BadHeaderCrc => "L3 bad header CRC",
            LegacyFault::Truncated => "L4 truncated",
            LegacyFault::BadDataCrc => "L5 bad data CRC",
            LegacyFault::NoTableEnd => "L6 no table end",
            LegacyFault::PartOutside => "L7 part outside",
            LegacyFault::NoSuchPart => "L8 no such part",
            LegacyFault::EmptyPart => "L9 empty part",
            LegacyFault::TooLarge => "L10 too large",
        }
    }

    /// Returns the letter and number of the fault, the first word of its line.
    pub fn code(self) -> &'static str
        ensures { result.now ≡ fault_code self }
    {
        match self {
            LegacyFault::TooShort => "L1",
            LegacyFault::BadMagic => "L2",
            LegacyFault::BadHeaderCrc => "L3",
            LegacyFault::Truncated => "L4",
            LegacyFault::BadDataCrc => "L5",
            LegacyFault::NoTableEnd => "L6",
            LegacyFault::PartOutside => "L7",
            LegacyFault::NoSuchPart => "L8",
            LegacyFault::EmptyPart => "L9",
            LegacyFault::TooLarge => "L10",
        }
    }
}

impl Display for LegacyFault {
    ghost output = { λ fault. Some (fault_text fault) };

    fn fmt<W: Write>(&self, f: &mut Formatter<W>) -> fmt::Result {
        f.write_str(self.text())
    }
}

impl Error for LegacyFault {}

/// Why a command stopped.
#[derive(Clone, Copy, Debug, PartialEq, Eq)]
pub enum Fault {
    /// The image is refused.
    Legacy(LegacyFault),
    /// A read failed.
    Read,
    /// A write failed.
    Put,
}

impl Display for Fault {
    ghost output = { λ fault. Some (text_of fault) };

    fn fmt<W: Write>(&self, f: &mut Formatter<W>) -> fmt::Result {
        match *self {
            Fault::Legacy(fault) => f.write_str(fault.text()),
            Fault::Read => f.write_str("read failed"),
            Fault::Put => f.write_str("write failed"),
        }
    }
}

impl Error for Fault {}

impl From<LegacyFault> for Fault {
    ghost use Rattle.std.specs.Prelude.{◌≡◌};
    ghost use Rattle.uimg_legacy.specs.declared.fault.Fault.TheVariants.{Legacy};

    ghost from_gives = { λ f e. e ≡ Legacy f };

    fn from(fault: LegacyFault) -> Fault {
        Fault::Legacy(fault)
    }
}

impl From<SourceFault> for Fault {
    ghost use Rattle.std.specs.Prelude.{◌≡◌};
    ghost use Rattle.uimg_legacy.specs.declared.fault.Fault.TheVariants.{Read};

    ghost from_gives = { λ _ e. e ≡ Read };

    fn from(_fault: SourceFault) -> Fault {
        Fault::Read
    }
}

impl From<PutFault> for Fault {
    ghost use Rattle.std.specs.Prelude.{◌≡◌};
    ghost use Rattle.uimg_legacy.specs.declared.fault.Fault.TheVariants.{Put};

    ghost from_gives = { λ _ e. e ≡ Put };

    fn from(_fault: PutFault) -> Fault {
        Fault::Put
    }
}

impl From<MoveFault> for Fault {
    ghost use Rattle.std.specs.Prelude.{◌≡◌};
    ghost use Rattle.uimg_legacy.specs.Faults.{fault_of};

    ghost from_gives = { λ f e. e ≡ fault_of f };

    fn from(fault: MoveFault) -> Fault {
        match fault {
            MoveFault::Read => Fault::Read,
            MoveFault::Put => Fault::Put,
        }
    }
}
