//! The faults, by their numbers: the letter as its ASCII code times 256, plus the number.

ghost use Rattle.std.specs.Prelude.{◌≡◌, ◌≤◌};
ghost use Rattle.uimg_c.specs.Numbers.{blob_of, fit_of, legacy_of, loose_of};
ghost use Rattle.uimg_c.specs.Strict.{loose_number};

use uimg_blob_reading::BlobFault;
use uimg_fit_base::FitFault;
use uimg_legacy::LegacyFault;
use uimg_strict::Looseness;

/// L1 to L10.
const LEGACY_FAULTS: [LegacyFault; 10] = [
    LegacyFault::TooShort,
    LegacyFault::BadMagic,
    LegacyFault::BadHeaderCrc,
    LegacyFault::Truncated,
    LegacyFault::BadDataCrc,
    LegacyFault::NoTableEnd,
    LegacyFault::PartOutside,
    LegacyFault::NoSuchPart,
    LegacyFault::EmptyPart,
    LegacyFault::TooLarge,
];

/// B1 to B11.
const BLOB_FAULTS: [BlobFault; 11] = [
    BlobFault::TooShort,
    BlobFault::BadMagic,
    BlobFault::BadVersion,
    BlobFault::BlockOutside,
    BlobFault::BadToken,
    BlobFault::Truncated,
    BlobFault::BadNodeName,
    BlobFault::BadNesting,
    BlobFault::BadPropertyName,
    BlobFault::TooLarge,
    BlobFault::OutOfMemory,
];

/// F1 to F10.
const FIT_FAULTS: [FitFault; 10] = [
    FitFault::NoImages,
    FitFault::NoData,
    FitFault::DataOutside,
    FitFault::NoSuchImage,
    FitFault::UnknownAlgo,
    FitFault::PositionTooLow,
    FitFault::TooLarge,
    FitFault::OutOfMemory,
    FitFault::NoFile,
    FitFault::ReadFailed,
];

/// S1 to S24.
const LOOSENESS: [Looseness; 24] = [
    Looseness::NoDescription,
    Looseness::NoTimestamp,
    Looseness::UnitAddress,
    Looseness::DoubledNode,
    Looseness::DoubledProperty,
    Looseness::IgnoredHash,
    Looseness::OddCell,
    Looseness::TwoPayloads,
    Looseness::HalfPlace,
    Looseness::UnsoundBlob,
    Looseness::Misplaced,
    Looseness::EmptyData,
    Looseness::UnknownType,
    Looseness::UnknownArchitecture,
    Looseness::UnknownSystem,
    Looseness::UnknownCompression,
    Looseness::Unsigned,
    Looseness::UnknownSignature,
    Looseness::WeakSignature,
    Looseness::SignedStrings,
    Looseness::SignedNodes,
    Looseness::SignatureLength,
    Looseness::SignatureRange,
    Looseness::BadSignature,
];

pub(crate) fn legacy_of(fault: u32) -> Option<LegacyFault>
    ensures { result ≡ legacy_of fault }
{
    for own in LEGACY_FAULTS {
        if fault == 256 * (b'L' as u32) + own as u32 {
            return Some(own);
        }
    }
    None
}

pub(crate) fn blob_of(fault: u32) -> Option<BlobFault>
    ensures { result ≡ blob_of fault }
{
    for own in BLOB_FAULTS {
        if fault == 256 * (b'B' as u32) + own as u32 {
            return Some(own);
        }
    }
    None
}

pub(crate) fn fit_of(fault: u32) -> Option<FitFault>
    ensures { result ≡ fit_of fault }
{
    for own in FIT_FAULTS {
        if fault == 256 * (b'F' as u32) + own as u32 {
            return Some(own);
        }
    }
    None
}

/// The numbers are 1 to 24.
pub(crate) fn number_of_loose(why: Looseness) -> u32
    ensures is { result ≡ loose_number why }
    ensures most { result ≤ 24 }
{
    why as u32 + 1
}

pub(crate) fn loose_of(fault: u32) -> Option<Looseness>
    ensures { result ≡ loose_of fault }
{
    for own in LOOSENESS {
        if fault == 256 * (b'S' as u32) + number_of_loose(own) {
            return Some(own);
        }
    }
    None
}
