//! Why a message cannot be computed.

use thiserror::Error;
use uimg_blob_reading::PropertiesFault;

/// Why a message cannot be computed.
#[derive(Clone, Copy, Debug, PartialEq, Eq, Error)]
pub enum SigningFault {
    /// A read failed.
    #[error("read failed")]
    Read,
    /// Memory was refused.
    #[error("out of memory")]
    OutOfMemory,
    /// The source does not have the blob that was indexed.
    #[error("changed while it was read")]
    Changed,
    /// A value of the configuration has more than 8192 bytes.
    #[error("a value of the configuration is longer than 8192 bytes")]
    TooLong,
    /// The signature covers more nodes than U-Boot has place for: more than 100, or their paths have
    /// more than 4096 bytes, or too many children of theirs are not covered. An image that is named
    /// more than once counts as often.
    #[error("the signature covers more nodes than U-Boot has place for")]
    TooManyNodes,
    /// The configuration names no image, or one that has no hash node.
    #[error("the configuration names no image, or one without a hash node")]
    Unhashed,
    /// A node is inside 32 others.
    #[error("nodes are nested more than 32 deep")]
    TooDeep,
    /// The structure block goes on behind its last token.
    #[error("the structure block goes on behind its last token")]
    EarlyEnd,
    /// The name of a signed property is not in the signed strings.
    #[error("the name of a signed property is not signed")]
    NameUnsigned,
    /// The value of `hashed-strings` is not two cells.
    #[error("hashed-strings is not two cells")]
    BadStrings,
    /// The first cell of `hashed-strings`, an offset, is not 0.
    #[error("hashed-strings does not begin at 0")]
    StringsOffset,
    /// The strings block has fewer bytes than are signed.
    #[error("hashed-strings is larger than the strings block")]
    StringsOutside,
}

impl From<PropertiesFault> for SigningFault {
    ghost use Rattle.std.specs.Prelude.{◌≡◌};
    ghost use Rattle.uimg_signing.specs.Faults.{of_properties};

    ghost from_gives = { λ f e. e ≡ of_properties f };

    fn from(fault: PropertiesFault) -> SigningFault {
        match fault {
            PropertiesFault::Read => SigningFault::Read,
            PropertiesFault::OutOfMemory => SigningFault::OutOfMemory,
            PropertiesFault::Changed => SigningFault::Changed,
        }
    }
}
