//! Why a strict check refuses an image.

ghost use Rattle.std.specs.Prelude.{◌≡◌};
ghost use Rattle.uimg_strict.specs.Words.{word_of};

/// Why a strict check refuses an image whose checksums or hashes are right.
#[derive(Clone, Copy, Debug, PartialEq, Eq)]
pub enum Looseness {
    /// The root has no `description`.
    NoDescription,
    /// The root has no `timestamp`.
    NoTimestamp,
    /// A node's name has an `@`: U-Boot finds it by the name before this.
    UnitAddress,
    /// A node has two child nodes of one name: U-Boot finds the first.
    DoubledNode,
    /// A node has two properties of one name: U-Boot reads the first.
    DoubledProperty,
    /// A node has `uboot-ignore`: U-Boot compares no hash node with it.
    IgnoredHash,
    /// An image has a `data-position`, `data-offset` or `data-size` that is not of four bytes.
    OddCell,
    /// An image has `data` and a payload by `data-size` with an offset or a position.
    TwoPayloads,
    /// An image has only `data-size`, or an offset or a position without it.
    HalfPlace,
    /// libfdt refuses the header, the reservation block, or the root's name or place.
    UnsoundBlob,
    /// A payload by an offset or a position begins before the blob's end, or before the end of the
    /// payload of an earlier image.
    Misplaced,
    /// A legacy image has no data.
    EmptyData,
    /// No name in image.h has the code of the type.
    UnknownType,
    /// No name in image.h has the code of the architecture.
    UnknownArchitecture,
    /// No name in image.h has the code of the operating system.
    UnknownSystem,
    /// No name in image.h has the code of the compression.
    UnknownCompression,
    /// A configuration has no signature node.
    Unsigned,
    /// A signature node of a configuration has no `algo`, `padding` or `value` that is known.
    UnknownSignature,
    /// A configuration is signed by SHA-1.
    WeakSignature,
    /// The strings that a signature covers are not the first ones of the strings block.
    SignedStrings,
    /// U-Boot does not walk over the nodes that a signature covers, or over the tree.
    SignedNodes,
    /// The value of a signature has another length than the modulus of the key.
    SignatureLength,
    /// The value of a signature is not below the modulus of the key.
    SignatureRange,
    /// The value of a signature is not one of the configuration by the key.
    BadSignature,
}

/// The reason of a refusal, and the node.
#[derive(Drop)]
pub struct Loose {
    /// Why.
    pub why: Looseness,
    /// The name of the node, none for the root and the blob.
    pub node: Option<Vec<u8>>,
}

impl Looseness {
    /// Returns the word that a check prints.
    pub fn word(self) -> &'static str
        ensures { result.now ≡ word_of self }
    {
        match self {
            Looseness::NoDescription => "no-description",
            Looseness::NoTimestamp => "no-timestamp",
            Looseness::UnitAddress => "unit-address",
            Looseness::DoubledNode => "doubled-node",
            Looseness::DoubledProperty => "doubled-property",
            Looseness::IgnoredHash => "ignored-hash",
            Looseness::OddCell => "odd-cell",
            Looseness::TwoPayloads => "two-payloads",
            Looseness::HalfPlace => "half-place",
            Looseness::UnsoundBlob => "unsound-blob",
            Looseness::Misplaced => "misplaced",
            Looseness::EmptyData => "empty-data",
            Looseness::UnknownType => "unknown-type",
            Looseness::UnknownArchitecture => "unknown-architecture",
            Looseness::UnknownSystem => "unknown-system",
            Looseness::UnknownCompression => "unknown-compression",
            Looseness::Unsigned => "unsigned",
            Looseness::UnknownSignature => "unknown-signature",
            Looseness::WeakSignature => "weak-signature",
            Looseness::SignedStrings => "signed-strings",
            Looseness::SignedNodes => "signed-nodes",
            Looseness::SignatureLength => "signature-length",
            Looseness::SignatureRange => "signature-range",
            Looseness::BadSignature => "bad-signature",
        }
    }
}
