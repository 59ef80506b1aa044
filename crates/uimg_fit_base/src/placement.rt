//! Where the payloads of an image to be built go.

ghost use Rattle.std.specs.Prelude.{◌≡◌};
ghost use Rattle.uimg_fit_base.specs.Placements.{align_of, aligned_by, least_of};

/// The alignment of a blob's own values, and the least of a payload after it.
pub const WORD_ALIGNMENT: u32 = 4;

/// Where the payloads of a FIT image to be built go.
#[derive(Clone, Copy, Debug, PartialEq, Eq)]
pub enum Placement {
    /// In the blob, as the values of `data`.
    Inside,
    /// After the blob, each given by `data-offset`, which counts from the blob's end.
    After,
    /// After the blob, each given by `data-position`, the first at this offset of the file.
    At(u32),
}

impl Placement {
    /// Returns the placement with an alignment, which counts only for payloads after the blob.
    pub fn aligned_by(self, align: u32) -> AlignedPlacement
        ensures { result ≡ aligned_by self align }
    {
        match self {
            Placement::Inside => AlignedPlacement::Inside { least: 0 },
            Placement::After => AlignedPlacement::After { align },
            Placement::At(position) => AlignedPlacement::At { position, align },
        }
    }
}

/// Where the payloads of a FIT image to be built go, and with which alignment.
///
/// After the blob, its end and each payload's are rounded up to the alignment, as by
/// `uimg_blob_writing::aligned`.
#[derive(Clone, Copy)]
pub enum AlignedPlacement {
    /// In the blob, as the values of `data`. The blob has at least so many bytes: zeros behind its
    /// strings block are free room.
    Inside { least: u32 },
    /// After the blob, each given by `data-offset`, which counts from the blob's end.
    After { align: u32 },
    /// After the blob, each given by `data-position`, the first at this offset of the file.
    At { position: u32, align: u32 },
}

impl AlignedPlacement {
    /// Returns the alignment of the blob's end and of each payload's.
    pub fn align(self) -> u32
        ensures { result ≡ align_of self }
    {
        match self {
            AlignedPlacement::Inside { least: _ } => WORD_ALIGNMENT,
            AlignedPlacement::After { align } => align,
            AlignedPlacement::At { position: _, align } => align,
        }
    }

    /// Returns the least size of the blob in bytes.
    pub fn least(self) -> u32
        ensures { result ≡ least_of self }
    {
        match self {
            AlignedPlacement::Inside { least } => least,
            AlignedPlacement::After { align: _ } => 0,
            AlignedPlacement::At {
                position: _,
                align: _,
            } => 0,
        }
    }
}
