//! Why a tree was not written.

use thiserror::Error;
use uimg_base::{MoveFault, PutFault, SourceFault};

/// Why a tree was not written.
#[derive(Clone, Copy, Debug, PartialEq, Eq, Error)]
pub enum TreeFault {
    /// A write failed.
    #[error("write failed")]
    Put,
    /// A read of a file failed, or its size is not the one that the tree stores.
    #[error("read failed")]
    Read,
    /// The open of a file was refused.
    #[error("no file")]
    NoFile,
}

impl From<PutFault> for TreeFault {
    ghost use Rattle.std.specs.Prelude.{◌≡◌};
    ghost use Rattle.uimg_blob_writing.specs.declared.fault.TreeFault.TheVariants.{Put};

    ghost from_gives = { λ _ e. e ≡ Put };

    fn from(_fault: PutFault) -> TreeFault {
        TreeFault::Put
    }
}

impl From<SourceFault> for TreeFault {
    ghost use Rattle.std.specs.Prelude.{◌≡◌};
    ghost use Rattle.uimg_blob_writing.specs.declared.fault.TreeFault.TheVariants.{Read};

    ghost from_gives = { λ _ e. e ≡ Read };

    fn from(_fault: SourceFault) -> TreeFault {
        TreeFault::Read
    }
}

impl From<MoveFault> for TreeFault {
    ghost use Rattle.std.specs.Prelude.{◌≡◌};
    ghost use Rattle.uimg_blob_writing.specs.Faults.{copy_fault};

    ghost from_gives = { λ f e. e ≡ copy_fault f };

    fn from(fault: MoveFault) -> TreeFault {
        match fault {
            MoveFault::Read => TreeFault::Read,
            MoveFault::Put => TreeFault::Put,
        }
    }
}
