//! How many files an image may become, and how many bytes.

ghost use Rattle.std.specs.Prelude.{◌≡◌, ◌++◌, ◌∷◌, []};
ghost use Rattle.uimg_fit_checking.specs.{Claiming.claim, Unpacking.as_bytes};
ghost use Rattle.uimg_unpacking.specs.Limiting.{bytes_in, claims_by, exceeded, files_in};
ghost use Rattle.uimg_unpacking.specs.Troubles.{trouble_in};

use crate::trouble::Trouble;
use uimg_base::OpenedNames;
use uimg_fit_checking::NodeName;

/// How many files an image may become, and how many bytes they may have together.
#[derive(Clone, Copy, Debug)]
pub struct Limits {
    /// The greatest number of files.
    pub files: u64,

    /// The greatest number of bytes, if there is one.
    pub bytes: Option<u64>,
}

/// The payloads that were claimed, how many they are, and how many bytes they have together.
#[derive(Drop)]
pub(crate) struct Claims {
    limits: Limits,
    files: u64,
    bytes: u64,
    // For contracts alone: the name and then the length of each.
    noted: OpenedNames,
    ghost file_count: { files ≡ files_in (claims_by noted.names) },
    ghost byte_count: { bytes ≡ bytes_in (claims_by noted.names) },
}

impl Claims {
    pub(crate) fn new(limits: Limits) -> Claims
        ensures limits { result.limits ≡ limits }
        ensures noted { claims_by result.noted.names ≡ [] }
    {
        Claims {
            limits,
            files: 0,
            bytes: 0,
            noted: OpenedNames::new(),
        }
    }

    /// Fails if the payloads are too many or too long with this one.
    pub(crate) fn claim(&mut self, name: &NodeName, length: u64) -> Result<(), Trouble>
        ensures limits { self.new.limits ≡ self.old.limits }
        ensures noted { claims_by self.new.noted.names
            ≡ claims_by self.old.noted.names ++ claim (as_bytes name.now) length ∷ [] }
        ensures told { trouble_in result
            ≡ exceeded self.new.limits (claims_by self.new.noted.names) }
    {
        self.noted.note(name.bytes());
        self.noted.note(length.to_be_bytes().as_slice());
        self.files = self.files.saturating_add(1);
        self.bytes = self.bytes.saturating_add(length);
        self.judge()
    }

    fn judge(&self) -> Result<(), Trouble>
        ensures { trouble_in result ≡ exceeded self.now.limits (claims_by self.now.noted.names) }
    {
        if self.files > self.limits.files {
            return Err(Trouble::TooManyFiles(self.limits.files));
        }
        match self.limits.bytes {
            Some(most) if self.bytes > most => Err(Trouble::TooManyBytes(most)),
            _ => Ok(()),
        }
    }
}
