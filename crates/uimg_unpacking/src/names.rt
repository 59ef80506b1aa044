//! The names of files, each used once.

ghost use Rattle.std.specs.Prelude.{◌≡◌, ◌∷◌, [], length, map, not, IfOk, MatchOption, string_bytes, true, false, if◌then◌else◌};
ghost use Rattle.std.specs.Char.{to_ascii_lowercase};
ghost use Rattle.uimg_fit_checking.specs.Unpacking.{as_bytes};
ghost use Rattle.uimg_unpacking.specs.FileNames.{file_name, first_free, is_among, keeps_name};
ghost use Rattle.uimg_unpacking.specs.Names.{HasNames, Gives};

use crate::file_names::is_file_name;
use crate::trouble::Trouble;
use std::alloc::{AllocError, Global};
use std::collections::BTreeSet;
use uimg_base::OpenedNames;
use uimg_fit_checking::NodeName;

/// How many numbers are tried for a file.
const TRIED: usize = 100;

/// The names that were given, in lower case, since some file systems ignore the case of letters.
#[derive(Drop)]
pub(crate) struct Names {
    alloc: Global,
    given: BTreeSet<Vec<u8>>,
    // For contracts alone: the names, the newest first.
    named: OpenedNames,
    ghost count: { length given.keys ≡ length named.names },
    ghost used: { HasNames given named.names },
}

impl Names {
    pub(crate) fn new(alloc: Global) -> Names
        ensures { result.named.names ≡ [] }
    {
        Names {
            alloc,
            given: BTreeSet::new(alloc),
            named: OpenedNames::new(),
        }
    }

    /// Returns the name of the next file: that of the image if it is a file name and was not used.
    /// Otherwise it is `image-` with the number of the file, or with the first following number
    /// that was not used. Fails if a hundred of these were used, or memory is refused.
    pub(crate) fn next(&mut self, name: &NodeName) -> Result<String, Trouble>
        ensures { IfOk result (λ text. Gives
            (file_name self.old.named.names (as_bytes name.now)) (string_bytes text)
            self.old.named.names self.new.named.names) }
    {
        match self.own(name)? {
            Some(text) => Ok(text),
            None => self.numbered(),
        }
    }

    pub(crate) fn count(&self) -> usize
        ensures { result ≡ length self.now.named.names }
    {
        self.given.len()
    }

    // Returns the name of the image if it is a file name and was not used.
    fn own(&mut self, name: &NodeName) -> Result<Option<String>, AllocError>
        ensures { IfOk result (λ it. MatchOption it
            (keeps_name self.old.named.names (as_bytes name.now) ≡ false
            × self.new.named.names ≡ self.old.named.names)
            (λ text. keeps_name self.old.named.names (as_bytes name.now) ≡ true
            × Gives (as_bytes name.now) (string_bytes text)
            self.old.named.names self.new.named.names)) }
    {
        if !is_file_name(name.bytes()) {
            return Ok(None);
        }
        let Ok(text) = str::from_utf8(name.bytes()) else {
            return Ok(None);
        };
        if !self.give(text)? {
            return Ok(None);
        }
        Ok(Some(String::from_str(self.alloc, text)?))
    }

    fn numbered(&mut self) -> Result<String, Trouble>
        ensures { IfOk result (λ text. Gives
            (first_free self.old.named.names (length self.old.named.names) 100)
            (string_bytes text) self.old.named.names self.new.named.names) }
    {
        let number = self.given.len();
        for further in 0..TRIED {
            let text = format!(in self.alloc; "image-{}", number + further)?;
            if self.give(text.as_str())? {
                return Ok(text);
            }
        }
        Err(Trouble::NoName)
    }

    // Returns whether the name was not used before.
    fn give(&mut self, name: &str) -> Result<bool, AllocError>
        ensures is_new { IfOk result (λ is_new.
            is_new ≡ not (is_among self.old.named.names name.now)) }
        ensures named { IfOk result (λ is_new. self.new.named.names
            ≡ (if is_new then name.now ∷ self.old.named.names else self.old.named.names)) }
    {
        let small = in_lower_case(self.alloc, name)?;
        if !self.given.insert(small)? {
            return Ok(false);
        }
        self.named.note(name.as_bytes());
        Ok(true)
    }
}

fn in_lower_case(alloc: Global, name: &str) -> Result<Vec<u8>, AllocError>
    ensures { IfOk result (λ small. small.items ≡ map to_ascii_lowercase name.now) }
{
    let mut small = Vec::from_slice(alloc, name.as_bytes())?;
    small.make_ascii_lowercase();
    Ok(small)
}
