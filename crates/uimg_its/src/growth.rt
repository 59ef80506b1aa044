//! Growths of memory whose fault names the word at which memory was refused.

ghost use Rattle.std.specs.Prelude.{◌≡◌, ◌++◌, OnOk, IfOk, true};
ghost use Rattle.uimg_its.specs.Strings.{string_bytes};
ghost use Rattle.uimg_its.specs.Answers.{is_outside_text, NotInFile, OnlyMemory};

use crate::fault::FaultKind;
use crate::stop::Stop;
use crate::strings::push_string;
use std::alloc::Allocator;
use uimg_blob_writing::ByteList;

pub(crate) fn out_of_memory(left: usize) -> Stop
    ensures outside { is_outside_text result.kind ≡ true }
    ensures no_file { NotInFile result.kind }
{
    Stop {
        kind: FaultKind::OutOfMemory,
        left,
    }
}

pub(crate) fn append<A: Allocator>(
    out: &mut Vec<u8, A>,
    bytes: &[u8],
    left: usize,
) -> Result<(), Stop>
    ensures appended { OnOk result (out.new.items ≡ out.old.items ++ bytes.now) }
    ensures memory { OnlyMemory result }
{
    match out.extend_from_slice(bytes) {
        Ok(()) => Ok(()),
        Err(_) => Err(out_of_memory(left)),
    }
}

/// `text` is what follows the opening quote.
pub(crate) fn append_string<A: Allocator>(
    out: &mut Vec<u8, A>,
    text: &[u8],
    left: usize,
) -> Result<(), Stop>
    ensures appended { OnOk result (out.new.items ≡ out.old.items ++ string_bytes 0 text.now) }
    ensures memory { OnlyMemory result }
{
    match push_string(out, text) {
        Ok(()) => Ok(()),
        Err(_) => Err(out_of_memory(left)),
    }
}

pub(crate) fn copied<A: Allocator>(alloc: A, name: &[u8], left: usize) -> Result<ByteList<A>, Stop>
    ensures name { IfOk result (λ l. l ≡ name.now) }
    ensures memory { OnlyMemory result }
{
    match Vec::from_slice(alloc, name) {
        Ok(bytes) => Ok(ByteList::of(bytes)),
        Err(_) => Err(out_of_memory(left)),
    }
}
