//! The calls of `uimg_base` that give texts and codes.

ghost use Rattle.std.specs.Prelude.{◌≡◌, ◌<◌, is_err};
ghost use Rattle.uimg_texts.specs.Naming.{code_named, code_text};
ghost use Rattle.uimg_texts.specs.declared.naming.Naming.TheVariants.{Profile};
ghost use Rattle.uimg_texts.specs.declared.field.Field.TheVariants.{Architecture, System, Kind, Compression};
ghost use Rattle.uimg_texts.specs.Sizes.{size_text};
ghost use Rattle.uimg_texts.specs.Times.{time_text};
ghost use Rattle.uimg_base.specs.Writing.{Writes};

use std::io::Write;
use uimg_base::{Out, PutFault};

/// Writes a size in bytes as `<n> Bytes = <k> KiB = <m> MiB`, with two decimals, rounded to the
/// nearest hundredth, ties to even.
///
/// Returns `PutFault` if and only if a write failed; then a prefix of the text was written.
pub fn size_text<W: Write>(size: u32, out: &mut Out<W>) -> Result<(), PutFault>
    ensures { Writes (is_err result) out.old out.new (size_text size) }
{
    uimg_base::size_text(size, out)
}

/// Returns a time in seconds since 1970, UTC, as `Thu Jan  1 00:00:00 1970`.
pub fn time_text(seconds: u32) -> [u8; 24]
    ensures { result ≡ time_text seconds }
{
    uimg_base::time_text(seconds)
}

/// Looks up the code of an operating system (`IH_OS_` of U-Boot's image.h) by its short name.
pub fn os_code(name: &[u8]) -> Option<u8>
    ensures { result ≡ code_named Profile System name.now }
{
    uimg_base::os_code(name)
}

/// Looks up the code of an architecture (`IH_ARCH_`) by its short name.
pub fn arch_code(name: &[u8]) -> Option<u8>
    ensures { result ≡ code_named Profile Architecture name.now }
{
    uimg_base::arch_code(name)
}

/// Looks up the code of an image type (`IH_TYPE_`) by its short name.
pub fn kind_code(name: &[u8]) -> Option<u8>
    ensures { result ≡ code_named Profile Kind name.now }
{
    uimg_base::kind_code(name)
}

/// Looks up the code of a compression (`IH_COMP_`) by its short name.
pub fn comp_code(name: &[u8]) -> Option<u8>
    ensures { result ≡ code_named Profile Compression name.now }
{
    uimg_base::comp_code(name)
}

/// Returns the printed name of an operating system's code, or `Unknown OS`.
pub fn os_text(code: u8) -> &'static str
    ensures { result.now ≡ code_text Profile System code }
{
    uimg_base::os_text(code)
}

/// Returns the printed name of an architecture's code, or `Unknown Architecture`.
pub fn arch_text(code: u8) -> &'static str
    ensures { result.now ≡ code_text Profile Architecture code }
{
    uimg_base::arch_text(code)
}

/// Returns the printed name of an image type's code, or `Unknown Image`.
pub fn kind_text(code: u8) -> &'static str
    ensures { result.now ≡ code_text Profile Kind code }
{
    uimg_base::kind_text(code)
}

/// Returns the printed name of a compression's code, or `Unknown Compression`.
pub fn comp_text(code: u8) -> &'static str
    ensures { result.now ≡ code_text Profile Compression code }
{
    uimg_base::comp_text(code)
}
