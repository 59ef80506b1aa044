//! What an image is built with, besides its parts.

/// What a legacy image is built with, besides its parts: fields of its header (U-Boot's image.h).
#[derive(Clone, Copy, Debug, PartialEq, Eq)]
pub struct Options {
    /// Seconds since 1970.
    pub time: u32,
    /// The load address.
    pub load: u32,
    /// The entry point.
    pub ep: u32,
    /// The operating system's code.
    pub os: u8,
    /// The architecture's code.
    pub arch: u8,
    /// The image type's code. The types multi (4) and script (6) have parts.
    pub kind: u8,
    /// The compression's code.
    pub comp: u8,
    /// The image's name, cut or padded with zeros to 32 bytes, as `name_field` returns it.
    pub name: [u8; 32],
}
