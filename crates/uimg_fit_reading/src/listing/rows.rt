//! The lines of images, hash nodes, signature nodes and configurations, as rows of tables.

ghost use Rattle.std.specs.Prelude.{◌≡◌};
ghost use Rattle.uimg_fit_reading.specs.Rows.{all_image_rows, only_for};

use crate::listing::shows::Show;
use crate::listing::shows::Show::{Address, Hexadecimal, List, Name, Text};
use uimg_blob_reading::Key;
use uimg_texts::{Field, Naming};

/// A line of a listing, with a label that is padded with blanks.
#[derive(Clone, Copy)]
pub(crate) enum Row {
    /// A property's value, if the node has one.
    Property(Key, [u8; 16], Show),
    /// A property's value, or that it is unavailable.
    Wanted(Key, [u8; 16], Show),
    /// The root's time, if it has one.
    Time([u8; 16]),
    /// The root's time, or that it is unavailable.
    Created([u8; 16]),
    /// The size of the payload, or that it is unavailable.
    Size([u8; 16]),
    /// A part of the lines of a signature.
    Signing(Signing),
    /// That an algorithm is missing.
    Unsupported([u8; 16]),
    /// No line.
    Nothing,
}

/// A part of the lines of a signature.
#[derive(Clone, Copy)]
pub(crate) enum Signing {
    /// The start of the first line: its algorithm.
    Algo([u8; 16]),
    /// The name of its key, if it has one, on the same line.
    KeyName,
    /// The end of that line: whether it is required.
    Required,
    /// The line of its time, if it has the name of a key.
    Time([u8; 16]),
}

/// What a node's rows show besides its properties.
#[derive(Clone, Copy)]
pub(crate) struct Facts {
    /// The root's time, if it has one.
    pub(crate) time: Option<u32>,
    /// The size of the payload, if its place is known.
    pub(crate) size: Option<u32>,
}

pub(crate) const NO_FACTS: Facts = Facts {
    time: None,
    size: None,
};

/// The rows of an image, by the profile.
pub(crate) const IMAGE: [Row; 9] = [
    Row::Property(Key::Description, *b"  Description:  ", Text),
    Row::Time(*b"  Created:      "),
    Row::Property(
        Key::Kind,
        *b"  Type:         ",
        Name(Naming::Profile, Field::Kind),
    ),
    Row::Property(
        Key::Compression,
        *b"  Compression:  ",
        Name(Naming::Profile, Field::Compression),
    ),
    Row::Size(*b"  Data Size:    "),
    Row::Property(
        Key::Arch,
        *b"  Architecture: ",
        Name(Naming::Profile, Field::Architecture),
    ),
    Row::Property(
        Key::Os,
        *b"  OS:           ",
        Name(Naming::Profile, Field::System),
    ),
    Row::Property(Key::Load, *b"  Load Address: ", Address),
    Row::Property(Key::Entry, *b"  Entry Point:  ", Address),
];

// Returns a row, if a type is one of these, and else no line.
fn only_for(kinds: &[u8], kind: Option<u8>, row: Row) -> Row
    ensures { result ≡ only_for kinds.now kind row }
{
    match kind {
        Some(code) if kinds.contains(&code) => row,
        Some(_) => Row::Nothing,
        None => Row::Nothing,
    }
}

// The rows of an image that depend on its type.
const ARCH: Row = Row::Wanted(
    Key::Arch,
    *b"  Architecture: ",
    Name(Naming::All, Field::Architecture),
);

const SYSTEM: Row = Row::Wanted(
    Key::Os,
    *b"  OS:           ",
    Name(Naming::All, Field::System),
);

const LOAD: Row = Row::Wanted(Key::Load, *b"  Load Address: ", Address);

const LOAD_OF_TREE: Row = Row::Property(Key::Load, *b"  Load Address: ", Address);

const ENTRY: Row = Row::Wanted(Key::Entry, *b"  Entry Point:  ", Address);

pub(crate) fn all_image_rows(kind: Option<u8>) -> [Row; 10]
    ensures { result ≡ all_image_rows kind }
{
    [
        Row::Wanted(Key::Description, *b"  Description:  ", Text),
        Row::Created(*b"  Created:      "),
        Row::Wanted(
            Key::Kind,
            *b"  Type:         ",
            Name(Naming::All, Field::Kind),
        ),
        Row::Wanted(
            Key::Compression,
            *b"  Compression:  ",
            Name(Naming::All, Field::Compression),
        ),
        Row::Size(*b"  Data Size:    "),
        only_for(&[1, 2, 3, 5, 8], kind, ARCH),
        only_for(&[2, 3, 5], kind, SYSTEM),
        only_for(&[1, 2, 3, 5, 29], kind, LOAD),
        only_for(&[8], kind, LOAD_OF_TREE),
        only_for(&[1, 2, 3], kind, ENTRY),
    ]
}

/// The rows of a hash node, by the profile.
pub(crate) const HASH: [Row; 2] = [
    Row::Property(Key::Algo, *b"  Hash algo:    ", Text),
    Row::Property(Key::Value, *b"  Hash value:   ", Hexadecimal),
];

/// The rows of a hash node, by the names of image.h.
pub(crate) const HASH_WITH_VALUE: [Row; 2] = [
    Row::Property(Key::Algo, *b"  Hash algo:    ", Text),
    Row::Wanted(Key::Value, *b"  Hash value:   ", Hexadecimal),
];

/// The row of a hash node without an algorithm, by the names of image.h.
pub(crate) const NO_HASH: [Row; 1] = [Row::Unsupported(*b"  Hash algo:    ")];

/// The rows of a signature node, by the names of image.h.
pub(crate) const SIGNATURE: [Row; 6] = [
    Row::Signing(Signing::Algo(*b"  Sign algo:    ")),
    Row::Signing(Signing::KeyName),
    Row::Signing(Signing::Required),
    Row::Property(Key::Padding, *b"  Sign padding: ", Text),
    Row::Wanted(Key::Value, *b"  Sign value:   ", Hexadecimal),
    Row::Signing(Signing::Time(*b"  Timestamp:    ")),
];

/// The row of a signature node without an algorithm, by the names of image.h.
pub(crate) const NO_SIGNATURE: [Row; 1] = [Row::Unsupported(*b"  Sign algo:    ")];

/// The rows of a configuration, by the profile.
pub(crate) const CONFIGURATION: [Row; 5] = [
    Row::Property(Key::Description, *b"  Description:  ", Text),
    Row::Property(Key::Kernel, *b"  Kernel:       ", Text),
    Row::Property(Key::Ramdisk, *b"  Init Ramdisk: ", Text),
    Row::Property(Key::Fdt, *b"  FDT:          ", List),
    Row::Property(Key::Loadables, *b"  Loadables:    ", List),
];

/// The rows of a configuration, by the names of image.h.
pub(crate) const ALL_CONFIGURATION: [Row; 7] = [
    Row::Wanted(Key::Description, *b"  Description:  ", Text),
    Row::Wanted(Key::Kernel, *b"  Kernel:       ", Text),
    Row::Property(Key::Ramdisk, *b"  Init Ramdisk: ", Text),
    Row::Property(Key::Firmware, *b"  Firmware:     ", Text),
    Row::Property(Key::Fdt, *b"  FDT:          ", List),
    Row::Property(Key::Fpga, *b"  FPGA:         ", Text),
    Row::Property(Key::Loadables, *b"  Loadables:    ", List),
];
