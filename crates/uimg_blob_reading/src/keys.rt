//! The properties to which FIT gives a meaning, and their names.

ghost use Rattle.std.specs.Prelude.{◌≡◌, map};
ghost use Rattle.uimg_blob_reading.specs.Keys.{key_of_name, key_row_of, key_named};

/// A property to which FIT gives a meaning. The comment of each variant begins with its name.
#[derive(Clone, Copy, Debug, PartialEq, Eq)]
pub enum Key {
    /// `description`: a text.
    Description,
    /// `timestamp`: seconds since 1970, one cell.
    Timestamp,
    /// `data`: the payload itself.
    Data,
    /// `type`: a text.
    Kind,
    /// `arch`: a text.
    Arch,
    /// `os`: a text.
    Os,
    /// `compression`: a text.
    Compression,
    /// `load`: an address of one or two cells.
    Load,
    /// `entry`: an address of one or two cells.
    Entry,
    /// `data-size`: the payload's length, one cell.
    DataSize,
    /// `data-offset`: the payload's offset after the blob, one cell.
    DataOffset,
    /// `data-position`: the payload's offset in the file, one cell.
    DataPosition,
    /// `algo`: a text.
    Algo,
    /// `value`: a digest.
    Value,
    /// `default`: the name of a configuration.
    Default,
    /// `kernel`: the name of an image.
    Kernel,
    /// `ramdisk`: the name of an image.
    Ramdisk,
    /// `fdt`: names of images.
    Fdt,
    /// `loadables`: names of images.
    Loadables,
    /// `firmware`: the name of an image.
    Firmware,
    /// `fpga`: the name of an image.
    Fpga,
    /// `setup`: the name of an image.
    Setup,
    /// `standalone`: the name of an image.
    Standalone,
    /// `script`: the name of an image.
    Script,
    /// `key-name-hint`: the name of a key.
    KeyName,
    /// `required`: what a key must sign.
    Required,
    /// `padding`: the name of a padding.
    Padding,
}

// The names of the properties to which FIT gives a meaning.
const NAMES: [(&str, Key); 27] = [
    ("description", Key::Description),
    ("timestamp", Key::Timestamp),
    ("data", Key::Data),
    ("type", Key::Kind),
    ("arch", Key::Arch),
    ("os", Key::Os),
    ("compression", Key::Compression),
    ("load", Key::Load),
    ("entry", Key::Entry),
    ("data-size", Key::DataSize),
    ("data-offset", Key::DataOffset),
    ("data-position", Key::DataPosition),
    ("algo", Key::Algo),
    ("value", Key::Value),
    ("default", Key::Default),
    ("kernel", Key::Kernel),
    ("ramdisk", Key::Ramdisk),
    ("fdt", Key::Fdt),
    ("loadables", Key::Loadables),
    ("firmware", Key::Firmware),
    ("fpga", Key::Fpga),
    ("setup", Key::Setup),
    ("standalone", Key::Standalone),
    ("script", Key::Script),
    ("key-name-hint", Key::KeyName),
    ("required", Key::Required),
    ("padding", Key::Padding),
];

fn key_in(rows: &[(&str, Key)], name: &[u8]) -> Option<Key>
    ensures { result ≡ key_of_name (map key_row_of rows.now) name.now }
{
    for (known, key) in rows {
        if name == known.as_bytes() {
            return Some(*key);
        }
    }
    None
}

// Returns `None` if FIT gives the name no meaning.
pub(crate) fn key_named(name: &[u8]) -> Option<Key>
    ensures { result ≡ key_named name.now }
{
    key_in(&NAMES, name)
}
