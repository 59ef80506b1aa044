//! The options of mkimage 2023.01.

ghost use Rattle.std.specs.Prelude.{◌<◌, IfOk, IfSome};
ghost use Rattle.uimg_compat.specs.Getopt.{Takes, left, unread};
ghost use Rattle.uimg_compat.specs.Mkimage.{mkimage_rows};

use crate::getopt::{Given, Misuse, OptionRow, Words};

/// The options, by their letters and long names.
const MKIMAGE_OPTIONS: [OptionRow; 33] = [
    ('a', "load-address", true),
    ('A', "architecture", true),
    ('b', "device-tree", true),
    ('B', "alignment", true),
    ('c', "comment", true),
    ('C', "compression", true),
    ('d', "image", true),
    ('D', "dtcopts", true),
    ('e', "entry-point", true),
    ('E', "external", false),
    ('f', "fit", true),
    ('F', "update", false),
    ('g', "key-name-hint", true),
    ('G', "key-file", true),
    ('h', "help", false),
    ('i', "initramfs", true),
    ('k', "key-dir", true),
    ('K', "key-dest", true),
    ('l', "list", false),
    ('n', "config", true),
    ('N', "engine", true),
    ('o', "algo", true),
    ('O', "os", true),
    ('p', "position", true),
    ('q', "quiet", false),
    ('r', "key-required", false),
    ('R', "secondary-config", true),
    ('s', "no-copy", false),
    ('t', "touch", false),
    ('T', "type", true),
    ('v', "verbose", false),
    ('V', "version", false),
    ('x', "xip", false),
];

/// Returns `None` at the end.
#[tactic(auto, unfolding(crate::specs::Mkimage::mkimage_rows))]
pub(crate) fn take_option<'w, 'a>(
    words: &mut Words<'w, 'a>,
) -> Result<Option<Given<'a>>, Misuse<'a>>
    ensures less { IfOk result (λ given. IfSome given (λ _. left words.new < left words.old)) }
    ensures next { Takes result (unread mkimage_rows words.old) (unread mkimage_rows words.new) }
{
    words.take(&MKIMAGE_OPTIONS)
}
