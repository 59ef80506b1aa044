//! Image-tree source, part by part.

ghost use Rattle.std.specs.Prelude.{Some, map};
ghost use Rattle.std.specs.Fmt.{WritesOnOk};
ghost use Rattle.uimg_compat.specs.ImageTree.{item_of, item_text, source_text, title};

use crate::quoted::Quoted;
use std::fmt;
use std::fmt::{Display, Formatter, Write};

/// Part of image-tree source: the beginning or the end of a node, or a property.
#[derive(Clone, Copy)]
pub(crate) enum Item<'a> {
    /// The beginning of a node.
    Begins(&'a str),

    /// The beginning of a node with a number in its name.
    BeginsNumbered(&'a str, u32),

    /// The end of a node.
    Ends,

    /// A property whose value is a name without quotes.
    Name(&'a str, &'a str),

    /// A property whose value is a name with a number.
    Numbered(&'a str, &'a str, u32),

    /// A property whose value is the description of the whole image, by the name of a type.
    Title(&'a str, &'a str),

    /// A property whose value is any text.
    Text(&'a str, &'a [u8]),

    /// A property whose value is a number.
    Cell(&'a str, u32),

    /// A property whose value is the bytes of the file at a path.
    File(&'a str, &'a str),
}

impl<'a> Display for Item<'a> {
    ghost output = { λ it. Some (item_text (item_of it)) };

    #[tactic(auto, unfolding(crate::specs::ImageTree::item_text))]
    fn fmt<W: Write>(&self, f: &mut Formatter<W>) -> fmt::Result {
        match self {
            Item::Begins(name) => write!(f, "{name} {{\n"),
            Item::BeginsNumbered(stem, number) => write!(f, "{stem}-{number} {{\n"),
            Item::Ends => f.write_str("};\n"),
            Item::Name(name, value) => write!(f, "{name} = \"{value}\";\n"),
            Item::Numbered(name, stem, number) => write!(f, "{name} = \"{stem}-{number}\";\n"),
            Item::Title(name, kind) => write!(f, "{name} = \"{}\";\n", Title(kind)),
            Item::Text(name, text) => write!(f, "{name} = {};\n", Quoted(text)),
            Item::Cell(name, number) => write!(f, "{name} = <{number}>;\n"),
            Item::File(name, path) => write!(
                f,
                "{name} = /incbin/({});\n",
                Quoted(path.as_bytes())
            ),
        }
    }
}

/// The description of the whole image, by the name of a type.
#[derive(Clone, Copy)]
struct Title<'a>(&'a str);

impl<'a> Display for Title<'a> {
    ghost output = { λ it. Some (title it.0.now) };

    #[tactic(auto, unfolding(crate::specs::ImageTree::title))]
    fn fmt<W: Write>(&self, f: &mut Formatter<W>) -> fmt::Result {
        write!(f, "{} image with one or more FDT blobs", self.0)
    }
}

#[tactic(auto, unfolding(crate::specs::ImageTree::source_text))]
pub(crate) fn put_items<W: Write>(items: &[Item<'_>], f: &mut Formatter<W>) -> fmt::Result
    ensures { WritesOnOk W.Write.write_str_gives f.old result
        (source_text (map item_of items.now)) f.new }
{
    for item in items {
        item.fmt(f)?;
    }
    Ok(())
}
