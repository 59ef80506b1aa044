//! The texts of warnings.

use crate::names::title_of;
use crate::quoted::{Escaped, Quoted};
use std::fmt;
use std::fmt::{Display, Formatter, Write};
use uimg_texts::Field;

/// The path of a node: the names of the nodes from the root to it; empty for the root.
#[derive(Clone, Copy)]
pub(crate) struct NodePath<'a>(pub(crate) &'a [&'a [u8]]);

impl<'a> Display for NodePath<'a> {
    fn fmt<W: Write>(&self, f: &mut Formatter<W>) -> fmt::Result {
        if self.0.is_empty() {
            return f.write_str("/");
        }
        for name in self.0 {
            write!(f, "/{}", Escaped(name))?;
        }
        Ok(())
    }
}

/// A warning about a node.
#[derive(Clone, Copy)]
pub(crate) enum Warning<'a> {
    /// It lacks the property of this name.
    Lacks(&'static str),

    /// One of its properties names an image that does not exist.
    NoImage { property: &'a [u8], name: &'a [u8] },

    /// Its `default` names a configuration that does not exist.
    NoConfiguration(&'a [u8]),

    /// It gives a name that no code of the field has.
    UnknownName { field: Field, name: &'a [u8] },

    /// Two of its child nodes have this name.
    EqualNodes(&'a [u8]),

    /// Two of its properties have this name.
    EqualProperties(&'a [u8]),
}

impl<'a> Display for Warning<'a> {
    fn fmt<W: Write>(&self, f: &mut Formatter<W>) -> fmt::Result {
        match self {
            Warning::Lacks(property) => write!(f, "it has no {property}"),
            Warning::NoImage { property, name } => {
                write!(f, "{} names no image: {}", Escaped(property), Quoted(name))
            }
            Warning::NoConfiguration(name) => {
                write!(f, "default names no configuration: {}", Quoted(name))
            }
            Warning::UnknownName { field, name } => {
                write!(f, "unknown {} {}", title_of(*field), Quoted(name))
            }
            Warning::EqualNodes(name) => write!(f, "two nodes have the name {}", Quoted(name)),
            Warning::EqualProperties(name) => {
                write!(f, "two properties have the name {}", Quoted(name))
            }
        }
    }
}
