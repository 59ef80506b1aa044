//! A statement of an image.

ghost use Rattle.std.specs.Prelude.{◌≡◌, ◌++◌, OnOk};
ghost use Rattle.uimg_info.specs.Statement.{all_stated, found_stated};

use std::alloc::AllocError;

/// What an image states: that it has a node, or a value.
#[derive(Drop)]
pub struct Statement {
    /// The path of a node, which ends with a slash; that and the name of a property; or the name of
    /// a field.
    pub key: Vec<u8>,
    /// The text of the value; empty of a node.
    pub text: Vec<u8>,
}

pub(crate) fn push_found(
    all: &mut Vec<Statement>,
    found: Option<Statement>,
) -> Result<(), AllocError>
    ensures { OnOk result (all_stated all.new ≡ all_stated all.old ++ found_stated found) }
{
    if let Some(statement) = found {
        all.push(statement)?;
    }
    Ok(())
}
