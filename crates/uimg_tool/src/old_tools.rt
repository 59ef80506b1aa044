//! The tools whose names the program may have.

ghost use Rattle.std.specs.{Prelude.◌≡◌, Str.bytes_eq};

use uimg_compat::file_name;

/// A tool of U-Boot, whose command line the program takes if it has the tool's name.
#[derive(Clone, Copy, Debug, PartialEq, Eq)]
pub enum Tool {
    /// `mkimage`.
    Mkimage,

    /// `dumpimage`.
    Dumpimage,
}

impl Tool {
    ghost use Rattle.std.specs.Prelude.{◌≡◌, map};
    ghost use Rattle.uimg_tool.specs.Programs.{tool_named, tool_of, name_of};

    /// Returns the tool of a command line, whose first word is the program's path.
    pub fn of_words(words: &[&str]) -> Option<Tool>
        ensures { result ≡ tool_of (map (λ word. word.now) words.now) }
    {
        match words.first() {
            Some(path) => Tool::named(file_name(path.as_bytes())),
            None => None,
        }
    }

    #[tactic(auto, unfolding(crate::specs::Programs::tool_named))]
    fn named(name: &[u8]) -> Option<Tool>
        ensures { result ≡ tool_named name.now }
    {
        if is(name, "mkimage") || is(name, "uimg-mkimage") {
            Some(Tool::Mkimage)
        } else if is(name, "dumpimage") || is(name, "uimg-dumpimage") {
            Some(Tool::Dumpimage)
        } else {
            None
        }
    }

    /// The name begins each line of a fault.
    pub(crate) fn name(self) -> &'static str
        ensures { result.now ≡ name_of self }
    {
        match self {
            Tool::Mkimage => "mkimage",
            Tool::Dumpimage => "dumpimage",
        }
    }
}

fn is(name: &[u8], text: &str) -> bool
    ensures { result ≡ bytes_eq name.now text.now }
{
    name == text.as_bytes()
}
