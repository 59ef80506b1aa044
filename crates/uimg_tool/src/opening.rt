//! The image of a command line: a file, or standard input.

ghost use Rattle.std.specs.Prelude.{◌≡◌, ◌∷◌, IfOk, is_ok};
ghost use Rattle.uimg_base.specs.Named.{Opens, SameFiles};
ghost use Rattle.uimg_cli.specs.Check.{is_input};
ghost use Rattle.uimg_world.specs.Deeds.{Deed};

use uimg_base::SourceFault;
use uimg_world::World;

/// Opens the file at a path, or what arrives on standard input for `-`: at most `most_input` bytes,
/// which are kept on the file system of a folder, or without one on that for temporary files.
pub(crate) fn open_image<D: World>(
    world: &mut D,
    path: &str,
    folder: Option<&str>,
    most_input: u64,
) -> Result<D::Opened, SourceFault>
    ensures noted { D.trace world.new ≡ Deed.Opens path.now (is_ok result) ∷ D.trace world.old }
    ensures same { SameFiles (D.map world.old) (D.map world.new) }
    ensures opened { IfOk result (λ opened.
        Opens (D.map world.old) path.now (D.Opened.device opened)) }
{
    if is_input(path) {
        return world.open_input(path, folder, most_input);
    }
    world.open(path)
}

pub(crate) fn is_input(path: &str) -> bool
    ensures { result ≡ is_input path.now }
{
    path == "-"
}
