//! The algorithms of the two sets of names.

ghost use Rattle.std.specs.Prelude.{◌≡◌};
ghost use Rattle.uimg_fit_base.specs.AlgoNames.{algo_by};

use uimg_base::Algo;
use uimg_texts::Naming;

/// Returns the algorithm of a name, as in the `algo` property of a hash node, or `None` if the set
/// of names has none. Only `Naming::All` has crc16-ccitt. Case matters.
pub fn algo_by(naming: Naming, name: &[u8]) -> Option<Algo>
    ensures { result ≡ algo_by naming name.now }
{
    match naming {
        Naming::Profile => Algo::named(name),
        Naming::All => Algo::known(name),
    }
}
