//! Whether hash nodes vouch for an image: one of their algorithms has a needed strength.

ghost use Rattle.std.specs.Prelude.{◌≡◌, not, false};
ghost use Rattle.std.specs.Option.{option_map_or};
ghost use Rattle.uimg_fit_checking.specs.Vouching.{has_from};

use uimg_base::{ALGOS, Algo};
use uimg_fit_base::AlgoSet;

fn has_from(set: AlgoSet, need: Algo) -> bool
    ensures { result ≡ has_from set need }
{
    for algo in &ALGOS[need as usize..] {
        if set.has(*algo) {
            return true;
        }
    }
    false
}

// Returns whether a needed strength is lacking: no algorithm of a set is at least as strong.
pub(crate) fn lacks(set: AlgoSet, need: Option<Algo>) -> bool
    ensures { result ≡ option_map_or (λ algo. not (has_from set algo)) need false }
{
    match need {
        Some(algo) => !has_from(set, algo),
        None => false,
    }
}
