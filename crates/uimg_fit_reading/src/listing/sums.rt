//! The lines of the hash and signature nodes of an image or a configuration.

ghost use Rattle.std.specs.{Prelude.{◌≡◌}, List.{flat_map, sum_by}};
ghost use Rattle.uimg_blob_reading.specs.Roles.{in_image};
ghost use Rattle.uimg_fit_reading.specs.{Allowances.node_allowance, Listing.sum_lines};
ghost use Rattle.uimg_fit_reading.specs.{Nodes.{HasNode, HasNodes, OfNode, OfNodes}, Puts.Leaves};
ghost use Rattle.uimg_fit_reading.specs.{OpenFits.InFit, Rows.sum_rows, Telling.Lists};

use crate::listing::fields::put_rows;
use crate::listing::rows::{
    HASH, HASH_WITH_VALUE, NO_FACTS, NO_HASH, NO_SIGNATURE, Row, SIGNATURE,
};
use crate::nodes::{Sum, next_of, sum_of, value_of};
use crate::open_fit::OpenFit;
use std::alloc::Allocator;
use std::io::Write;
use uimg_base::{MoveFault, Out, Source};
use uimg_blob_reading::Key;
use uimg_texts::Naming;

fn rows_of(naming: Naming, sum: Option<Sum>, has_algo: bool) -> &'static [Row]
    ensures { result.now ≡ sum_rows naming sum has_algo }
{
    match (naming, sum) {
        (Naming::Profile, Some(Sum::Hash)) => &HASH,
        (Naming::All, Some(Sum::Hash)) if has_algo => &HASH_WITH_VALUE,
        (Naming::All, Some(Sum::Hash)) => &NO_HASH,
        (Naming::All, Some(Sum::Signature)) if has_algo => &SIGNATURE,
        (Naming::All, Some(Sum::Signature)) => &NO_SIGNATURE,
        _ => &[],
    }
}

fn put_sum<S: Source, A: Allocator, W: Write>(
    fit: &mut OpenFit<'_, S, A>,
    naming: Naming,
    node: usize,
    out: &mut Out<W>,
) -> Result<(), MoveFault>
    requires { InFit S.device fit.old HasNode node }
    ensures leaves { Leaves result S.device fit out }
    ensures told { InFit S.device fit.old OfNode in_image node
        (λ found. Lists (node_allowance naming found) result S.device fit out (sum_lines naming found)) }
{
    let sum = sum_of(&fit.blob, fit.room, node);
    let algo = value_of(&fit.blob, fit.room, node, Key::Algo);
    let rows = rows_of(naming, sum, algo.is_some());
    put_rows(fit, node, NO_FACTS, rows, out)
}

pub(crate) fn put_sums<S: Source, A: Allocator, W: Write>(
    fit: &mut OpenFit<'_, S, A>,
    naming: Naming,
    first: Option<usize>,
    out: &mut Out<W>,
) -> Result<(), MoveFault>
    requires { InFit S.device fit.old HasNodes first }
    ensures leaves { Leaves result S.device fit out }
    ensures told { InFit S.device fit.old OfNodes in_image first (λ found.
        Lists (sum_by (node_allowance naming) found) result S.device fit out
        (flat_map (sum_lines naming) found)) }
{
    let mut next = first;
    while let Some(node) = next {
        put_sum(fit, naming, node, out)?;
        next = next_of(&fit.blob, fit.room, node);
    }
    Ok(())
}
