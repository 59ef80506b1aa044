//! The lines of images and configurations.
ghost use Rattle.std.specs.Prelude.{◌≡◌, ◌<◌, ◌+◌, ◌*◌, ◌^◌, ◌++◌, codes, IfOk};
ghost use Rattle.std.specs.List.{flat_map, sum_by};
ghost use Rattle.uimg_blob_reading.specs.{LookUps.listed, Roles.in_images};
ghost use Rattle.uimg_fit_reading.specs.{Allowances.{text_sizes, node_allowance}, OpenFits.InFit};
ghost use Rattle.uimg_fit_reading.specs.Listing.{size_in, sum_lines};
ghost use Rattle.uimg_fit_reading.specs.NodeLines.{ListsNode, ListsNodes};
ghost use Rattle.uimg_fit_reading.specs.{Rows.{image_rows, rows_lines, title}, Telling.Lists};
ghost use Rattle.uimg_fit_reading.specs.{Nodes.{HasNode, HasNodes, OfNode}, Puts.Leaves};

use crate::listing::names::kind_in;
use crate::listing::rows::{
    ALL_CONFIGURATION, CONFIGURATION, Facts, IMAGE, NO_FACTS, all_image_rows,
};
use crate::listing::sums::put_sums;
use crate::listing::titles::{Numbered, put_node};
use crate::nodes::{child_of, next_of, value_of};
use crate::open_fit::OpenFit;
use crate::places::find_place;
use std::alloc::Allocator;
use std::io::Write;
use uimg_base::{MoveFault, Out, Source, Span};
use uimg_blob_reading::Key;
use uimg_fit_base::FitFault;
use uimg_texts::Naming;

/// The kind of a listed node.
#[derive(Clone, Copy)]
pub(crate) enum Listed {
    /// An image, with a set of names and the root's time, if it has one.
    Image(Naming, Option<u32>),
    /// A configuration, with a set of names.
    Configuration(Naming),
}

fn size_in(place: Result<Span, FitFault>) -> Option<u32>
    requires { IfOk place (λ p. p.length < 2 ^ 32) }
    ensures { result ≡ size_in place }
{
    match place {
        Ok(found) => Some(found.length as u32),
        Err(_) => None,
    }
}

fn put_image_rows<S: Source, A: Allocator, W: Write>(
    fit: &mut OpenFit<'_, S, A>,
    naming: Naming,
    facts: Facts,
    image: Numbered,
    out: &mut Out<W>,
) -> Result<(), MoveFault>
    requires { InFit S.device fit.old HasNode image.node }
    ensures leaves { Leaves result S.device fit out }
    ensures told { InFit S.device fit.old OfNode in_images image.node
        (λ found. Lists (748 + 4 * text_sizes naming found.own) result S.device fit out
        (title (codes " Image ") image.number found.name
        ++ rows_lines facts found.own (image_rows naming found.own))) }
{
    match naming {
        Naming::Profile => put_node(fit, b" Image ", image, facts, &IMAGE, out),
        Naming::All => {
            let value = value_of(&fit.blob, fit.room, image.node, Key::Kind);
            let kind = kind_in(fit.source, value)?;
            put_node(fit, b" Image ", image, facts, &all_image_rows(kind), out)
        }
    }
}

fn put_known_image<S: Source, A: Allocator, W: Write>(
    fit: &mut OpenFit<'_, S, A>,
    naming: Naming,
    facts: Facts,
    image: Numbered,
    out: &mut Out<W>,
) -> Result<(), MoveFault>
    requires { InFit S.device fit.old HasNode image.node }
    ensures leaves { Leaves result S.device fit out }
    ensures told { InFit S.device fit.old OfNode in_images image.node (λ found.
        Lists (748 + 4 * text_sizes naming found.own + sum_by (node_allowance naming) (listed found.below))
        result S.device fit out (title (codes " Image ") image.number found.name
        ++ (rows_lines facts found.own (image_rows naming found.own)
        ++ flat_map (sum_lines naming) (listed found.below)))) }
{
    put_image_rows(fit, naming, facts, image, out)?;
    let first = child_of(&fit.blob, fit.room, image.node);
    put_sums(fit, naming, first, out)
}

fn put_image<S: Source, A: Allocator, W: Write>(
    fit: &mut OpenFit<'_, S, A>,
    naming: Naming,
    time: Option<u32>,
    image: Numbered,
    out: &mut Out<W>,
) -> Result<(), MoveFault>
    requires { InFit S.device fit.old HasNode image.node }
    ensures leaves { Leaves result S.device fit out }
    ensures told { ListsNode (Listed.Image naming time) image result S.device fit out }
{
    match find_place(fit.source, &fit.blob, fit.room, image.node) {
        Ok(place) => {
            let size = size_in(place);
            let facts = Facts { time, size };
            put_known_image(fit, naming, facts, image, out)
        }
        Err(_) => Err(MoveFault::Read),
    }
}

// The names are those of image.h.
fn put_any_configuration<S: Source, A: Allocator, W: Write>(
    fit: &mut OpenFit<'_, S, A>,
    at: Numbered,
    out: &mut Out<W>,
) -> Result<(), MoveFault>
    requires { InFit S.device fit.old HasNode at.node }
    ensures leaves { Leaves result S.device fit out }
    ensures told { ListsNode (Listed.Configuration Naming.All) at result S.device fit out }
{
    let title = b" Configuration ";
    put_node(fit, title, at, NO_FACTS, &ALL_CONFIGURATION, out)?;
    let first = child_of(&fit.blob, fit.room, at.node);
    put_sums(fit, Naming::All, first, out)
}

fn put_configuration<S: Source, A: Allocator, W: Write>(
    fit: &mut OpenFit<'_, S, A>,
    naming: Naming,
    at: Numbered,
    out: &mut Out<W>,
) -> Result<(), MoveFault>
    requires { InFit S.device fit.old HasNode at.node }
    ensures leaves { Leaves result S.device fit out }
    ensures told { ListsNode (Listed.Configuration naming) at result S.device fit out }
{
    match naming {
        Naming::Profile => {
            let title = b" Configuration ";
            put_node(fit, title, at, NO_FACTS, &CONFIGURATION, out)
        }
        Naming::All => put_any_configuration(fit, at, out),
    }
}

fn put_listed<S: Source, A: Allocator, W: Write>(
    fit: &mut OpenFit<'_, S, A>,
    kind: Listed,
    at: Numbered,
    out: &mut Out<W>,
) -> Result<(), MoveFault>
    requires { InFit S.device fit.old HasNode at.node }
    ensures leaves { Leaves result S.device fit out }
    ensures told { ListsNode kind at result S.device fit out }
{
    match kind {
        Listed::Image(naming, time) => put_image(fit, naming, time, at, out),
        Listed::Configuration(naming) => put_configuration(fit, naming, at, out),
    }
}

pub(crate) fn put_listed_nodes<S: Source, A: Allocator, W: Write>(
    fit: &mut OpenFit<'_, S, A>,
    kind: Listed,
    first: Option<usize>,
    out: &mut Out<W>,
) -> Result<(), MoveFault>
    requires { InFit S.device fit.old HasNodes first }
    ensures leaves { Leaves result S.device fit out }
    ensures told { ListsNodes kind first result S.device fit out }
{
    let mut next = first;
    for number in 0..fit.room.count() {
        let Some(node) = next else {
            return Ok(());
        };
        put_listed(fit, kind, Numbered { number, node }, out)?;
        next = next_of(&fit.blob, fit.room, node);
    }
    Ok(())
}
