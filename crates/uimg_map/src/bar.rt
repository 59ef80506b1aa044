//! The bar of a row, in proportion to the file.

ghost use Rattle.std.specs.Prelude.{◌≡◌, ◌<◌, ◌≤◌, ℕ, nat_le, nat_lt, ◌&&◌};
ghost use Rattle.uimg_map.specs.Bars.{is_filled};

/// The filled cells of a bar, a range.
#[derive(Clone, Copy, Debug, PartialEq, Eq)]
pub struct Bar {
    /// The first.
    pub from: u32,

    /// The one after the last.
    pub to: u32,
}

impl Bar {
    pub(crate) fn has(&self, cell: u32) -> bool
        ensures { result ≡ (nat_le self.now.from cell && nat_lt cell self.now.to) }
    {
        self.from <= cell && cell < self.to
    }
}

/// Returns the bar, of `cells` cells, for the range from an offset up to an end in a file of `size`
/// bytes. Each cell is an equal part of the file, and is filled if bytes of the range are in the
/// file and in that part: a few bytes fill a cell, and none fill none.
#[tactic(auto, unfolding(crate::specs::Bars::is_filled))]
pub fn bar_of(cells: u32, size: u64, place: u64, end: u64) -> Bar
    ensures inside { (result.from ≤ result.to) × (result.to ≤ cells) }
    ensures filled { (j : ℕ) → j < cells →
        (nat_le result.from j && nat_lt j result.to) ≡ is_filled cells size place end j }
{
    let stop = u64::min(end, size);
    if stop <= place {
        return Bar { from: 0, to: 0 };
    }
    let (size, cells) = (size as u128, cells as u128);
    let from = place as u128 * cells / size;
    let to = (stop as u128 * cells + (size - 1)) / size;
    Bar {
        from: from as u32,
        to: to as u32,
    }
}
