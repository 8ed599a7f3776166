// The table of a net.
ghost use Rattle.std.specs.Prelude.{◌≡◌, ℕ, ◌^◌, ◌<◌, ◌≤◌, length, slice_index};
ghost use Rattle.nets.specs.Layout.{arities, NamesStanding, NamesBack, NamesOther};

use crate::links::Links;
use books::table::Cell;

/// A net: kind and arity of the cell in each of the places 0 to 1,023, one bit a place that says whether a cell stands there,
/// the links in four slots a row, how many ends there are, and how many loops. Its links are mutual:
/// each port of a cell and each end is linked with exactly one other, never itself.
#[derive(Drop)]
pub struct Table {
    pub(crate) links: Links,
    pub(crate) places: Vec<Cell>,
    // one bit a place: the number of cells is the number of set bits
    pub(crate) occupied: [u8; 128],
    pub(crate) ends: u8,
    pub(crate) loops: u32,
    ghost every: { length places.items ≡ 1024 },
    ghost ports: { (r : ℕ) → slice_index (arities places.items) r ≤ 2 },
    ghost wide: { length occupied ≡ 128 },
    ghost few: { ends ≤ 64 },
    ghost counted: { loops < 2 ^ 30 },
    ghost standing: { NamesStanding links.targets.items (arities places.items) occupied ends },
    ghost back: { NamesBack links.targets.items (arities places.items) occupied ends },
    ghost other: { NamesOther links.targets.items (arities places.items) occupied ends },
}
