// A table in the making.
ghost use Rattle.std.specs.Prelude.{◌≡◌, ℕ, ◌^◌, ◌<◌, ◌≤◌, length, slice_index_or};
ghost use Rattle.nets.specs.Layout.{blank};

use crate::links::Links;
use books::table::Cell;

/// A table in the making: cells in places 0, 1, 2 and on, and links as they are named, mutual or not.
// What a table has as well lies in fields of the same names: no function is for both, and in a struct of its own each would be a step further away.
#[derive(Drop)]
pub struct Draft {
    pub(crate) links: Links,
    pub(crate) places: Vec<Cell>,
    // how many of the places are filled, from 0 on: the table keeps all 1,024, and sealing is to allocate nothing
    pub(crate) cells: u16,
    pub(crate) ends: u8,
    pub(crate) loops: u32,
    ghost every: { length places.items ≡ 1024 },
    ghost ports: { (r : ℕ) → (slice_index_or places.items r blank).arity ≤ 2 },
    ghost room: { cells ≤ 1024 },
    ghost few: { ends ≤ 64 },
    ghost counted: { loops < 2 ^ 30 },
}
