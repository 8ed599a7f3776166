// Where the new cells of a rewrite stand.
ghost use Rattle.std.specs.Prelude.{◌≡◌, ◌+◌, ◌<◌, ◌≤◌, true, length, vec_len};
ghost use Rattle.nets.specs.ByBook.{seat};
ghost use Rattle.nets.specs.Rewiring.{Places, Filled};
ghost use Rattle.nets.specs.Seating.{bits_below, Flipped, Highest, Taken, Seated};

use arrayvec::ArrayVec;
use books::table::Cell;

// The places of the new cells, which are marked as occupied; the pair's places that no new cell takes are marked as vacant.
pub(crate) fn take_places(
    map: &mut [u8; 128],
    left: u16,
    right: u16,
    cells: usize,
) -> ArrayVec<u16, 4>
    requires first { left < 1024 }
    requires second { right < 1024 }
    requires few { cells ≤ 4 }
    requires room { bits_below map.old 1024 + cells ≤ 1026 }
    ensures { Seated left right cells map.old result.items map.new }
{
    let low = left.min(right);
    let high = left.max(right);
    let low_leaves = cells < 1;
    if low_leaves {
        flip(map, low);
    }
    let high_leaves = cells < 2;
    if high_leaves {
        flip(map, high);
    }
    let third = if cells > 2 { take_vacant(map) } else { 0 };
    let fourth = if cells > 3 { take_vacant(map) } else { 0 };
    let mut places = ArrayVec::from_array_in((), [low, high, third, fourth]);
    places.truncate(cells);
    places
}

// Turns the bit of a place.
fn flip(map: &mut [u8; 128], place: u16)
    requires { place < 1024 }
    ensures { Flipped map.old place map.new }
{
    let at = place as usize;
    map[at / 8] ^= 1u8 << (at % 8);
}

// Takes the highest vacant place.
fn take_vacant(map: &mut [u8; 128]) -> u16
    requires { bits_below map.old 1024 < 1024 }
    ensures { Taken true map.old result map.new }
{
    let place = highest_vacant(map).unwrap();
    flip(map, place);
    place
}

// The highest vacant place, if there is one.
fn highest_vacant(map: &[u8; 128]) -> Option<u16>
    ensures { Highest map.now result }
{
    for (i, byte) in map.iter().enumerate().rev() {
        let free = 255 - *byte;
        if free != 0 {
            return Some(i as u16 * 8 + (7 - free.leading_zeros() as u16));
        }
    }
    None
}

// Writes the new cells at their places.
pub(crate) fn fill(cells: &mut Vec<Cell>, new: &[Cell], places: &[u16])
    requires long { vec_len cells.old ≡ 1024 }
    requires paired { length new.now ≤ length places.now }
    requires places { Places (seat places.now) (length new.now) }
    ensures { Filled cells.old.items new.now (length new.now) places.now cells.new.items }
{
    for (cell, place) in new.iter().zip(places) {
        cells[*place as usize] = *cell;
    }
}
