// Gathering the pairs among some places.
ghost use Rattle.std.specs.Prelude.{◌≡◌, ◌<◌, ◌≤◌, nat_lt};
ghost use Rattle.std.specs.List.{position};
ghost use Rattle.calculus.specs.Nets.{Good};
ghost use Rattle.nets.specs.Meaning.{net};
ghost use Rattle.arrayvec.specs.ArrayVec.{array_vec_len};
ghost use Rattle.pairs.specs.Pairs.{least};
ghost use Rattle.pairs.specs.Gathering.{neighbours as near, put, Whole, Gathered};

use crate::active::{cell_across, led_by, lower};
use arrayvec::ArrayVec;
use books::book::Book;
use nets::spot::Spot;
use nets::table::Table;
use strategies::pair::Pair;

// The cells whose principal ports are linked with auxiliary ports of the cells in two places.
pub(crate) fn neighbours(table: &Table, left: u16, right: u16) -> ArrayVec<u16, 8>
    ensures which { result.items ≡ near (net table.now) left right }
    ensures few { array_vec_len result ≤ 4 }
{
    let mut cells = ArrayVec::new();
    let ports = [
        Spot::Port(left, 1),
        Spot::Port(left, 2),
        Spot::Port(right, 1),
        Spot::Port(right, 2),
    ];
    for port in ports {
        if let Some(cell) = cell_across(table, port) {
            cells.push(cell);
        }
    }
    cells
}

// The active pairs with their lower cell in the places, in order.
pub(crate) fn gather<B: Book>(book: &B, table: &Table, places: &[u16]) -> ArrayVec<Pair, 4>
    ensures { Good (B.meaning book.now) (net table.now) → Whole (B.meaning book.now) (net table.now) places.now →
        Gathered (B.meaning book.now) (net table.now) places.now result.items }
{
    let mut found = ArrayVec::new();
    for place in places {
        if let Some(pair) = led_by(book, table, *place) {
            insert(&mut found, pair);
        }
    }
    found
}

// Puts a pair in by its lower place, if there is room.
fn insert(found: &mut ArrayVec<Pair, 4>, pair: Pair)
    ensures { array_vec_len found.old < 4 → found.new.items ≡ put least pair found.old.items }
{
    let place = place_among(found, pair).unwrap_or(found.len());
    // no room is no fault: a net that keeps the book's laws forms at most four
    let _ = found.try_insert(place, pair);
}

// The place of the first pair that has a greater lower place.
fn place_among(found: &[Pair], pair: Pair) -> Option<usize>
    ensures { result ≡ position (λ other. nat_lt (least pair) (least other)) found.now }
{
    found.iter().position(|other| lower(pair) < lower(*other))
}
