// The active pair at a place.
ghost use Rattle.std.specs.Prelude.{◌≡◌};
ghost use Rattle.calculus.specs.Nets.{Good};
ghost use Rattle.nets.specs.Meaning.{net};
ghost use Rattle.nets.specs.Views.{at};
ghost use Rattle.pairs.specs.Pairs.{PairAt, LedBy, least};
ghost use Rattle.pairs.specs.Gathering.{Across, IsLeft};

use books::book::Book;
use nets::spot::Spot;
use nets::table::Table;
use strategies::pair::Pair;

/// The active pair with a cell in a place, if there is one.
pub fn active_pair<B: Book>(book: &B, table: &Table, place: u16) -> Option<Pair>
    ensures { PairAt (B.meaning book.now) (net table.now) place result }
{
    let kind = table.kind(place)?;
    let other = cell_across(table, Spot::Port(place, 0))?;
    let across = table.kind(other)?;
    let rule = book.rule(kind, across)?;
    let cells = rule.cells.len() as u8;
    let (left, right) = if is_left(kind, place, across, other) {
        (place, other)
    } else {
        (other, place)
    };
    Some(Pair { left, right, cells })
}

/// The active pair whose lower cell is in a place, if there is one.
pub fn led_by<B: Book>(book: &B, table: &Table, place: u16) -> Option<Pair>
    ensures { Good (B.meaning book.now) (net table.now) → LedBy (B.meaning book.now) (net table.now) place result }
{
    let pair = active_pair(book, table, place)?;
    (lower(pair) == place).then_some(pair)
}

// The lower place of a pair.
pub(crate) fn lower(pair: Pair) -> u16
    ensures { result ≡ least pair }
{
    pair.left.min(pair.right)
}

// Whether the first of two cells is L: its kind is the lower one, or the kinds are equal and its place is.
fn is_left(kind: u8, place: u16, across: u8, other: u16) -> bool
    ensures { IsLeft kind place across other result }
{
    (kind, place) < (across, other)
}

// The cell whose principal port a spot is linked with, if there is one.
pub(crate) fn cell_across(table: &Table, spot: Spot) -> Option<u16>
    ensures { Across (net table.now) (at spot) result }
{
    match table.mate(spot)? {
        Spot::Port(cell, 0) => Some(cell),
        _ => None,
    }
}
