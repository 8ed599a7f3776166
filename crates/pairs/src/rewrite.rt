// One pair rewritten, and the pairs that become active by it.
ghost use Rattle.nets.specs.ByBook.{PairDue};
ghost use Rattle.pairs.specs.Forming.{Forms};

use crate::active::cell_across;
use crate::gather::{gather, neighbours};
use arrayvec::ArrayVec;
use books::book::Book;
use nets::fault::PairFault;
use nets::spot::Spot;
use nets::table::Table;
use strategies::pair::Pair;

/// Rewrites the active pair of the cells in two places, L first, by the book's rule, and answers the pairs that became active by it, by rising lower place.
/// Refused as `Table::rewrite_pair` is.
pub fn rewrite_pair<B: Book>(
    book: &B,
    table: &mut Table,
    left: u16,
    right: u16,
) -> Result<ArrayVec<Pair, 4>, PairFault>
    ensures due { PairDue (B.meaning book.now) table.old left right table.new result }
    ensures forms { Forms (B.meaning book.now) table.old left right table.new result }
{
    // before the neighbours are gathered, which a refusal has no use for
    if cell_across(table, Spot::Port(left, 0)) != Some(right) {
        return Err(PairFault::NotReady);
    }
    let mut cells = neighbours(table, left, right);
    let places = table.rewrite_pair(book, left, right)?;
    cells.try_extend_from_slice(&places).unwrap();
    Ok(gather(book, table, &cells))
}
