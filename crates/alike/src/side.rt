// One side of the pairs.
ghost use Rattle.std.specs.Prelude.{◌≡◌, ℕ, ◌<◌, ◌++◌, ◌∷◌, ◌↔◌, [], true, length, take, slice_index};

use crate::row::{Kind, Port, Row};
use crate::rows::Rows;
use nets::table::Table;

// A net, and its row in each pair: rows[k] for the pair k.
// seats[r] is which pair row r is in, if it is in one.
#[derive(Drop)]
pub(crate) struct Side<'a> {
    pub(crate) table: &'a Table,
    pub(crate) rows: Rows,
    seats: [u16; 1094],
    ghost small: { (k : ℕ) → slice_index rows.items k < 1094 },
    ghost seated: { (k : ℕ) → k < length rows.items → slice_index seats (slice_index rows.items k) ≡ k },
}

impl Side<'_> {
    ghost use Rattle.pairing.proofs.Pairs.{Found, Free, IsLoose, Covers};
    ghost use Rattle.alike.specs.Rows.{kind_number, IsFew};
    ghost use Rattle.alike.specs.Sides.{graph_of, size, row_at};

    // No pairs yet.
    pub(crate) fn new(table: &Table) -> Side<'_>
        ensures table { result.table.now ≡ table.now }
        ensures empty { result.rows.items ≡ [] }
    {
        Side {
            table,
            rows: Rows::new(),
            seats: [0; 1094],
        }
    }

    // The row in the pair k.
    pub(crate) fn row(&self, k: usize) -> Row
        requires { k < size self.now }
        ensures { result.number ≡ row_at self.now k }
    {
        Row {
            number: self.rows.at(k),
        }
    }

    // Which pair a row is in, if any.
    pub(crate) fn find(&self, row: Row) -> Option<usize>
        ensures { Found (size self.now) (row_at self.now) row.number result }
    {
        let k = self.seats[row.number as usize] as usize;
        (self.rows.get(k) == Some(row.number)).then_some(k)
    }

    // Puts a row behind the others.
    pub(crate) fn push(&mut self, row: Row)
        requires { Free (size self.old) (row_at self.old) row.number }
        ensures rows { self.new.rows.items ≡ self.old.rows.items ++ row.number ∷ [] }
        ensures table { self.new.table ≡ self.old.table }
    {
        self.seats[row.number as usize] = self.rows.len() as u16;
        self.rows.push(row.number);
    }

    // Keeps the first n rows.
    pub(crate) fn truncate(&mut self, n: usize)
        ensures rows { self.new.rows.items ≡ take n self.old.rows.items }
        ensures table { self.new.table ≡ self.old.table }
    {
        self.rows.truncate(n);
    }

    // What stands in a row, if anything does.
    pub(crate) fn kind(&self, row: Row) -> Option<Kind>
        ensures number { kind_number result ≡ (graph_of self.now).kind row.number }
        ensures few { IsFew result }
    {
        if row.number < 1030 {
            return self.table.kind(row.number).map(Kind::Cell);
        }
        let end = (row.number - 1030) as u8;
        (end < self.table.ends()).then_some(Kind::End(end))
    }

    // Whether this is what stands in a row.
    // By cases, since the search for a piece that fits asks this of every row.
    pub(crate) fn is_of(&self, row: Row, kind: Option<Kind>) -> bool
        requires { IsFew kind }
        ensures { result ≡ true ↔ ((graph_of self.now).kind row.number ≡ kind_number kind) }
    {
        match kind {
            Some(Kind::Cell(kind)) => self.table.kind(row.number) == Some(kind),
            Some(Kind::End(end)) => {
                row.number == 1030 + u16::from(end) && end < self.table.ends()
            }
            None => self.kind(row).is_none(),
        }
    }

    // What a port is linked with: itself, if its row does not have it.
    pub(crate) fn link(&self, port: Port) -> Port
        ensures row { result.row.number ≡ (graph_of self.now).row port.row.number port.number }
        ensures number { result.number ≡ (graph_of self.now).slot port.row.number port.number }
    {
        let Some(spot) = port.spot() else {
            return port;
        };
        match self.table.mate(spot) {
            Some(mate) => Port::of(mate),
            None => port,
        }
    }

    // Whether a row is there, and in no pair.
    pub(crate) fn is_loose(&self, row: Row) -> bool
        ensures { IsLoose (graph_of self.now) (size self.now) (row_at self.now) row.number result }
    {
        self.kind(row).is_some() && self.find(row).is_none()
    }

    // Whether every row that is there is in a pair.
    pub(crate) fn is_covered(&self) -> bool
        ensures { Covers (graph_of self.now) (size self.now) (row_at self.now) result }
    {
        (0..1094).all(
            |number|
                requires { number < 1094 }
            { !self.is_loose(Row { number }) },
        )
    }
}
