// Rows of a net, what stands in them, and their ports.
ghost use Rattle.std.specs.Prelude.{◌≡◌, ◌<◌};
ghost use Rattle.pairing.specs.Rows.{row_of, port_number};
ghost use Rattle.nets.specs.Views.{at};
ghost use Rattle.alike.specs.Rows.{Spotted};

use nets::spot::Spot;

// The number of a row, by which its seat is found: there are 1,094.
#[derive(Clone, Copy, Debug, PartialEq, Eq)]
pub(crate) struct Row {
    pub(crate) number: u16,
    ghost small: { number < 1094 },
}

// What stands in a row: a cell of a kind, or an end, each of a kind of its own.
#[derive(Clone, Copy, Debug, PartialEq, Eq)]
pub(crate) enum Kind {
    Cell(u8),
    End(u8),
}

// A port of a row. A table's links have this shape too; what is alike is decided over public views, however a table keeps its links.
#[derive(Clone, Copy, Debug, PartialEq, Eq)]
pub(crate) struct Port {
    pub(crate) row: Row,
    pub(crate) number: u8,
}

impl Port {
    // The port that a spot is.
    pub(crate) fn of(spot: Spot) -> Port
        requires { row_of (at spot) < 1094 }
        ensures row { result.row.number ≡ row_of (at spot) }
        ensures number { result.number ≡ port_number (at spot) }
    {
        match spot {
            Spot::End(e) => Port {
                row: Row { number: 1030 + e },
                number: 0,
            },
            Spot::Port(place, number) => Port {
                row: Row { number: place },
                number,
            },
        }
    }

    // The spot that it is, if such a row may have that port: an end has port 0 alone.
    pub(crate) fn spot(self) -> Option<Spot>
        ensures { Spotted self.row.number self.number result }
    {
        let row = self.row.number;
        if row < 1030 {
            Some(Spot::Port(row, self.number))
        } else if self.number == 0 {
            Some(Spot::End(row - 1030))
        } else {
            None
        }
    }
}
