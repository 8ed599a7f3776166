// A link: a row and a port of it.
ghost use Rattle.std.specs.Prelude.{◌≡◌, ◌<◌};
ghost use Rattle.nets.specs.Layout.{slots, slot_of, decode};
ghost use Rattle.nets.specs.Views.{at};

use crate::spot::Spot;

// The rows of a table after the places of cells: where the ports of L and R are parked, the gates of L and R, and the ends; and how many slots the rows have.
pub(crate) const FIRST_SPARE: u16 = 1024;

pub(crate) const SECOND_SPARE: u16 = 1025;

pub(crate) const LEFT_GATE: u16 = 1028;

pub(crate) const RIGHT_GATE: u16 = 1029;

pub(crate) const FIRST_END: u16 = 1030;

pub(crate) const SLOTS: usize = 4376;

/// What a slot of the table is linked with: a row, and a port of that row.
/// Rows 0 to 1,023 are the places of cells, and row 1,030 + e is end e; the rows between are scratch.
#[derive(Clone, Copy, PartialEq, Eq, Debug)]
pub struct Link {
    pub row: u16,
    pub port: u8,
}

impl Link {
    // The slot that it names.
    pub(crate) fn slot(self) -> usize
        ensures { result ≡ slot_of self }
    {
        self.row as usize * 4 + self.port as usize
    }

    // The spot that it names.
    pub(crate) fn spot(self) -> Spot
        requires { slot_of self < slots }
        ensures { at result ≡ decode (slot_of self) }
    {
        let slot = self.slot();
        let row = (slot / 4) as u16;
        if slot % 4 == 0 && slot >= usize::from(FIRST_END) * 4 {
            Spot::End(row - FIRST_END)
        } else {
            Spot::Port(row, (slot % 4) as u8)
        }
    }
}
