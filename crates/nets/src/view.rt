// What a table tells of its net.
ghost use Rattle.std.specs.Prelude.{◌≡◌, sum_by, count_ones};
ghost use Rattle.nets.specs.Meaning.{net, content, arity_at, cells_below};
ghost use Rattle.nets.specs.Views.{at, Mated};
ghost use Rattle.nets.specs.Inner.{there};

use crate::occupancy::{count_set, is_occupied};
use crate::spot::Spot;
use crate::table::Table;

impl Table {
    /// How many ends the net has.
    pub fn ends(&self) -> u8
        ensures { result ≡ (net self.now).ends }
    {
        self.ends
    }

    /// How many closed loops the net has.
    pub fn loops(&self) -> u32
        ensures { result ≡ (net self.now).loops }
    {
        self.loops
    }

    /// How many cells the net has: the set bits of the occupancy map.
    pub fn cells(&self) -> u16
        ensures live { result ≡ cells_below (net self.now) 1024 }
        ensures bits { result ≡ sum_by count_ones self.now.occupied }
    {
        count_set(&self.occupied)
    }

    /// The kind of the cell in a place, if one stands there.
    pub fn kind(&self, place: u16) -> Option<u8>
        ensures { result ≡ (net self.now).kind place }
    {
        is_occupied(&self.occupied, place).then(|| self.places[place as usize].kind)
    }

    /// The arity of the cell in a place, if one stands there.
    pub fn arity(&self, place: u16) -> Option<u8>
        ensures { result ≡ arity_at (content self.now) place }
    {
        is_occupied(&self.occupied, place).then(|| self.places[place as usize].arity)
    }

    /// What a spot is linked with, if it is there.
    pub fn mate(&self, spot: Spot) -> Option<Spot>
        ensures { Mated (net self.now) (at spot) result }
    {
        self.has(spot).then(|| self.links.mate(spot))
    }

    // Whether the spot is there.
    fn has(&self, spot: Spot) -> bool
        ensures { result ≡ there (content self.now) (at spot) }
    {
        match spot {
            Spot::End(e) => e < self.ends as u16,
            Spot::Port(r, j) => is_occupied(&self.occupied, r)
                && j <= self.places[r as usize].arity,
        }
    }
}
