// How a draft is made, filled and sealed.
ghost use Rattle.std.specs.Prelude.{◌≡◌, ℕ, ◌+◌, ◌*◌, ◌/◌, ◌%◌, ◌^◌, ◌<◌, ◌≤◌, true, ltb, IfOk, if◌then◌else◌};
ghost use Rattle.nets.specs.Views.{at};
ghost use Rattle.nets.specs.Drafts.{plan, planned, nameable, Begun, CellAdded, LinkNamed, cell_fault, link_fault, Attempt, Sealing};
ghost use Rattle.nets.specs.Inner.{Checked, CheckedCell, CheckedSpot, Front};

use crate::draft::Draft;
use crate::fault::DraftFault;
use crate::links::Links;
use crate::spot::Spot;
use crate::table::Table;
use books::table::Cell;
use std::alloc::{AllocError, Global};
use std::array;

impl Draft {
    /// A draft with no cells yet; over 64 ends count as 64, over 1,073,741,823 loops as 1,073,741,823.
    pub fn new(heap: Global, ends: u8, loops: u32) -> Result<Draft, AllocError>
        ensures { IfOk result (λ d. Begun ends loops (plan d)) }
    {
        let links = Links::new(heap)?;
        let places = vec![in heap; Cell { kind: 0, arity: 0 }; 1024]?;
        Ok(Draft {
            links,
            places,
            cells: 0,
            ends: ends.min(64),
            loops: loops.min(1073741823),
        })
    }

    /// Puts a cell into the next place; refuses where 1,024 cells are there, else where the arity is over 2.
    pub fn add_cell(&mut self, kind: u8, arity: u8) -> Result<(), DraftFault>
        ensures { Attempt (cell_fault (plan self.old) arity) self.old (CellAdded (plan self.old) kind arity (plan self.new)) result self.new }
    {
        if self.cells >= 1024 {
            return Err(DraftFault::Full);
        }
        if arity > 2 {
            return Err(DraftFault::Arity);
        }
        self.places[self.cells as usize] = Cell { kind, arity };
        self.cells += 1;
        Ok(())
    }

    /// Lets the link of a spot name another; refuses where the spot is not there, else where the other can be in no table.
    pub fn name_link(&mut self, from: Spot, to: Spot) -> Result<(), DraftFault>
        ensures { Attempt (link_fault (plan self.old) (at from) (at to)) self.old (LinkNamed (plan self.old) (at from) (at to) (plan self.new)) result self.new }
    {
        if !self.has(from) {
            return Err(DraftFault::NoSpot);
        }
        if !is_nameable(to) {
            return Err(DraftFault::NoTarget);
        }
        self.links.name(from.link(), to.link());
        Ok(())
    }

    // Whether the spot is there.
    fn has(&self, spot: Spot) -> bool
        ensures { result ≡ planned (plan self.now) (at spot) }
    {
        match spot {
            Spot::End(e) => e < self.ends as u16,
            Spot::Port(r, j) => r < self.cells && j <= self.places[r as usize].arity,
        }
    }
}

// Whether the spot can be in a table.
fn is_nameable(spot: Spot) -> bool
    ensures { result ≡ nameable (at spot) }
{
    match spot {
        Spot::End(e) => e < 64,
        Spot::Port(r, j) => r < 1024 && j < 3,
    }
}

impl Draft {
    /// The table that has what the draft says; where links are not mutual, the first spot whose link is at fault.
    pub fn seal(self) -> Result<Table, Spot>
        ensures { Sealing (plan self) result }
    {
        self.check()?;
        let Draft {
            links,
            places,
            cells,
            ends,
            loops,
        } = self;
        Ok(Table {
            links,
            places,
            occupied: front(cells),
            ends,
            loops,
        })
    }

    // Refuses the first spot whose link is at fault.
    // by number, which is what a fault tells
    fn check(&self) -> Result<(), Spot>
        ensures { Checked (plan self.now) result }
    {
        for e in 0..self.ends as u16 {
            self.check_spot(Spot::End(e))?;
        }
        for place in 0..self.cells {
            self.check_cell(place)?;
        }
        Ok(())
    }

    // Refuses the first port of a cell whose link is at fault.
    fn check_cell(&self, place: u16) -> Result<(), Spot>
        requires { place < self.now.cells }
        ensures { CheckedCell (plan self.now) place result }
    {
        for port in 0..=self.places[place as usize].arity {
            self.check_spot(Spot::Port(place, port))?;
        }
        Ok(())
    }

    // Refuses a spot whose link names itself, or what is not there, or what does not name it back.
    fn check_spot(&self, spot: Spot) -> Result<(), Spot>
        requires { planned (plan self.now) (at spot) ≡ true }
        ensures { CheckedSpot (plan self.now) (at spot) result }
    {
        let here = spot.link().slot();
        let mate = self.links.targets[here];
        let there = mate.slot();
        // by slots, which are at hand: as spots the same takes nearly twice as long
        if there == here || !self.has(mate.spot()) || self.links.targets[there].slot() != here {
            return Err(spot);
        }
        Ok(())
    }
}

// The map in which just the first places are occupied.
fn front(cells: u16) -> [u8; 128]
    requires { cells ≤ 1024 }
    ensures { Front cells result }
{
    array::from_fn(|i| front_byte(cells, i))
}

// Byte i of that map.
fn front_byte(cells: u16, i: usize) -> u8
    requires { i < 128 }
    ensures { (j : ℕ) → j < 8 → result / 2 ^ j % 2 ≡ (if ltb (i * 8 + j) cells then 1 else 0) }
{
    let before = cells.saturating_sub(i as u16 * 8);
    if before >= 8 {
        255
    } else {
        (1u8 << before) - 1
    }
}
