// Splices in the links of a table, and rows moved out of the way.
ghost use Rattle.std.specs.Prelude.{◌<◌, ◌≢◌, IfSome};
ghost use Rattle.nets.specs.Layout.{slot_of, slots};
ghost use Rattle.nets.specs.Rewiring.{Spliced, Strung, Cleared};

use crate::link::Link;
use crate::links::Links;

impl Links {
    // The wires of a and b run through; answers the loops that this closes.
    fn splice(&mut self, a: Link, b: Link) -> u32
        requires first { slot_of a < slots }
        requires second { slot_of b < slots }
        ensures { Spliced self.old.targets.items (slot_of a) (slot_of b) self.new.targets.items result }
    {
        let x = self.targets[a.slot()];
        let y = self.targets[b.slot()];
        // by slots, since two links may name one
        if x.slot() == b.slot() {
            return 1;
        }
        self.join(x, y);
        0
    }

    // So many ports of two rows spliced, the last first; answers the loops that this closes.
    pub(crate) fn splice_rows(&mut self, row: u16, gate: u16, ports: u8) -> u32
        requires first { row < 1030 }
        requires second { gate < 1030 }
        requires few { ports < 3 }
        ensures { Strung self.old.targets.items row gate ports self.new.targets.items result }
    {
        let mut loops = 0;
        // each turn changes the links that the next one reads
        for port in (1..=ports).rev() {
            loops += self.splice(Link { row, port }, Link { row: gate, port });
        }
        loops
    }

    // Makes the row free where a spare one is given, its ports moved to that, the last first; answers where they stand.
    pub(crate) fn clear(&mut self, row: u16, spare: Option<u16>, ports: u8) -> u16
        requires first { row < 1030 }
        requires second { IfSome spare (λ t. (t < 1030) × (row ≢ t)) }
        requires few { ports < 3 }
        ensures { Cleared self.old.targets.items row spare ports self.new.targets.items result }
    {
        let Some(spare) = spare else {
            return row;
        };
        for port in (1..=ports).rev() {
            let mate = self.targets[Link { row, port }.slot()];
            self.join(Link { row: spare, port }, mate);
        }
        spare
    }
}
