// A rule kept in room of its own.
ghost use Rattle.books.specs.Owning.{Holds, Kept};

use crate::table::{Cell, OwnedRule, RulePort, RuleTable, Wire};

// What stands where no new cell does.
const NO_CELL: Cell = Cell { kind: 0, arity: 0 };

// What stands where no wire does.
const NO_WIRE: Wire = Wire(RulePort::L(0), RulePort::L(0));

impl OwnedRule {
    /// The rule of a table, or `None` where it has more than four new cells or eight wires.
    pub fn new(rule: &RuleTable) -> Option<OwnedRule>
        ensures { Kept rule.now result }
    {
        let (cell_count, wire_count) = (rule.cells.len(), rule.wires.len());
        if cell_count > 4 || wire_count > 8 {
            return None;
        }
        let mut cells = [NO_CELL; 4];
        cells[..cell_count].copy_from_slice(rule.cells);
        let mut wires = [NO_WIRE; 8];
        wires[..wire_count].copy_from_slice(rule.wires);
        Some(OwnedRule {
            left: rule.left,
            right: rule.right,
            cells,
            cell_count: cell_count as u8,
            wires,
            wire_count: wire_count as u8,
        })
    }

    /// The rule as a table.
    pub fn table(&self) -> RuleTable<'_>
        ensures { Holds self.now result }
    {
        RuleTable {
            left: self.left,
            right: self.right,
            cells: &self.cells[..self.cell_count as usize],
            wires: &self.wires[..self.wire_count as usize],
        }
    }
}
