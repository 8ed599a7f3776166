// Whether the table of a rule can be used on two cells.
ghost use Rattle.std.specs.Prelude.{◌≡◌, ◌<◌, ◌≤◌, length, nat_le};
ghost use Rattle.std.specs.List.{list_all};
ghost use Rattle.books.specs.Tables.{port_of, wires_of};
ghost use Rattle.nets.specs.Fitting.{Paired, Fitting, Told};
ghost use Rattle.nets.specs.Noting.{Noted, Marked, AllNoted, Full, FullRow, Small, note_of};

use books::table::{Cell, RulePort, RuleTable, Wire};

// Whether the rule fits an L of arity `left` and an R of arity `right`.
pub(crate) fn fits(rule: &RuleTable, left: u8, right: u8) -> bool
    requires ports { (left ≤ 2) × (right ≤ 2) }
    ensures { Told (Fitting left right rule.now) result }
{
    if rule.cells.len() > 4 || !are_small(rule.cells) {
        return false;
    }
    let trial = Trial { rule, left, right };
    let mut notes = Notes { mates: [None; 24] };
    trial.note_all(&mut notes) && trial.is_full(&notes)
}

// Whether the cells have arity at most 2.
fn are_small(cells: &[Cell]) -> bool
    ensures { result ≡ list_all (λ c. nat_le c.arity 2) cells.now }
{
    cells.iter().all(|cell| cell.arity <= 2)
}

// A table with at most four new cells, of arity at most 2, tried on an L and an R of these arities.
#[derive(Clone, Copy)]
struct Trial<'a> {
    rule: &'a RuleTable<'a>,
    left: u8,
    right: u8,
    ghost few: { length rule.now.cells.now ≤ 4 },
    ghost small: { Small rule.now },
    ghost ports: { (left ≤ 2) × (right ≤ 2) },
}

impl Trial<'_> {
    // Notes the mates of all ports that the rule joins; no where it joins a port that it is not to pair, or one with itself or with two.
    fn note_all(&self, notes: &mut Notes) -> bool
        requires { Marked self.now.left self.now.right self.now.rule.now (wires_of self.now.rule.now) 0 notes.old.mates }
        ensures { AllNoted self.now.left self.now.right self.now.rule.now notes.new.mates result }
    {
        for Wire(from, to) in self.rule.wires {
            if !self.is_paired(*from) || !self.is_paired(*to) {
                return false;
            }
            if !notes.note(index(*from), index(*to)) {
                return false;
            }
        }
        true
    }

    // Whether the rule is to pair the port.
    fn is_paired(&self, port: RulePort) -> bool
        ensures { Told (Paired self.now.left self.now.right self.now.rule.now (port_of port)) result }
    {
        match port {
            RulePort::L(port) => (1..=self.left).contains(&port),
            RulePort::R(port) => (1..=self.right).contains(&port),
            RulePort::N(i, port) => {
                let cell = self.rule.cells.get(usize::from(i));
                cell.is_some_and(|cell| port <= cell.arity)
            }
        }
    }

    // Whether every port that the rule is to pair is noted.
    fn is_full(&self, notes: &Notes) -> bool
        ensures { Told (Full self.now.left self.now.right self.now.rule.now notes.now.mates) result }
    {
        for (i, cell) in self.rule.cells.iter().enumerate() {
            if !notes.is_row_full(i, 0, cell.arity) {
                return false;
            }
        }
        notes.is_row_full(4, 1, self.left) && notes.is_row_full(5, 1, self.right)
    }
}

// Where the mate of a port is noted.
fn index(port: RulePort) -> usize
    ensures { result ≡ note_of (port_of port) }
{
    match port {
        RulePort::L(port) => 16 + port as usize,
        RulePort::R(port) => 20 + port as usize,
        RulePort::N(i, port) => i as usize * 4 + port as usize,
    }
}

// The mate of each port, where one is noted, four notes a row: rows 0 to 3 for the new cells, 4 for L, 5 for R.
#[derive(Drop)]
struct Notes {
    mates: [Option<usize>; 24],
    ghost wide: { length mates ≡ 24 },
}

impl Notes {
    // Notes that two ports are paired; no where they are one, or one is paired with another.
    fn note(&mut self, a: usize, b: usize) -> bool
        requires first { a < 24 }
        requires second { b < 24 }
        ensures { Noted self.old.mates a b self.new.mates result }
    {
        if a == b
            || self.mates[a].is_some_and(|mate| mate != b)
            || self.mates[b].is_some_and(|mate| mate != a)
        {
            return false;
        }
        self.mates[a] = Some(b);
        self.mates[b] = Some(a);
        true
    }

    // Whether the ports from the one number to the other, of one row, are noted.
    fn is_row_full(&self, row: usize, from: u8, to: u8) -> bool
        requires rows { row < 6 }
        requires ports { (from ≤ 1) × (to ≤ 2) }
        ensures { Told (FullRow row from to self.now.mates) result }
    {
        let first = row * 4 + from as usize;
        let end = row * 4 + to as usize + 1;
        !self.mates[first..end].contains(&None)
    }
}
