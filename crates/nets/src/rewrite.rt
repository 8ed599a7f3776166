// One pair of a table rewritten in place.
ghost use Rattle.nets.specs.Meaning.{net};
ghost use Rattle.nets.specs.Fitting.{Told};
ghost use Rattle.nets.specs.Rewrites.{Face, Suits, Due, Rewrites};
ghost use Rattle.nets.specs.Seating.{Checked, Limiting, Replaceable, Replaced};

use crate::fault::{Limit, RewriteFault};
use crate::fitting::fits;
use crate::lay::lay;
use crate::link::{FIRST_END, FIRST_SPARE, LEFT_GATE, RIGHT_GATE, SECOND_SPARE};
use crate::occupancy::is_occupied;
use crate::seats::{fill, take_places};
use crate::table::Table;
use arrayvec::ArrayVec;
use books::table::RuleTable;

impl Table {
    /// Rewrites the pair of the cells in two places, L first, by a rule. Refused where the places do not hold two cells whose principal ports are linked,
    /// where the rule is not one for them, where there are over 1,073,741,821 loops, and where the new cells outnumber the vacant places plus two.
    pub fn rewrite(&mut self, left: u16, right: u16, rule: &RuleTable) -> Result<(), RewriteFault>
        ensures due { Due self.old left right rule.now self.new result }
        ensures rewrites { Rewrites self.old left right rule.now self.new result }
    {
        self.check(left, right, rule)?;
        self.replace(left, right, rule);
        Ok(())
    }

    // What is against the rewrite, if anything is.
    fn check(&self, left: u16, right: u16, rule: &RuleTable) -> Result<(), RewriteFault>
        ensures { Checked self.now left right rule.now result }
    {
        if !self.are_facing(left, right) {
            return Err(RewriteFault::NotFacing);
        }
        if !self.is_suited(left, right, rule) {
            return Err(RewriteFault::Unfit);
        }
        self.check_limits(rule.cells.len())?;
        Ok(())
    }

    // The limit that is against a rewrite with so many new cells, if one is.
    pub(crate) fn check_limits(&self, cells: usize) -> Result<(), Limit>
        ensures { Limiting self.now cells result }
    {
        if self.loops > 1_073_741_821 {
            return Err(Limit::Loops);
        }
        if cells > 2 && cells > 1026 - self.cells() as usize {
            return Err(Limit::Places);
        }
        Ok(())
    }

    // Whether the places hold two cells whose principal ports are linked.
    pub(crate) fn are_facing(&self, left: u16, right: u16) -> bool
        ensures { Told (Face (net self.now) left right) result }
    {
        if !is_occupied(&self.occupied, left) || right >= FIRST_END {
            return false;
        }
        self.links.targets[left as usize * 4].slot() == right as usize * 4
    }

    // Whether the rule is one for the two cells.
    fn is_suited(&self, left: u16, right: u16, rule: &RuleTable) -> bool
        requires { Face (net self.now) left right }
        ensures { Told (Suits self.now left right rule.now) result }
    {
        let (first, second) = (self.places[left as usize], self.places[right as usize]);
        if first.kind != rule.left || second.kind != rule.right {
            return false;
        }
        fits(rule, first.arity, second.arity)
    }

    // The pair replaced by the rule's right side: its auxiliary ports parked where new cells take its places, the rule's wires laid, each port spliced with its gate.
    // Answers the places of the new cells.
    pub(crate) fn replace(&mut self, left: u16, right: u16, rule: &RuleTable) -> ArrayVec<u16, 4>
        requires { Replaceable self.old left right rule.now }
        ensures { Replaced self.old left right rule.now result.items self.new }
    {
        let left_ports = self.places[left as usize].arity;
        let right_ports = self.places[right as usize].arity;
        let cells = rule.cells.len() as u16;
        // the number of the new cell that takes L's place, and of that place's spare row
        let turn = u16::from(left > right);
        let places = take_places(&mut self.occupied, left, right, rule.cells.len());
        let left_spare = (turn < cells).then_some(FIRST_SPARE + turn);
        let left_row = self.links.clear(left, left_spare, left_ports);
        let right_spare = (1 - turn < cells).then_some(SECOND_SPARE - turn);
        let right_row = self.links.clear(right, right_spare, right_ports);
        lay(&mut self.links, rule, &places);
        let first = self.links.splice_rows(left_row, LEFT_GATE, left_ports);
        let second = self.links.splice_rows(right_row, RIGHT_GATE, right_ports);
        fill(&mut self.places, rule.cells, &places);
        self.loops = self.loops + first + second;
        places
    }
}
