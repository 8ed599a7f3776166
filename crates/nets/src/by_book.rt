// The active pair in two places of a table rewritten by the book.
ghost use Rattle.nets.specs.ByBook.{Against, PairDue, RewritesPair};
ghost use Rattle.nets.specs.Seating.{Chosen, RuleChecked};

use crate::fault::PairFault;
use crate::table::Table;
use arrayvec::ArrayVec;
use books::book::Book;
use books::table::RuleTable;

impl Table {
    /// Rewrites the active pair of the cells in two places, L first, by the book's rule, and answers where its new cells stand, N1 first. Refused where the
    /// places hold no active pair of cells with the book's arities, where there are over 1,073,741,821 loops, and where the new cells outnumber the vacant
    /// places plus two.
    pub fn rewrite_pair<B: Book>(
        &mut self,
        book: &B,
        left: u16,
        right: u16,
    ) -> Result<ArrayVec<u16, 4>, PairFault>
        ensures due { PairDue (B.meaning book.now) self.old left right self.new result }
        ensures rewrites { RewritesPair (B.meaning book.now) self.old left right self.new result }
    {
        let rule = self.check_rule(book, left, right)?;
        Ok(self.replace(left, right, &rule))
    }

    /// What is against the rewrite of the pair in two places, L first, if anything is.
    // an `Option`, no `Result`: to find a fault is what is asked, and no failure
    pub fn check_pair<B: Book>(&self, book: &B, left: u16, right: u16) -> Option<PairFault>
        ensures { Against (B.meaning book.now) self.now left right result }
    {
        // by itself, so that a caller that asks only whether the pair is ready counts no cells
        let Some(rule) = self.rule(book, left, right) else {
            return Some(PairFault::NotReady);
        };
        match self.check_limits(rule.cells.len()) {
            Ok(()) => None,
            Err(limit) => Some(PairFault::from(limit)),
        }
    }

    // The rule by which the pair in two places, L first, can be rewritten, or what is against that.
    fn check_rule<'a, B: Book>(
        &self,
        book: &'a B,
        left: u16,
        right: u16,
    ) -> Result<RuleTable<'a>, PairFault>
        ensures { RuleChecked (B.meaning book.now) self.now left right result }
    {
        let rule = self.rule(book, left, right).ok_or(PairFault::NotReady)?;
        self.check_limits(rule.cells.len())?;
        Ok(rule)
    }

    // The rule of the pair in two places, L first, if the pair is active and its cells have the book's arities.
    fn rule<'a, B: Book>(&self, book: &'a B, left: u16, right: u16) -> Option<RuleTable<'a>>
        ensures { Chosen (B.meaning book.now) self.now left right result }
    {
        if !self.are_facing(left, right) {
            return None;
        }
        let (first, second) = (self.places[left as usize], self.places[right as usize]);
        let rule = book.rule(first.kind, second.kind)?;
        if rule.left != first.kind
            || rule.right != second.kind
            || (first.kind == second.kind && right < left)
        {
            return None;
        }
        if book.arity(first.kind) != Some(first.arity) {
            return None;
        }
        if book.arity(second.kind) != Some(second.arity) {
            return None;
        }
        Some(rule)
    }
}
