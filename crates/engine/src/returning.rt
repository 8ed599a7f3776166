// Putting a pair back.
ghost use Rattle.engine.specs.Calls.{PutsBack};

use crate::run::Run;
use crate::slip::Slip;
use books::book::Book;
use pairs::active::active_pair;
use strategies::strategy::Strategy;

impl<B: Book, S: Strategy> Run<B, S> {
    /// Spends the slip: if its pair is out here, it waits again, and the answer is yes; otherwise nothing changes.
    // the project's rule: a put back answers yes or no, and takes the slip either way
    pub fn put_back(&mut self, slip: Slip) -> bool
        ensures { PutsBack B.Book.meaning S.Strategy self.old slip result self.new }
    {
        let is_out = self.is_out(&slip);
        let (left, right) = slip.spend();
        if !is_out {
            return false;
        }
        self.marks.set(left, right, false);
        if let Some(pair) = active_pair(&self.net.book, &self.net.table, left) {
            let _ = self.strategy.put(pair);
        }
        true
    }
}
