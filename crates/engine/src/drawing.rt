// Drawing a pair.
ghost use Rattle.engine.specs.Calls.{Draws};

use crate::run::Run;
use crate::slip::Slip;
use books::book::Book;
use refusals::faults::StrategyFault;
use strategies::strategy::Strategy;

impl<B: Book, S: Strategy> Run<B, S> {
    /// Takes a waiting pair, marks its cells as out, and answers the slip for it; `Empty` if none waits.
    pub fn draw(&mut self) -> Result<Slip, StrategyFault>
        ensures { Draws B.Book.meaning S.Strategy self.old result self.new }
    {
        // count is asked first, so that a refused draw leaves the strategy as it was
        if self.strategy.count() == 0 {
            return Err(StrategyFault::Empty);
        }
        let pair = self.strategy.take().unwrap();
        self.marks.set(pair.left, pair.right, true);
        Ok(Slip {
            stamp: self.stamp,
            left: pair.left,
            right: pair.right,
        })
    }
}
