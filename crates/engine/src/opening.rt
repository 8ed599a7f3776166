// Opening a sealed net.
ghost use Rattle.engine.specs.Calls.{Opens};

use crate::marks::Marks;
use crate::putting::put_active;
use crate::run::Run;
use crate::sealed::Sealed;
use books::book::Book;
use strategies::strategy::Strategy;

impl<B: Book> Sealed<B> {
    /// Opens the net to a run with a strategy and a stamp: the strategy is cleared, every active pair put by rising lower place, and the count starts at 0.
    pub fn open<S: Strategy>(self, mut strategy: S, stamp: u32) -> Run<B, S>
        ensures { Opens B.Book.meaning S.Strategy self strategy stamp result }
    {
        let Sealed { net } = self;
        strategy.clear();
        put_active(&net, &mut strategy);
        Run {
            net,
            strategy,
            marks: Marks::none(),
            stamp,
            count: 0,
        }
    }
}
