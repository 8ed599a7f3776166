// Ending a run.
ghost use Rattle.std.specs.Prelude.{◌≡◌};
ghost use Rattle.engine.specs.Calls.{Closes, Leaves};
ghost use Rattle.engine.specs.Terms.{ClosesTerms};

use crate::net::Net;
use crate::normal::Normal;
use crate::run::Run;
use crate::sealed::Sealed;
use books::book::Book;
use refusals::faults::RunFault;
use strategies::strategy::Strategy;

impl<B: Book, S: Strategy> Run<B, S> {
    /// The normal net, the count and the strategy; `Busy` while a pair waits or is out, and then the run is handed back.
    /// Of a term's net, the count is the number of its beta steps, and the normal net is that of its normal form.
    pub fn close(self) -> Result<(Normal<B>, u32, S), (RunFault, Run<B, S>)>
        ensures closes { Closes B.Book.meaning S.Strategy self result }
        ensures terms { ClosesTerms B.Book.meaning S.Strategy self result }
    {
        if self.strategy.count() > 0 || self.marks.any() {
            return Err((RunFault::Busy, self));
        }
        let (net, count, strategy) = self.end();
        Ok((Normal { net }, count, strategy))
    }

    /// The sealed net, the count and the strategy; `Busy` while a pair is out, and then the run is handed back.
    pub fn leave(self) -> Result<(Sealed<B>, u32, S), (RunFault, Run<B, S>)>
        ensures { Leaves B.Book.meaning S.Strategy self result }
    {
        if self.marks.any() {
            return Err((RunFault::Busy, self));
        }
        let (net, count, strategy) = self.end();
        Ok((Sealed { net }, count, strategy))
    }

    // What is left of a run that ends.
    fn end(self) -> (Net<B>, u32, S)
        ensures { result ≡ (self.net, self.count, self.strategy) }
    {
        let Run {
            net,
            strategy,
            marks: _,
            stamp: _,
            count,
        } = self;
        (net, count, strategy)
    }
}
