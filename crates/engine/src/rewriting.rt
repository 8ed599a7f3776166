// Rewriting the pair of a slip.
ghost use Rattle.std.specs.Prelude.{◌≡◌, Decides};
ghost use Rattle.calculus.specs.Nets.{Pair as CPair};
ghost use Rattle.engine.specs.Calls.{Spends, OutHere};
ghost use Rattle.engine.specs.Inner.{Presented, IsReady, run_fault};

use crate::net::Net;
use crate::putting::put_each;
use crate::run::Run;
use crate::slip::Slip;
use books::book::Book;
use nets::fault::PairFault;
use pairs::rewrite::rewrite_pair;
use refusals::faults::RunFault;
use strategies::strategy::Strategy;

/// With so many interactions made, a run makes no more.
const MOST: u32 = 100_000_000;

impl<B: Book, S: Strategy> Run<B, S> {
    /// Spends the slip: rewrites its pair, adds 1 to the count, and puts each pair that became active. A refusal hands the slip back.
    pub fn rewrite(&mut self, slip: Slip) -> Result<(), (RunFault, Slip)>
        ensures { Spends B.Book.meaning S.Strategy self.old slip result self.new }
    {
        if !self.is_presented(&slip) {
            return Err((RunFault::Foreign, slip));
        }
        if self.count >= MOST {
            let fault = if self.is_ready(&slip) {
                RunFault::Spent
            } else {
                RunFault::Foreign
            };
            return Err((fault, slip));
        }
        match rewrite_pair(&self.net.book, &mut self.net.table, slip.left, slip.right) {
            Ok(formed) => {
                let (left, right) = slip.spend();
                self.marks.set(left, right, false);
                put_each(&mut self.strategy, &formed);
                self.count += 1;
                Ok(())
            }
            Err(fault) => Err((to_run_fault(fault), slip)),
        }
    }

    /// Whether the slip has the run's stamp and its places are marked.
    fn is_presented(&self, slip: &Slip) -> bool
        ensures { Decides result (Presented self.now slip.now) }
    {
        slip.stamp == self.stamp && self.marks.has(slip.left) && self.marks.has(slip.right)
    }

    /// Whether the slip's pair is out here.
    pub(crate) fn is_out(&self, slip: &Slip) -> bool
        ensures { Decides result ((P : CPair) × OutHere B.Book.meaning S.Strategy self.now slip.now P) }
    {
        self.is_presented(slip) && self.is_ready(slip)
    }

    /// Whether the slip's places hold an active pair of cells of the book.
    fn is_ready(&self, slip: &Slip) -> bool
        ensures { Decides result (IsReady B.Book.meaning self.now slip.now) }
    {
        let Net { book, table } = &self.net;
        table.check_pair(book, slip.left, slip.right) != Some(PairFault::NotReady)
    }
}

// no From: an impl stands in the crate of one of its types, and neither of these is of this crate
fn to_run_fault(fault: PairFault) -> RunFault
    ensures { result ≡ run_fault fault }
{
    match fault {
        PairFault::NotReady => RunFault::Foreign,
        PairFault::LoopsFull => RunFault::Spent,
        PairFault::NoPlace => RunFault::NoPlace,
    }
}
