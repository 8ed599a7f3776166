ghost use Rattle.strategies.specs.Splits.{split_bag, SplitCleared, SplitPut, SplitTaken};

use crate::pair::Pair;
use crate::strategy::{ROOM, Strategy};
use refusals::faults::StrategyFault;

/// Pairs with fewer new cells than this wait in the first part.
const FEW: u8 = 2;

/// Two strategies side by side: pairs with fewer than two new cells wait in the first and come before the rest, which wait in the second.
#[derive(Drop)]
pub struct Split<S, T> {
    pub first: S,
    pub second: T,
}

impl<S: Strategy, T: Strategy> Strategy for Split<S, T> {
    ghost bag = { split_bag S.Strategy T.Strategy };

    ghost clearing = { SplitCleared S.Strategy T.Strategy };

    ghost putting = { SplitPut S.Strategy T.Strategy };

    ghost taking = { SplitTaken S.Strategy T.Strategy };

    fn clear(&mut self) {
        self.first.clear();
        self.second.clear();
    }

    #[tactic(auto, using(crate::proofs::Parts::put_first, crate::proofs::Parts::put_second))]
    fn put(&mut self, pair: Pair) -> Result<(), StrategyFault> {
        if self.count() >= ROOM {
            return Err(StrategyFault::Full);
        }
        if pair.cells < FEW {
            self.first.put(pair)
        } else {
            self.second.put(pair)
        }
    }

    #[tactic(auto, using(crate::proofs::Parts::take_first, crate::proofs::Parts::take_second))]
    fn take(&mut self) -> Result<Pair, StrategyFault> {
        if self.first.count() > 0 {
            self.first.take()
        } else {
            self.second.take()
        }
    }

    fn count(&self) -> u16 {
        (self.first.count() + self.second.count()).min(ROOM)
    }
}
