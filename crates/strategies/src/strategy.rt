ghost use Rattle.std.specs.Prelude.{◌≡◌, List, Result};
ghost use Rattle.refusals.specs.declared.faults.StrategyFault.{StrategyFault};
ghost use Rattle.strategies.specs.declared.pair.Pair.{Pair};
ghost use Rattle.strategies.specs.Bags.{Cleared, Put, Taken, counted};

use crate::pair::Pair;
use refusals::faults::StrategyFault;

/// With so many pairs waiting, no more are let in.
pub const ROOM: u16 = 512;

/// Where pairs wait, and which of them comes next.
pub trait Strategy {
    /// The pairs that wait, compared up to order.
    ghost bag: { Self → List Pair };

    /// What else clear does, of the state before and after.
    ghost clearing: { Self → Self → Type 0 } = { λ _ _. Unit {0} };

    /// What else put does, of the state before, the pair, the answer and the state after.
    ghost putting: { Self → Pair → Result (Unit {0}) StrategyFault → Self → Type 0 } = { λ _ _ _ _. Unit {0} };

    /// What else take does, of the state before, the answer and the state after.
    ghost taking: { Self → Result Pair StrategyFault → Self → Type 0 } = { λ _ _ _. Unit {0} };

    /// Lets every pair go.
    fn clear(&mut self)
        ensures bags { Cleared (bag self.new) }
        ensures own { clearing self.old self.new };

    /// Lets a pair wait; `Full` if 512 or more do.
    fn put(&mut self, pair: Pair) -> Result<(), StrategyFault>
        ensures bags { Put (bag self.old) pair result (bag self.new) }
        ensures own { putting self.old pair result self.new };

    /// Answers some waiting pair, which then waits no more; `Empty` if none does.
    fn take(&mut self) -> Result<Pair, StrategyFault>
        ensures bags { Taken (bag self.old) result (bag self.new) }
        ensures own { taking self.old result self.new };

    /// How many pairs wait; 512 if more do.
    fn count(&self) -> u16
        ensures { result ≡ counted (bag self.now) };
}
