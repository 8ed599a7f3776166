// What stack and ring share: pairs in the order of their arrival, taken at one end.
ghost use Rattle.std.specs.Prelude.{◌≡◌, [], ◌∷◌, ◌++◌, List, IfOk, MatchOption};
ghost use Rattle.strategies.specs.declared.pair.Pair.{Pair};
ghost use Rattle.strategies.specs.Bags.{SameBag};
ghost use Rattle.strategies.specs.Orders.{earliest_first, line_pairs, LineCleared, LinePut, LineTaken};

use crate::arrivals::Arrivals;
use crate::pair::Pair;
use crate::strategy::{ROOM, Strategy};
use refusals::faults::StrategyFault;
use std::alloc::{AllocError, Global};
use std::marker::PhantomData;

/// The end of a line at which its pairs are taken: that of the latest or that of the earliest.
pub trait End {
    /// Pairs in the order in which they are taken, of the pairs in the order of their arrival.
    ghost order: { List Pair → List Pair };

    /// What a pair that arrives makes of the pairs in that order.
    ghost arrived: { List Pair → Pair → List Pair };

    /// Takes the pair at this end; none exactly where none waits, and then nothing changes.
    fn pop(waiting: &mut Arrivals) -> Option<Pair>
        ensures { MatchOption result ((earliest_first waiting.old ≡ []) × (waiting.new ≡ waiting.old)) (λ pair. order (earliest_first waiting.old) ≡ pair ∷ order (earliest_first waiting.new)) };

    /// The order drops no pair and adds none.
    ghost same: { (ps : List Pair) → SameBag ps (order ps) };

    /// The latest pair takes its place in the order.
    ghost one_more: { (ps : List Pair) (p : Pair) → order (ps ++ p ∷ []) ≡ arrived (order ps) p };
}

/// The strategy that takes the pair at one end: a stack or a ring.
#[derive(Drop)]
pub struct Line<E> {
    waiting: Arrivals,
    end: PhantomData<E>,
}

impl<E: End> Line<E> {
    /// A line in which none waits; nothing is allocated after this.
    #[tactic(auto, using(crate::proofs::Ends::none_of_none))]
    pub fn new(heap: Global) -> Result<Line<E>, AllocError>
        ensures { IfOk result (λ s. line_pairs E.order s ≡ []) }
    {
        Ok(Line {
            waiting: Arrivals::new(heap)?,
            end: PhantomData,
        })
    }
}

#[tactic(auto, using(crate::proofs::Ends::none_of_none, std::proofs::lemmas::List::Sorted::length_permutation))]
impl<E: End> Strategy for Line<E> {
    ghost bag = { line_pairs E.order };

    ghost clearing = { LineCleared E.order };

    ghost putting = { LinePut E.order E.arrived };

    ghost taking = { LineTaken E.order };

    fn clear(&mut self) {
        self.waiting.clear();
    }

    fn put(&mut self, pair: Pair) -> Result<(), StrategyFault> {
        if self.waiting.count() >= ROOM {
            return Err(StrategyFault::Full);
        }
        self.waiting.push(pair);
        Ok(())
    }

    fn take(&mut self) -> Result<Pair, StrategyFault> {
        E::pop(&mut self.waiting).ok_or(StrategyFault::Empty)
    }

    fn count(&self) -> u16 {
        self.waiting.count()
    }
}
