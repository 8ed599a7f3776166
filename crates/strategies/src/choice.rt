ghost use Rattle.std.specs.Prelude.{◌≡◌, [], ◌∷◌, IfOk};
ghost use Rattle.strategies.specs.Bags.{Taken};
ghost use Rattle.strategies.specs.Choice.{Waited, OpenChoice};
ghost use Rattle.strategies.specs.Orders.{line_pairs};

use crate::line::{End, Line};
use crate::pair::Pair;
use crate::ring::Ring;
use crate::stack::Stack;
use crate::strategy::Strategy;
use refusals::faults::StrategyFault;
use std::alloc::{AllocError, Global};

/// Takes a pair of whatever strategy: it is one of those that waited.
#[tactic(auto, using(crate::proofs::Choosing::taken_waited))]
pub fn take_any<S: Strategy>(strategy: &mut S) -> Result<Pair, StrategyFault>
    ensures bags { Taken (S.Strategy.bag strategy.old) result (S.Strategy.bag strategy.new) }
    ensures waited { IfOk result (Waited (S.Strategy.bag strategy.old)) }
{
    strategy.take()
}

/// Puts the same two pairs into a stack and a ring and takes one of each: the two differ.
pub fn differ(heap: Global) -> Result<(Pair, Pair), AllocError>
    ensures { IfOk result (λ taken. OpenChoice taken.0 taken.1) }
{
    let early = Pair {
        left: 0,
        right: 1,
        cells: 0,
    };
    let late = Pair {
        left: 2,
        right: 3,
        cells: 4,
    };
    let mut stack: Stack = line_of_two(heap, early, late)?;
    let mut ring: Ring = line_of_two(heap, early, late)?;
    Ok((stack.take().unwrap(), ring.take().unwrap()))
}

// A line in which two pairs wait.
fn line_of_two<E: End>(heap: Global, early: Pair, late: Pair) -> Result<Line<E>, AllocError>
    ensures { IfOk result (λ s. line_pairs E.order s ≡ E.order (early ∷ late ∷ [])) }
{
    let mut line = Line::new(heap)?;
    line.put(early).unwrap();
    line.put(late).unwrap();
    Ok(line)
}
