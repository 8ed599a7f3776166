ghost use Rattle.strategies.specs.Orders.{StackCleared, StackPut, StackTaken, RingCleared, RingPut, RingTaken};

use crate::pair::Pair;
use crate::ring::Ring;
use crate::split::Split;
use crate::stack::Stack;
use crate::strategy::Strategy;
use refusals::faults::StrategyFault;
use std::test::Fail;

const EARLY: Pair = Pair {
    left: 0,
    right: 1,
    cells: 0,
};

const LATE: Pair = Pair {
    left: 2,
    right: 3,
    cells: 4,
};

// The calls of a stack and of a ring are those of their orders.
fn clear_stack(stack: &mut Stack)
    ensures { StackCleared stack.old stack.new }
{
    stack.clear();
}

fn put_on(stack: &mut Stack, pair: Pair) -> Result<(), StrategyFault>
    ensures { StackPut stack.old pair result stack.new }
{
    stack.put(pair)
}

fn take_off(stack: &mut Stack) -> Result<Pair, StrategyFault>
    ensures { StackTaken stack.old result stack.new }
{
    stack.take()
}

fn clear_ring(ring: &mut Ring)
    ensures { RingCleared ring.old ring.new }
{
    ring.clear();
}

fn put_into(ring: &mut Ring, pair: Pair) -> Result<(), StrategyFault>
    ensures { RingPut ring.old pair result ring.new }
{
    ring.put(pair)
}

fn take_from(ring: &mut Ring) -> Result<Pair, StrategyFault>
    ensures { RingTaken ring.old result ring.new }
{
    ring.take()
}

#[test]
fn a_stack_takes_the_latest(rt: HostRuntime) -> Result<(), Fail> {
    let mut stack = Stack::new(rt.alloc())?;
    assert!(rt; put_on(&mut stack, EARLY).is_ok());
    assert!(rt; put_on(&mut stack, LATE).is_ok());
    assert_eq!(rt; take_off(&mut stack).ok(), Some(LATE));
    assert_eq!(rt; take_off(&mut stack).ok(), Some(EARLY));
    assert!(rt; take_off(&mut stack).is_err());
    assert!(rt; put_on(&mut stack, LATE).is_ok());
    clear_stack(&mut stack);
    assert_eq!(rt; stack.count(), 0);
    Ok(())
}

#[test]
fn a_ring_takes_the_earliest(rt: HostRuntime) -> Result<(), Fail> {
    let mut ring = Ring::new(rt.alloc())?;
    assert!(rt; put_into(&mut ring, EARLY).is_ok());
    assert!(rt; put_into(&mut ring, LATE).is_ok());
    assert_eq!(rt; take_from(&mut ring).ok(), Some(EARLY));
    assert_eq!(rt; take_from(&mut ring).ok(), Some(LATE));
    assert!(rt; take_from(&mut ring).is_err());
    assert!(rt; put_into(&mut ring, LATE).is_ok());
    clear_ring(&mut ring);
    assert_eq!(rt; ring.count(), 0);
    Ok(())
}

#[test]
fn a_split_takes_from_its_first_part_first(rt: HostRuntime) -> Result<(), Fail> {
    let mut split = Split {
        first: Stack::new(rt.alloc())?,
        second: Ring::new(rt.alloc())?,
    };
    assert!(rt; split.put(LATE).is_ok());
    assert!(rt; split.put(EARLY).is_ok());
    assert_eq!(rt; split.count(), 2);
    assert_eq!(rt; split.take().ok(), Some(EARLY));
    assert_eq!(rt; split.take().ok(), Some(LATE));
    assert!(rt; split.take().is_err());
    Ok(())
}
