// Where stack and ring keep their pairs.
ghost use Rattle.std.specs.Prelude.{◌≡◌, ◌+◌, ◌%◌, ◌<◌, ◌≤◌, [], ◌∷◌, ◌++◌, length, vec_len, IfOk};

use crate::pair::Pair;
use crate::strategy::ROOM;
use std::alloc::{AllocError, Global};

/// Up to 512 pairs in the order of their arrival: `count` slots from `first` on, and after the last slot the first again.
// `VecDeque` and `circular_buffer` take up to twice as long a call, and clear by a loop.
#[derive(Drop)]
pub struct Arrivals {
    pairs: Vec<Pair>,
    first: u16,
    count: u16,
    ghost slots: { vec_len pairs ≡ 512 },
    ghost round: { first < 512 },
    ghost room: { count ≤ 512 },
}

impl Arrivals {
    ghost use Rattle.strategies.specs.Orders.{earliest_first, latest_first};

    /// None yet, with the room made.
    pub fn new(heap: Global) -> Result<Arrivals, AllocError>
        ensures { IfOk result (λ a. earliest_first a ≡ []) }
    {
        Ok(Arrivals {
            pairs: vec![in heap; Pair::default(); usize::from(ROOM)]?,
            first: 0,
            count: 0,
        })
    }

    /// How many pairs there are.
    pub fn count(&self) -> u16
        ensures room { result ≤ 512 }
        ensures value { result ≡ length (earliest_first self.now) }
    {
        self.count
    }

    /// Removes all.
    pub fn clear(&mut self)
        ensures { earliest_first self.new ≡ [] }
    {
        self.count = 0;
    }

    /// Adds the latest.
    pub fn push(&mut self, pair: Pair)
        requires { length (earliest_first self.old) < 512 }
        ensures { earliest_first self.new ≡ earliest_first self.old ++ pair ∷ [] }
    {
        let slot = self.slot(self.count);
        self.pairs[slot] = pair;
        self.count += 1;
    }

    /// Removes the latest.
    pub fn pop_latest(&mut self) -> Pair
        requires { 0 < length (earliest_first self.old) }
        ensures { latest_first self.old ≡ result ∷ latest_first self.new }
    {
        self.count -= 1;
        self.pairs[self.slot(self.count)]
    }

    /// Removes the earliest.
    pub fn pop_earliest(&mut self) -> Pair
        requires { 0 < length (earliest_first self.old) }
        ensures { earliest_first self.old ≡ result ∷ earliest_first self.new }
    {
        let pair = self.pairs[self.slot(0)];
        self.first = (self.first + 1) % ROOM;
        self.count -= 1;
        pair
    }

    /// The slot of the pair that comes k-th after the earliest.
    fn slot(&self, k: u16) -> usize
        requires { k < 512 }
        ensures { result ≡ (self.now.first + k) % 512 }
    {
        usize::from((self.first + k) % ROOM)
    }
}
