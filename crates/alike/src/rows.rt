// Row numbers in order.
ghost use Rattle.std.specs.Prelude.{◌≡◌, ◌<◌, ◌≤◌, [], ◌∷◌, ◌++◌, length, take, slice_get, slice_index};

use std::marker::Model;

// Up to 1,094 row numbers in order.
// No `ArrayVec`: that writes over each number that a truncation drops, and each try that fails drops all that it listed.
#[derive(Drop)]
pub(crate) struct Rows {
    numbers: [u16; 1094],
    count: usize,
}

impl Model for Rows {
    ghost use Rattle.std.specs.Prelude.{◌≡◌, ◌≤◌, length, take};
    ghost use Rattle.alike.specs.Listings.{Numbers};

    ghost Value = { Numbers };

    ghost view = { λ r. record { items = take r.count r.numbers } };

    ghost invariant = { λ r. (r.count ≤ 1094) × (length r.numbers ≡ 1094) };
}

impl Rows {
    // None yet.
    pub(crate) fn new() -> Rows
        ensures { result.items ≡ [] }
    {
        Rows {
            numbers: [0; 1094],
            count: 0,
        }
    }

    // How many there are.
    pub(crate) fn len(&self) -> usize
        ensures value { result ≡ length self.now.items }
        ensures fits { result ≤ 1094 }
    {
        self.count
    }

    // The one at k.
    pub(crate) fn at(&self, k: usize) -> u16
        requires { k < length self.now.items }
        ensures { result ≡ slice_index self.now.items k }
    {
        self.numbers[..self.count][k]
    }

    // The one at k, if there is one.
    pub(crate) fn get(&self, k: usize) -> Option<u16>
        ensures { result ≡ slice_get self.now.items k }
    {
        if k < self.count {
            Some(self.numbers[k])
        } else {
            None
        }
    }

    // Puts a number behind the others.
    pub(crate) fn push(&mut self, number: u16)
        requires { length self.old.items < 1094 }
        ensures { self.new.items ≡ self.old.items ++ number ∷ [] }
    {
        self.numbers[self.count] = number;
        self.count += 1;
    }

    // Keeps the first n.
    pub(crate) fn truncate(&mut self, n: usize)
        ensures { self.new.items ≡ take n self.old.items }
    {
        self.count = self.count.min(n);
    }
}
