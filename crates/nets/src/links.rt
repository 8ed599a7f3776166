// The links of a table, and of a table in the making.
ghost use Rattle.std.specs.Prelude.{◌≡◌, ℕ, ◌<◌, length, slice_set};
ghost use Rattle.nets.specs.Layout.{slots, slot_of, code, decode, goal};
ghost use Rattle.nets.specs.Views.{at};

use crate::link::{Link, SLOTS};
use crate::spot::Spot;
use std::alloc::{AllocError, Global};

// What each slot is linked with: a slot of the table.
// That a link lies in the table is said of the list and of each call: as a fact of `Link` it would narrow a public type, and what a table's content ranges over.
#[derive(Drop)]
pub(crate) struct Links {
    pub(crate) targets: Vec<Link>,
    ghost long: { length targets.items ≡ slots },
    ghost inside: { (k : ℕ) → k < slots → goal targets.items k < slots },
}

impl Links {
    // Links that all name slot 0.
    pub(crate) fn new(heap: Global) -> Result<Links, AllocError> {
        Ok(Links {
            targets: vec![in heap; Link { row: 0, port: 0 }; SLOTS]?,
        })
    }

    // What a spot is linked with.
    pub(crate) fn mate(&self, spot: Spot) -> Spot
        requires { code (at spot) < slots }
        ensures { at result ≡ decode (goal self.now.targets.items (code (at spot))) }
    {
        self.targets[spot.link().slot()].spot()
    }

    // Lets a slot name another.
    pub(crate) fn name(&mut self, from: Link, to: Link)
        requires first { slot_of from < slots }
        requires second { slot_of to < slots }
        ensures { self.new.targets.items ≡ slice_set self.old.targets.items (slot_of from) to }
    {
        self.targets[from.slot()] = to;
    }

    // Links two slots with each other.
    pub(crate) fn join(&mut self, a: Link, b: Link)
        requires first { slot_of a < slots }
        requires second { slot_of b < slots }
        ensures { self.new.targets.items ≡ slice_set (slice_set self.old.targets.items (slot_of a) b) (slot_of b) a }
    {
        self.name(a, b);
        self.name(b, a);
    }
}
