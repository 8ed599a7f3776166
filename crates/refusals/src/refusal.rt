ghost use Rattle.std.specs.Prelude.{◌≡◌, Some};
ghost use Rattle.refusals.specs.Faults.{refused};
ghost use Rattle.refusals.specs.Shown.{shown_as};

use crate::layer::Layer;
use std::fmt;

/// A refusal: its number, the layer that refuses, and the place in the input (0 if none is named).
#[derive(Clone, Copy, Debug, PartialEq, Eq)]
pub struct Refusal {
    pub number: u8,
    pub layer: Layer,
    pub place: u32,
}

impl Refusal {
    /// The refusal of a layer under a number, at a place.
    pub fn new(number: u8, layer: Layer, place: u32) -> Refusal
        ensures { result ≡ refused number layer place }
    {
        Refusal {
            number,
            layer,
            place,
        }
    }
}

impl fmt::Display for Refusal {
    ghost output = { λ r. Some (shown_as r.number r.layer r.place) };

    fn fmt<W: fmt::Write>(&self, f: &mut fmt::Formatter<W>) -> fmt::Result {
        write!(f, "refused {} {} {}", self.number, self.layer, self.place)
    }
}
