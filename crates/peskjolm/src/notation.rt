// How kinds and spots are written.
use books::book::Book;
use books::combinators::{Combinators, DELTA, EPSILON, GAMMA};
use books::counts::{ADDITION, Counts, SUCCESSOR, ZERO};
use nets::spot::Spot;
use std::fmt;

/// A book whose kinds have names.
pub(crate) trait Notation: Book {
    /// The name of a kind.
    fn name(&self, kind: u8) -> &'static str;
}

impl Notation for Combinators {
    fn name(&self, kind: u8) -> &'static str {
        match kind {
            GAMMA => "gamma",
            DELTA => "delta",
            EPSILON => "epsilon",
            _ => "unknown",
        }
    }
}

impl Notation for Counts {
    fn name(&self, kind: u8) -> &'static str {
        match kind {
            ZERO => "Z",
            SUCCESSOR => "S",
            ADDITION => "A",
            _ => "unknown",
        }
    }
}

/// A spot as it is printed.
// a type of its own: `Spot` and `Display` are both of other crates
#[derive(Clone, Copy)]
pub(crate) struct Shown(pub(crate) Spot);

impl fmt::Display for Shown {
    fn fmt<W: fmt::Write>(&self, f: &mut fmt::Formatter<W>) -> fmt::Result {
        match self.0 {
            Spot::End(end) => write!(f, "end {end}"),
            Spot::Port(place, port) => write!(f, "cell {place} port {port}"),
        }
    }
}
