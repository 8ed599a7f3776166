ghost use Rattle.std.specs.Prelude.{[], ◌∷◌, ◌++◌, refl};
ghost use Rattle.std.proofs.lemmas.List.Sorted.{IsPermutation-refl};

use crate::arrivals::Arrivals;
use crate::line::{End, Line};
use crate::pair::Pair;

/// The end of the earliest pair.
#[derive(Clone, Copy)]
pub struct Earliest;

impl End for Earliest {
    ghost order = { λ ps. ps };

    ghost arrived = { λ ps p. ps ++ p ∷ [] };

    ghost same = { IsPermutation-refl };

    ghost one_more = { λ _ _. refl };

    fn pop(waiting: &mut Arrivals) -> Option<Pair> {
        if waiting.count() == 0 {
            return None;
        }
        Some(waiting.pop_earliest())
    }
}

/// The strategy that takes the earliest pair.
pub type Ring = Line<Earliest>;
