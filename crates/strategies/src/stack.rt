ghost use Rattle.std.specs.Prelude.{[], ◌∷◌, reverse};
ghost use Rattle.std.proofs.lemmas.List.{reverse-append};
ghost use Rattle.std.proofs.lemmas.List.Sorted.{IsPermutation-reverse};

use crate::arrivals::Arrivals;
use crate::line::{End, Line};
use crate::pair::Pair;

/// The end of the latest pair.
#[derive(Clone, Copy)]
pub struct Latest;

impl End for Latest {
    ghost order = { reverse };

    ghost arrived = { λ ps p. p ∷ ps };

    ghost same = { IsPermutation-reverse };

    ghost one_more = { λ ps p. reverse-append ps (p ∷ []) };

    fn pop(waiting: &mut Arrivals) -> Option<Pair> {
        if waiting.count() == 0 {
            return None;
        }
        Some(waiting.pop_latest())
    }
}

/// The strategy that takes the latest pair.
pub type Stack = Line<Latest>;
