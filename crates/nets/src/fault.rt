// Why a pair is not rewritten, and a draft not filled.
ghost use Rattle.std.specs.Prelude.{◌≡◌};
ghost use Rattle.nets.specs.Seating.{to_rewrite_fault, to_pair_fault};

/// Why two cells are not rewritten.
#[derive(Clone, Copy, PartialEq, Eq, Debug)]
pub enum RewriteFault {
    /// The places do not hold two cells whose principal ports are linked.
    NotFacing,
    /// The rule is not one for these two cells.
    Unfit,
    /// There are over 1,073,741,821 loops.
    LoopsFull,
    /// The rule's new cells outnumber the vacant places plus two.
    NoPlace,
}

/// Why the pair in two places is not rewritten by the book.
#[derive(Clone, Copy, PartialEq, Eq, Debug)]
pub enum PairFault {
    /// The places do not hold an active pair, L first, of cells whose arities are the book's.
    NotReady,
    /// There are over 1,073,741,821 loops.
    LoopsFull,
    /// The rule's new cells outnumber the vacant places plus two.
    NoPlace,
}

/// Why a draft takes no cell, or names no link.
#[derive(Clone, Copy, PartialEq, Eq, Debug)]
pub enum DraftFault {
    /// 1,024 cells are there.
    Full,
    /// The arity is over 2.
    Arity,
    /// The spot is not there.
    NoSpot,
    /// The spot to be named can be in no table.
    NoTarget,
}

// A limit of the table that is against a rewrite, whatever the pair.
#[derive(Clone, Copy, PartialEq, Eq, Debug)]
pub(crate) enum Limit {
    // There are over 1,073,741,821 loops.
    Loops,
    // The new cells outnumber the vacant places plus two.
    Places,
}

impl From<Limit> for RewriteFault {
    ghost from_gives = { λ limit e. e ≡ to_rewrite_fault limit };

    fn from(limit: Limit) -> RewriteFault {
        match limit {
            Limit::Loops => RewriteFault::LoopsFull,
            Limit::Places => RewriteFault::NoPlace,
        }
    }
}

impl From<Limit> for PairFault {
    ghost from_gives = { λ limit e. e ≡ to_pair_fault limit };

    fn from(limit: Limit) -> PairFault {
        match limit {
            Limit::Loops => PairFault::LoopsFull,
            Limit::Places => PairFault::NoPlace,
        }
    }
}
