// What holds of the active pairs of every net.
ghost use Rattle.pairs.specs.Pairs.{FewPairs};

/// A net whose cells stand in places below 1,024 has at most 512 active pairs.
pub fn few_pairs()
    ensures { FewPairs }
{}
