// The theory of pairs that wait and pairs that are out. It has no code but a function whose contract is its theorem.
#![tactic(auto)]

ghost use Rattle.ledger.specs.Ledger.{AtMost512};

// At most 512 pairs wait or are out.
pub fn at_most_512()
    ensures { AtMost512 }
{}
