// The theory of interaction nets whose closed loops are counted. It has no code but functions whose contracts are its theorems.
#![tactic(auto)]

ghost use Rattle.calculus.specs.Joining.{TieGood, TieAlike, TieRewriting, JoinGood, JoinAlike, JoinFirst, JoinSecond};
ghost use Rattle.calculus.specs.Splicing.{SplicesCommute};
ghost use Rattle.calculus.specs.Theorems.{Rewritable, StaysGood, OneCount, OneResult, AlikeEquivalence, ActiveAlike, RestAlike, RewritingAlike, PairsApart, OthersStay, EitherOrder, Confluent, RestFinal};
ghost use Rattle.calculus.specs.Worked.{AlwaysSo, BooksLawful, Growing, WorkedNets};

// Every active pair can be rewritten, with the new cells at any free places.
pub fn rewritable()
    ensures { Rewritable }
{}

// Rewriting keeps a net well formed.
pub fn stays_good()
    ensures { StaysGood }
{}

// The number of closed circuits is one number.
pub fn one_count()
    ensures { OneCount }
{}

// The places of the new cells given, a rewriting has one result.
pub fn one_result()
    ensures { OneResult }
{}

// Among well-formed nets Alike is an equivalence.
pub fn alike_equivalence()
    ensures { AlikeEquivalence }
{}

// Alike nets have the same active pairs, L and R exchanged where two cells of one kind change their order.
pub fn active_alike()
    ensures { ActiveAlike }
{}

// Alike nets are at rest together.
pub fn rest_alike()
    ensures { RestAlike }
{}

// The same pair rewritten in alike nets gives alike nets.
pub fn rewriting_alike()
    ensures { RewritingAlike }
{}

// Two different active pairs share no cell.
pub fn pairs_apart()
    ensures { PairsApart }
{}

// Rewriting one active pair leaves every other one active.
pub fn others_stay()
    ensures { OthersStay }
{}

// Two different active pairs, rewritten in either order, come to alike nets.
pub fn either_order()
    ensures { EitherOrder }
{}

// Whatever is rewritten first, alike nets come to alike nets, by the same rules in all but for their order.
pub fn confluent()
    ensures { Confluent }
{}

// What is at rest was reached by the longest way, and everything at rest is alike.
pub fn rest_final()
    ensures { RestFinal }
{}

// Splices at distinct spots commute, loop number included.
pub fn splices_commute()
    ensures { SplicesCommute }
{}

// Linking ends keeps a net well formed.
pub fn tie_good()
    ensures { TieGood }
{}

// Linking the same ends of alike nets gives alike nets.
pub fn tie_alike()
    ensures { TieAlike }
{}

// Linking ends and rewriting commute.
pub fn tie_rewriting()
    ensures { TieRewriting }
{}

// Joining keeps nets well formed.
pub fn join_good()
    ensures { JoinGood }
{}

// Joining alike nets gives alike nets.
pub fn join_alike()
    ensures { JoinAlike }
{}

// A pair of the first net may be rewritten before or after the joining.
pub fn join_first()
    ensures { JoinFirst }
{}

// A pair of the second net may be rewritten before or after the joining.
pub fn join_second()
    ensures { JoinSecond }
{}

// Both books keep the laws.
pub fn books_lawful()
    ensures { BooksLawful }
{}

// What the theorems ask for can be had: a well-formed net with an active pair whose rule has four new cells.
pub fn growing()
    ensures { Growing }
{}

// What the worked nets come to, and in how many interactions.
pub fn worked_nets()
    ensures { WorkedNets }
{}

// Whatever is rewritten first, a worked net at rest has made as many interactions and is the same net.
pub fn always_so()
    ensures { AlwaysSo }
{}
