// The theory of linear terms and their nets. It has no code but functions whose contracts are its theorems.
#![tactic(auto)]

ghost use Rattle.lambda.specs.Theorems.{TermNetsGood, PairsAreRedexes, RewritingContracts, NetsStayTerms, ReductionsEnd, NetsReduceTerms, OneTerm, TextOrder, EveryReadingBack, TextbookBeta};
ghost use Rattle.lambda.specs.Worked.{WorkedExamples};

// The net of a linear term is well formed, with an end for the root and one for each item.
pub fn term_nets_good()
    ensures { TermNetsGood }
{}

// Each active pair of a term's net is a redex, and the other way round.
pub fn pairs_are_redexes()
    ensures { PairsAreRedexes }
{}

// Rewriting the pair of a redex gives exactly the reduct's net, with no loop.
pub fn rewriting_contracts()
    ensures { RewritingContracts }
{}

// Whatever is reached from the net of a linear term is the net of a term that is reached in as many steps.
pub fn nets_stay_terms()
    ensures { NetsStayTerms }
{}

// Every reduction of a linear term ends, all in the same number of steps, at the same normal form up to bound names.
pub fn reductions_end()
    ensures { ReductionsEnd }
{}

// The net of a linear term, reduced to rest in any order and read back, is its normal form, in as many interactions as beta steps.
pub fn nets_reduce_terms()
    ensures { NetsReduceTerms }
{}

// Two linear terms are equal up to bound names exactly when their nets are alike.
pub fn one_term()
    ensures { OneTerm }
{}

// Every linear term can have its cells in text order.
pub fn text_order()
    ensures { TextOrder }
{}

// A net is that of a linear term exactly when one is read from it; whether one is read is decided.
pub fn reading_back()
    ensures { EveryReadingBack }
{}

// A beta step of a linear term is a beta step of the term with indices.
pub fn textbook_beta()
    ensures { TextbookBeta }
{}

// What the worked nets and the worked terms come to, and in how many interactions.
pub fn worked_examples()
    ensures { WorkedExamples }
{}
