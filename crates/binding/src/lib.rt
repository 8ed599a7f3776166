// The theory of names: the term without names that a linear term with names stands for. It has no code but functions whose contracts are its theorems.
#![tactic(auto)]

ghost use Rattle.binding.specs.Theorems.{LinearTerms, OwnItems, TextPlaces};

// A linear term with names, under a list of its items, stands for a linear term without names.
pub fn linear_terms()
    ensures { LinearTerms }
{}

// The items of a linear term, in text order, are such a list.
pub fn own_items()
    ensures { OwnItems }
{}

// Its cells are in the places 0, 1, 2 and on, in text order.
pub fn text_places()
    ensures { TextPlaces }
{}
