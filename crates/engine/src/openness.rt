// What is left open.
ghost use Rattle.engine.specs.Openness.{OpenPlaces};

/// Where a new cell stands is open: one pair has two legal choices of places, with different results.
pub fn places_are_open()
    ensures { OpenPlaces }
{}
