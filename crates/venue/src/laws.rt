// The laws of the three venues, as the contract of a function that has nothing to do.
ghost use Rattle.venue.specs.Tails.{VenueLaws};

// Each venue reads its tails, those alone, as the terms that they are of, and writes them.
pub fn venues_hold()
    ensures { VenueLaws }
{}
