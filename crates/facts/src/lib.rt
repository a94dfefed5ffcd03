// Facts about the definitions, each list the contract of a function that has nothing to do.
#![tactic(auto)]

ghost use Rattle.facts.specs.Facts.{Facts};
ghost use Rattle.facts.specs.Tidy.{TidyLaws};

// The examples hold.
pub fn facts_hold()
    ensures { Facts }
{}

// Decimals are written without needless zeros, and nothing else is so written.
pub fn tidy_holds()
    ensures { TidyLaws }
{}

#[cfg(test)]
mod tests;
