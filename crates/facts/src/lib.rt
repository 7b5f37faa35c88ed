// Facts of the definitions, computed by the checker.
#![tactic(auto)]

ghost use Rattle.facts.specs.Known.{KnownFacts};

// Published tags, and numbers that a wrong definition would miss.
pub fn known_facts()
    ensures { KnownFacts }
{}
