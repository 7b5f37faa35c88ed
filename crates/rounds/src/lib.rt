// SMAC's round of three registers: what it is stands in specs/, and this is what holds of it.
#![tactic(auto)]

ghost use Rattle.rounds.specs.Permutations.{SigmasAreUndone};
ghost use Rattle.rounds.specs.Reach.{WalkingBackARound, RoundsTellApart};

// A round can be walked back, each permutation can be undone, and rounds tell near lists of blocks apart.
pub fn rounds_stand()
    ensures back { WalkingBackARound }
    ensures undone { SigmasAreUndone }
    ensures apart { RoundsTellApart }
{}
