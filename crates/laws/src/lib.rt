// What holds of every list of calls.
#![tactic(auto)]

ghost use Rattle.mode.specs.Rules.{Lawful};
ghost use Rattle.smac.specs.Laws.{Smac};
ghost use Rattle.laws.specs.Comparisons.{LawOfComparisons};
ghost use Rattle.laws.specs.Draws.{LawOfDraws};
ghost use Rattle.laws.specs.Runs.{LawOfRuns};

// The law of runs, of every lawful mode, and of the four modes by name.
pub fn law_of_runs()
    ensures lawful { LawOfRuns Lawful }
    ensures smac { LawOfRuns Smac }
{}

// Comparisons made plus allowance left equals the first allowance.
pub fn law_of_comparisons()
    ensures { LawOfComparisons }
{}

// Serials drawn from one book rise, so none is drawn twice.
pub fn law_of_draws()
    ensures { LawOfDraws }
{}
