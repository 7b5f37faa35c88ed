// What holds of every section that was sealed, and of every two.
#![tactic(auto)]

ghost use Rattle.std.specs.Prelude.{ℕ, List};
ghost use Rattle.mode.specs.Rules.{Key};
ghost use Rattle.keystream.specs.Keystream.{OfBlocks, keystream};
ghost use Rattle.section_laws.specs.Laws.{OpensAgain, LawOfSections};

// Opening what was sealed, with the same header and keystream, gives the body back; so with the same key, office and serial.
pub fn sections_open_again()
    ensures keystreams { (z : ℕ → List ℕ) → OfBlocks z → OpensAgain z }
    ensures keys { (key : List ℕ) → Key key → (office serial : ℕ) → OpensAgain (keystream key office serial) }
{}

// The law of sections, with SMAC-1's reach of three blocks.
pub fn law_of_sections()
    ensures keystreams { (z : ℕ → List ℕ) → OfBlocks z → LawOfSections 3 z }
    ensures keys { (key : List ℕ) → Key key → (office serial : ℕ) → LawOfSections 3 (keystream key office serial) }
{}
