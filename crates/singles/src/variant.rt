// What the modes of three registers differ in, besides the permutation.
ghost use Rattle.std.specs.Prelude.{ℕ, Bool, true, false};
ghost use Rattle.rounds.specs.Paced.{Pace, smac_1, smac_3/4, smac_1/2};
ghost use Rattle.mode.specs.Rules.{Lawful};
ghost use Rattle.smac.specs.Smac.{paced};
ghost use Rattle.smac.proofs.Singles.{whole, three_quarters, half};
ghost use Rattle.singles.specs.Suits.{Suits, whole_suits, three_quarters_suits, half_suits};

use sigma::{Half, Permutation, ThreeQuarters, Whole};

pub trait Variant: Permutation {
    ghost pace: { Pace };

    ghost reach: { ℕ };

    // how many places the cycle has
    const CYCLE: u8;

    ghost CYCLE: { ℕ };

    // whether a dummy round ends the cycle
    const PAUSES: bool;

    ghost PAUSES: { Bool };

    // bytes of the largest tag
    const LONGEST: usize;

    ghost LONGEST: { ℕ };

    ghost suits: { Suits pace CYCLE PAUSES LONGEST };

    ghost lawful: { Lawful (paced Self.sigma pace reach LONGEST) };
}

impl Variant for Whole {
    const CYCLE: u8 = 1;

    const PAUSES: bool = false;

    const LONGEST: usize = 16;

    ghost CYCLE = { 1 };

    ghost PAUSES = { false };

    ghost LONGEST = { 16 };

    ghost pace = { smac_1 };

    ghost reach = { 3 };

    ghost suits = { whole_suits };

    ghost lawful = { whole };
}

impl Variant for ThreeQuarters {
    const CYCLE: u8 = 3;

    const PAUSES: bool = true;

    const LONGEST: usize = 20;

    ghost CYCLE = { 3 };

    ghost PAUSES = { true };

    ghost LONGEST = { 20 };

    ghost pace = { smac_3/4 };

    ghost reach = { 2 };

    ghost suits = { three_quarters_suits };

    ghost lawful = { three_quarters };
}

impl Variant for Half {
    const CYCLE: u8 = 1;

    const PAUSES: bool = true;

    const LONGEST: usize = 32;

    ghost CYCLE = { 1 };

    ghost PAUSES = { true };

    ghost LONGEST = { 32 };

    ghost pace = { smac_1/2 };

    ghost reach = { 1 };

    ghost suits = { half_suits };

    ghost lawful = { half };
}
