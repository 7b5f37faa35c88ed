// The permutations of a block's bytes that the modes use, on words.
#![tactic(auto)]

mod tables;

ghost use Rattle.std.specs.Prelude.{◌≡◌};
ghost use Rattle.aes.specs.Blocks.{Order, moved as moved_by};
ghost use Rattle.rounds.specs.Round.{Sigma, Undone};
ghost use Rattle.rounds.specs.Permutations.{sigma1, sigma34, sigma12};
ghost use Rattle.words.specs.Words.{bytes};
ghost use Rattle.rounds.proofs.Permutations.{sigma1_undone, sigma34_undone, sigma12_undone};

use tables::{PI_1, PI_12, PI_12_BACK, PI_34, PI_34_BACK};
use words::Words;

pub trait Permutation {
    ghost sigma: { Sigma };

    // the order that sigma puts bytes in, and the one that undoes it
    fn there() -> [u8; 16]
        ensures { result ≡ sigma.there };

    fn back() -> [u8; 16]
        ensures { result ≡ sigma.back };

    // sigma
    fn moved(x: Words) -> Words
        ensures { bytes result ≡ moved_by sigma.there (bytes x) }
    {
        ordered(&Self::there(), x)
    }

    // what undoes sigma
    fn moved_back(x: Words) -> Words
        ensures { bytes result ≡ moved_by sigma.back (bytes x) }
    {
        ordered(&Self::back(), x)
    }

    ghost undone: { Undone sigma };
}

// Byte `order[i]` at each place i. Written out, since places that are constants then cost nothing before `f`; with `map` a loop of rounds took 2.0 s in place of 0.35 s.
#[tactic(auto, using(crate::proofs::Orders::place_below))]
fn ordered(order: &[u8; 16], x: Words) -> Words
    requires { Order order.now }
    ensures { bytes result ≡ moved_by order.now (bytes x) }
{
    let b = x.to_bytes();
    Words::from(&[
        b[order[0] as usize],
        b[order[1] as usize],
        b[order[2] as usize],
        b[order[3] as usize],
        b[order[4] as usize],
        b[order[5] as usize],
        b[order[6] as usize],
        b[order[7] as usize],
        b[order[8] as usize],
        b[order[9] as usize],
        b[order[10] as usize],
        b[order[11] as usize],
        b[order[12] as usize],
        b[order[13] as usize],
        b[order[14] as usize],
        b[order[15] as usize],
    ])
}

// SMAC-1's and SMAC-1×n's.
pub struct Whole;

impl Permutation for Whole {
    ghost sigma = { sigma1 };

    ghost undone = { sigma1_undone };

    fn there() -> [u8; 16] {
        PI_1
    }

    fn back() -> [u8; 16] {
        PI_1
    }
}

// SMAC-3/4's.
pub struct ThreeQuarters;

impl Permutation for ThreeQuarters {
    ghost sigma = { sigma34 };

    ghost undone = { sigma34_undone };

    fn there() -> [u8; 16] {
        PI_34
    }

    fn back() -> [u8; 16] {
        PI_34_BACK
    }
}

// SMAC-1/2's.
pub struct Half;

impl Permutation for Half {
    ghost sigma = { sigma12 };

    ghost undone = { sigma12_undone };

    fn there() -> [u8; 16] {
        PI_12
    }

    fn back() -> [u8; 16] {
        PI_12_BACK
    }
}
