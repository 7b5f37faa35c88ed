// SMAC-1×n.
#![tactic(auto)]

pub mod count;
pub mod state;

ghost use Rattle.std.specs.Prelude.{◌≡◌, map};
ghost use Rattle.registers.specs.Registers.{regs};
ghost use Rattle.rounds.specs.Permutations.{sigma1};
ghost use Rattle.smac.specs.Smac.{smac1x, joined as joined_of};
ghost use Rattle.streams.specs.States.{state1x};
ghost use Rattle.streams.specs.Goods.{lawful1x, good1x, short1x};

use crate::state::{Smac1xN, StreamCount};
use mode::Mode;
use registers::RegisterWords;
use sigma::Whole;
use std::array;
use words::Words;

// The exclusive or of all streams, each after six dummy rounds.
fn joined(streams: &[RegisterWords<Whole>]) -> RegisterWords<Whole>
    ensures { regs sigma1 result ≡ joined_of (map (regs sigma1) streams.now) }
{
    streams
        .iter()
        .fold(RegisterWords::zero(), |sum, s| sum ^ s.dummy_rounds(6))
}

impl Mode for Smac1xN {
    type Setup = StreamCount;

    ghost chosen = { λ c _. smac1x c.n };

    ghost rule = { λ m. smac1x m.count.n };

    ghost state = { state1x };

    ghost lawful = { lawful1x };

    ghost good = { good1x };

    ghost short = { short1x };

    fn load(setup: StreamCount, key: &[u8; 32], iv: &[u8; 16]) -> Smac1xN {
        let streams = array::from_fn(|k| {
            if k < usize::from(setup.n) {
                setup.start(k as u8, key, iv)
            } else {
                RegisterWords::zero()
            }
        });
        Smac1xN {
            streams,
            count: setup,
            place: 0,
        }
    }

    fn absorb(&mut self, block: &[u8; 16]) {
        let p = self.place;
        self.streams[p as usize] = self.streams[p as usize].step(Words::from(block));
        self.place = self.count.next_place(p);
    }

    fn walk_back(&mut self, block: &[u8; 16]) {
        let p = self.count.prev_place(self.place);
        self.streams[p as usize] = self.streams[p as usize].unstep(Words::from(block));
        self.place = p;
    }

    fn fill(&self) -> u8 {
        if self.place == 0 {
            0
        } else {
            self.count.n - self.place
        }
    }

    fn largest(&self) -> usize {
        16
    }

    fn finish(&self) -> [u8; 32] {
        let sum = joined(&self.streams[..self.count.n as usize]);
        let r = sum.dummy_rounds(8);
        (r.a2 ^ sum.a2).pair_with(Words(0, 0, 0, 0))
    }
}
