// The four modes in one type, which is a mode too.
#![tactic(auto)]

pub mod kinds;
pub mod names;

ghost use Rattle.modes.specs.Any.{any_chosen, any_rule, any_state, KindChosen};
ghost use Rattle.modes.specs.Goods.{any_lawful, any_good, any_short};

use crate::kinds::{AnyMode, ModeKind};
use mode::Mode;
use refusals::Refusal;
use singles::state::{Smac1, Smac12, Smac34};
use streams::state::{Smac1xN, StreamCount};

impl ModeKind {
    // The mode of a code: 1, 2 and 3 with no streams, 4 with 1 to 16. The numbers come from the C interface.
    pub fn of(code: u8, streams: u8) -> Result<ModeKind, Refusal>
        ensures { KindChosen code streams result }
    {
        match (code, streams) {
            (1, 0) => Ok(ModeKind::Smac1),
            (2, 0) => Ok(ModeKind::Smac34),
            (3, 0) => Ok(ModeKind::Smac12),
            (4, _) => Ok(ModeKind::Smac1xN(StreamCount::try_from(streams)?)),
            _ => Err(Refusal::ModeOrStreams),
        }
    }
}

// A match in each method: an impl by a macro is refused, and a `dyn Mode` would be no `Copy`.
impl Mode for AnyMode {
    type Setup = ModeKind;

    ghost chosen = { λ k _. any_chosen k };

    ghost rule = { any_rule };

    ghost state = { any_state };

    ghost lawful = { any_lawful };

    ghost good = { any_good };

    ghost short = { any_short };

    fn load(setup: ModeKind, key: &[u8; 32], iv: &[u8; 16]) -> AnyMode {
        match setup {
            ModeKind::Smac1 => AnyMode::Smac1(Smac1::load((), key, iv)),
            ModeKind::Smac34 => AnyMode::Smac34(Smac34::load((), key, iv)),
            ModeKind::Smac12 => AnyMode::Smac12(Smac12::load((), key, iv)),
            ModeKind::Smac1xN(n) => AnyMode::Smac1xN(Smac1xN::load(n, key, iv)),
        }
    }

    fn absorb(&mut self, block: &[u8; 16]) {
        match self {
            AnyMode::Smac1(m) => m.absorb(block),
            AnyMode::Smac34(m) => m.absorb(block),
            AnyMode::Smac12(m) => m.absorb(block),
            AnyMode::Smac1xN(m) => m.absorb(block),
        }
    }

    // the mode is looked up once for all blocks
    fn absorb_all(&mut self, blocks: &[[u8; 16]]) {
        match self {
            AnyMode::Smac1(m) => m.absorb_all(blocks),
            AnyMode::Smac34(m) => m.absorb_all(blocks),
            AnyMode::Smac12(m) => m.absorb_all(blocks),
            AnyMode::Smac1xN(m) => m.absorb_all(blocks),
        }
    }

    fn walk_back(&mut self, block: &[u8; 16]) {
        match self {
            AnyMode::Smac1(m) => m.walk_back(block),
            AnyMode::Smac34(m) => m.walk_back(block),
            AnyMode::Smac12(m) => m.walk_back(block),
            AnyMode::Smac1xN(m) => m.walk_back(block),
        }
    }

    fn fill(&self) -> u8 {
        match self {
            AnyMode::Smac1(m) => m.fill(),
            AnyMode::Smac34(m) => m.fill(),
            AnyMode::Smac12(m) => m.fill(),
            AnyMode::Smac1xN(m) => m.fill(),
        }
    }

    fn largest(&self) -> usize {
        match self {
            AnyMode::Smac1(m) => m.largest(),
            AnyMode::Smac34(m) => m.largest(),
            AnyMode::Smac12(m) => m.largest(),
            AnyMode::Smac1xN(m) => m.largest(),
        }
    }

    fn finish(&self) -> [u8; 32] {
        match self {
            AnyMode::Smac1(m) => m.finish(),
            AnyMode::Smac34(m) => m.finish(),
            AnyMode::Smac12(m) => m.finish(),
            AnyMode::Smac1xN(m) => m.finish(),
        }
    }
}
