// How runs begin. There is no other way to a run.
ghost use Rattle.std.specs.Prelude.{◌≡◌, [], ◌∷◌};
ghost use Rattle.mode.specs.Rules.{at_first, loaded};
ghost use Rattle.smac.specs.Smac.{smac1};
ghost use Rattle.singles.specs.States.{state1};
ghost use Rattle.keys.specs.Keys.{iv_of};
ghost use Rattle.run.specs.Calls.{begun, header_of};

use crate::state::{HeaderRun, Part};
use counts::state::Ceiling;
use keys::Numbered;
use keys::state::KeySlot;
use mode::Mode;
use singles::state::Smac1;

impl<M: Mode> HeaderRun<M> {
    // Under a serial that was drawn, which is spent, or one as received. Setup, key and serial stay apart, as in `message`.
    pub fn begin<S: Numbered>(
        setup: M::Setup,
        key: &KeySlot,
        ceiling: Ceiling,
        serial: S,
    ) -> HeaderRun<M>
        ensures { header_of M.rule M.state result ≡ begun (M.chosen setup key.now.bytes) (loaded (M.chosen setup key.now.bytes) key.now.bytes (iv_of (S.numbered serial).office (S.numbered serial).number)) ceiling.most.value }
    {
        let mode = M::load(setup, key.bytes(), &serial.serial().iv());
        HeaderRun {
            part: Part::<M>::over(mode, ceiling),
        }
    }
}

impl HeaderRun<Smac1> {
    // Starting registers from elsewhere, as a section has them.
    pub fn begin_with_registers(
        a1: &[u8; 16],
        a2: &[u8; 16],
        a3: &[u8; 16],
        ceiling: Ceiling,
    ) -> HeaderRun<Smac1>
        ensures { header_of (λ _. smac1) state1 result ≡ begun smac1 (at_first (a1.now ∷ a2.now ∷ a3.now ∷ [])) ceiling.most.value }
    {
        HeaderRun {
            part: Part::<Smac1>::over(Smac1::from_registers(a1, a2, a3), ceiling),
        }
    }
}
