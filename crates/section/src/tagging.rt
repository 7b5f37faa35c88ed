// The tag of a section: header and ciphertext are the two parts of a run of SMAC-1 from the keystream's first three words.
ghost use Rattle.std.specs.Prelude.{◌≡◌, ◌≤◌, length};
ghost use Rattle.smac.specs.Smac.{smac1};
ghost use Rattle.singles.specs.States.{state1};
ghost use Rattle.tags.specs.Tags.{tag_bytes};
ghost use Rattle.run.specs.Calls.{closed_of};
ghost use Rattle.section.specs.Sections.{closing_state};
ghost use Rattle.section.specs.Calls.{Verified};

use counts::state::Ceiling;
use keystream::Keystream;
use refusals::Refusal;
use run::state::{ClosedRun, HeaderRun};
use singles::state::Smac1;
use tags::state::{Allowance, Verdict};

// The run over both parts, closed.
pub(crate) fn closing<K: Keystream>(keys: &K, header: &[u8], ciphertext: &[u8]) -> ClosedRun<Smac1>
    requires { (length header.now ≤ 1048576) × (length ciphertext.now ≤ 1048576) }
    ensures { closed_of (λ _. smac1) state1 result ≡ record { rule = smac1; state = closing_state (K.words keys.now) header.now ciphertext.now } }
{
    let mut run = HeaderRun::<Smac1>::begin_with_registers(
        &keys.word(0),
        &keys.word(1),
        &keys.word(2),
        Ceiling::highest(),
    );
    let Ok(()) = run.header_piece(header) else {
        unreachable()
    };
    let mut run = run.turn();
    let Ok(()) = run.body_piece(ciphertext) else {
        unreachable()
    };
    run.close()
}

// Its tag, to be written.
pub(crate) fn section_tag(run: &ClosedRun<Smac1>) -> [u8; 16]
    ensures { result ≡ tag_bytes (closed_of (λ _. smac1) state1 run.now) 16 }
{
    let mut tag = [0; 16];
    let Ok(()) = run.tag(&mut tag) else {
        unreachable()
    };
    tag
}

// Whether a received tag is the one that belongs to it: the one comparison that a section is allowed.
pub(crate) fn verify(run: &ClosedRun<Smac1>, received: &[u8]) -> Result<(), Refusal>
    requires { length received.now ≡ 16 }
    ensures { Verified (received.now ≡ tag_bytes (closed_of (λ _. smac1) state1 run.now) 16) result }
{
    let Ok(verdict) = run.compare(received, &mut Allowance::new(1)) else {
        unreachable()
    };
    match verdict {
        Verdict::Same => Ok(()),
        Verdict::Differs => Err(Refusal::TagMismatch),
    }
}
