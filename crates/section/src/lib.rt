// Sealed sections.
#![tactic(auto)]

mod guard;
mod masking;
pub mod opening;
pub mod sealing;
mod tagging;

ghost use Rattle.keystream.specs.Keystream.{keystream};
ghost use Rattle.section.specs.Calls.{Sealed, Opened};

use crate::opening::open_under;
use crate::sealing::seal_under;
use keys::Numbered;
use keys::state::{DrawnSerial, KeySlot, Serial};
use keystream::state::CounterMode;
use refusals::Refusal;

// The most bytes of a header, and of a body.
pub const LARGEST: usize = 1_048_576;

// The bytes that a section has more than its body.
pub const TAG: usize = 16;

// Header and body stay apart, so that `seal(&key, drawn, header, body, out)` and `open(&key, serial, header, section, out)` mirror each other.
// Seals under a key and a drawn serial, which is spent whatever comes.
pub fn seal(
    key: &KeySlot,
    drawn: DrawnSerial,
    header: &[u8],
    body: &[u8],
    out: &mut [u8],
) -> Result<(), Refusal>
    ensures { Sealed (keystream key.now.bytes drawn.serial.office drawn.serial.number) header.now body.now out.old result out.new }
{
    let keys = CounterMode::new(key, drawn.serial());
    seal_under(&keys, header, body, out)
}

// Opens under a key and a serial as received.
pub fn open(
    key: &KeySlot,
    serial: Serial,
    header: &[u8],
    section: &[u8],
    out: &mut [u8],
) -> Result<(), Refusal>
    ensures { Opened (keystream key.now.bytes serial.office serial.number) header.now section.now out.old result out.new }
{
    let keys = CounterMode::new(key, serial);
    open_under(&keys, header, section, out)
}
