// The tag of a header and a body that lie in memory, in one call.
#![tactic(auto)]

ghost use Rattle.std.specs.Prelude.{◌≡◌};
ghost use Rattle.keys.specs.Keys.{iv_of};
ghost use Rattle.message.specs.Whole.{MessageTagged, MessageCompared};

use keys::Numbered;
use keys::state::{DrawnSerial, KeySlot, Serial};
use message::state::Message;
use message::{compare_message, tag_message};
use mode::Mode;
use refusals::Refusal;
use tags::state::{Allowance, Verdict};

// Setup, key and serial stay apart, as in `message::absorb_message`; a received tag is read and an allowance is changed.
// Fills the buffer with the first bytes of the tag; the drawn serial is spent. Refused, the buffer keeps its bytes.
pub fn tag<M: Mode>(
    setup: M::Setup,
    key: &KeySlot,
    drawn: DrawnSerial,
    message: &Message<'_>,
    out: &mut [u8],
) -> Result<(), Refusal>
    ensures { MessageTagged (M.chosen setup key.now.bytes) key.now.bytes (iv_of drawn.serial.office drawn.serial.number) message.now.header.now message.now.body.now out.old result out.new }
{
    tag_message::<M>(setup, key.bytes(), &drawn.serial().iv(), message, out)
}

// Says whether the received bytes are the tag, for one of the allowance; the serial is as received. Refused, nothing is paid.
pub fn compare<M: Mode>(
    setup: M::Setup,
    key: &KeySlot,
    serial: Serial,
    message: &Message<'_>,
    received: &[u8],
    allowance: &mut Allowance,
) -> Result<Verdict, Refusal>
    ensures { MessageCompared (M.chosen setup key.now.bytes) key.now.bytes (iv_of serial.office serial.number) message.now.header.now message.now.body.now received.now allowance.old.left result allowance.new.left }
{
    compare_message::<M>(
        setup,
        key.bytes(),
        &serial.iv(),
        message,
        received,
        allowance,
    )
}
