// The library for C, as functions on numbers and byte slices. Each answers 0, or the number of the refusal; capi_c exports them.
#![tactic(auto)]

ghost use Rattle.std.specs.Prelude.{◌≡◌};
ghost use Rattle.capi.specs.Calls.{CTagged, number_of as number_of_answer, AnswersNumber};

use keys::state::{KeySlot, SerialBook};
use message::state::Message;
use modes::kinds::ModeKind;
use oneshot::tag;
use refusals::Refusal;
use singles::state::{Smac1, Smac12, Smac34};
use streams::state::Smac1xN;

// The parameters are those that C hands in.
fn tag_message(
    mode: u8,
    streams: u8,
    key: &[u8],
    office: u32,
    serial: u64,
    header: &[u8],
    body: &[u8],
    out: &mut [u8],
) -> Result<(), Refusal>
    ensures { CTagged mode streams key.now office serial header.now body.now out.old result out.new }
{
    let kind = ModeKind::of(mode, streams)?;
    let mut slot = KeySlot::new();
    slot.set(key)?;
    let drawn = SerialBook::new(office, serial, serial).draw()?;
    let message = Message { header, body };
    // An arm for each mode, and not the enum over them: to move that makes a short message of SMAC-1 take 1.8 times as long.
    match kind {
        ModeKind::Smac1 => tag::<Smac1>((), &slot, drawn, &message, out),
        ModeKind::Smac34 => tag::<Smac34>((), &slot, drawn, &message, out),
        ModeKind::Smac12 => tag::<Smac12>((), &slot, drawn, &message, out),
        ModeKind::Smac1xN(count) => tag::<Smac1xN>(count, &slot, drawn, &message, out),
    }
}

fn number_of(answer: Result<(), Refusal>) -> u8
    ensures { result ≡ number_of_answer answer }
{
    answer.err().map_or(0, Refusal::number)
}

// Tags a message in memory. The serial counts as drawn from a book of that one serial.
pub fn zukeroha_tag(
    mode: u8,
    streams: u8,
    key: &[u8],
    office: u32,
    serial: u64,
    header: &[u8],
    body: &[u8],
    out: &mut [u8],
) -> u8
    ensures { AnswersNumber (λ answer. CTagged mode streams key.now office serial header.now body.now out.old answer out.new) result }
{
    number_of(tag_message(mode, streams, key, office, serial, header, body, out))
}
