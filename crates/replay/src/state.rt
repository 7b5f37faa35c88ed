// A run that was performed at once, and how its pieces were answered.
use counts::state::Ceiling;
use keys::state::{KeySlot, Serial};
use mode::Mode;
use refusals::Refusal;
use run::state::ClosedRun;

#[derive(Drop)]
pub struct Replayed<M: Mode> {
    pub run: ClosedRun<M>,
    pub header: Vec<Result<(), Refusal>>,
    pub body: Vec<Result<(), Refusal>>,
}

// What a run begins with.
#[derive(Drop)]
pub struct Start<'a, M: Mode> {
    pub setup: M::Setup,
    pub key: &'a KeySlot,
    pub ceiling: Ceiling,
    pub serial: Serial,
}

// The pieces of a message's header and body.
#[derive(Clone, Copy)]
pub struct Pieces<'a> {
    pub header: &'a [&'a [u8]],
    pub body: &'a [&'a [u8]],
}
