// The states of a run.
use counts::state::{ByteCount, Ceiling};
use message::state::Framing;
use mode::Mode;

// A part under way: the header, or the body.
#[derive(Drop)]
pub struct Part<M: Mode> {
    pub(crate) framing: Framing<M>,
    pub(crate) count: ByteCount,
    pub(crate) ceiling: Ceiling,
}

#[derive(Drop)]
pub struct HeaderRun<M: Mode> {
    pub(crate) part: Part<M>,
}

#[derive(Drop)]
pub struct BodyRun<M: Mode> {
    pub(crate) header: ByteCount,
    pub(crate) part: Part<M>,
}

#[derive(Drop)]
pub struct ClosedRun<M: Mode> {
    pub(crate) mode: M,
}
