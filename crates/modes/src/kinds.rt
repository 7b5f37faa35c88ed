// The four modes in one type.
use singles::state::{Smac1, Smac12, Smac34};
use streams::state::{Smac1xN, StreamCount};

#[derive(Clone, Copy, Debug, PartialEq, Eq)]
pub enum ModeKind {
    Smac1,
    Smac34,
    Smac12,
    Smac1xN(StreamCount),
}

#[derive(Clone, Copy)]
pub enum AnyMode {
    Smac1(Smac1),
    Smac34(Smac34),
    Smac12(Smac12),
    Smac1xN(Smac1xN),
}
