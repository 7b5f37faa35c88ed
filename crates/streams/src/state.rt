// SMAC-1×n: up to sixteen streams, of which the first `count` are in use.
ghost use Rattle.std.specs.Prelude.{◌≡◌, ◌<◌, ◌≤◌, length};

use registers::RegisterWords;
use sigma::Whole;

// How many streams: 1 to 16.
#[derive(Clone, Copy, Debug, PartialEq, Eq)]
pub struct StreamCount {
    pub(crate) n: u8,
    ghost some: { 1 ≤ n },
    ghost most: { n ≤ 16 },
}

// An array beside its length: `Mode` asks for `Copy`, and an `ArrayVec` is not.
#[derive(Clone, Copy)]
pub struct Smac1xN {
    pub(crate) streams: [RegisterWords<Whole>; 16],
    pub(crate) count: StreamCount,
    pub(crate) place: u8,
    ghost long: { length streams ≡ 16 },
    ghost within: { place < count.n },
}
