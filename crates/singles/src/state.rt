// The modes of three registers.
ghost use Rattle.std.specs.Prelude.{◌≡◌, ◌<◌, ⊤};

use crate::variant::Variant;
use registers::RegisterWords;
use sigma::{Half, ThreeQuarters, Whole};
use std::alloc::AllocError;

// Registers, and the place in the cycle of dummy rounds.
pub struct Paced<V: Variant> {
    pub(crate) regs: RegisterWords<V>,
    pub(crate) place: u8,
    ghost within: { place < V.pace.cycle },
}

// No derive copies a ghost field of a generic struct.
impl<V: Variant> Clone for Paced<V> {
    ghost is_clone = { λ x y. y ≡ x };

    ghost is_infallible = { λ _. ⊤ };

    fn clone(&self) -> Result<Paced<V>, AllocError> {
        Ok(*self)
    }
}

impl<V: Variant> Copy for Paced<V> {}

pub type Smac1 = Paced<Whole>;

pub type Smac34 = Paced<ThreeQuarters>;

pub type Smac12 = Paced<Half>;
