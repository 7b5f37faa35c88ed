// The orders of the permutations: place i of the result holds byte ORDER[i].
pub(crate) const PI_1: [u8; 16] = [0, 7, 14, 11, 4, 13, 10, 1, 8, 15, 6, 3, 12, 5, 2, 9];

pub(crate) const PI_34: [u8; 16] = [7, 14, 15, 10, 12, 13, 3, 0, 4, 6, 1, 5, 8, 11, 2, 9];

pub(crate) const PI_34_BACK: [u8; 16] = [7, 10, 14, 6, 8, 11, 9, 0, 12, 15, 3, 13, 4, 5, 1, 2];

pub(crate) const PI_12: [u8; 16] = [0, 11, 7, 14, 6, 4, 1, 15, 9, 3, 8, 5, 13, 2, 10, 12];

pub(crate) const PI_12_BACK: [u8; 16] = [0, 6, 13, 9, 5, 11, 4, 2, 10, 8, 14, 1, 15, 12, 3, 7];
