// A block as four words, and the AES round on it.
#![tactic(auto)]

ghost use Rattle.std.specs.Prelude.{◌≡◌, ◌++◌};
ghost use Rattle.aes.specs.Blocks.{◌⊕◌};
ghost use Rattle.aes.specs.Round.{F, Finv};
ghost use Rattle.words.specs.Words.{bytes};

use aes::inv_f;
use columns::column;
use std::ops::BitXor;

// Clauses see its bytes by a definition, and no `Model`: as it is `Copy`, that would need the words back from the bytes.
#[derive(Clone, Copy)]
pub struct Words(pub u32, pub u32, pub u32, pub u32);

// The first byte of each word is its lowest.
impl From<&[u8; 16]> for Words {
    ghost from_gives = { λ m x. bytes x ≡ m.now };

    fn from(m: &[u8; 16]) -> Words {
        Words(
            u32::from_le_bytes([m[0], m[1], m[2], m[3]]),
            u32::from_le_bytes([m[4], m[5], m[6], m[7]]),
            u32::from_le_bytes([m[8], m[9], m[10], m[11]]),
            u32::from_le_bytes([m[12], m[13], m[14], m[15]]),
        )
    }
}

impl BitXor for Words {
    type Output = Words;

    ghost bitxor_gives = { λ x y r. bytes r ≡ bytes x ⊕ bytes y };

    fn bitxor(self, y: Words) -> Words {
        Words(self.0 ^ y.0, self.1 ^ y.1, self.2 ^ y.2, self.3 ^ y.3)
    }
}

impl Words {
    // The bytes of the four words, each the lowest first. By ranges, since `concat` asks for memory.
    pub fn to_bytes(self) -> [u8; 16]
        ensures { result ≡ bytes self }
    {
        let mut out = [0; 16];
        out[0..4].copy_from_slice(&self.0.to_le_bytes());
        out[4..8].copy_from_slice(&self.1.to_le_bytes());
        out[8..12].copy_from_slice(&self.2.to_le_bytes());
        out[12..16].copy_from_slice(&self.3.to_le_bytes());
        out
    }

    // This block, and another behind it.
    pub fn pair_with(self, y: Words) -> [u8; 32]
        ensures { result ≡ bytes self ++ bytes y }
    {
        let mut out = [0; 32];
        out[0..16].copy_from_slice(&self.to_bytes());
        out[16..32].copy_from_slice(&y.to_bytes());
        out
    }

    // The AES round without its key.
    pub fn f(self) -> Words
        ensures { bytes result ≡ F (bytes self) }
    {
        let [x0, x1, x2, x3] = self.0.to_le_bytes();
        let [x4, x5, x6, x7] = self.1.to_le_bytes();
        let [x8, x9, x10, x11] = self.2.to_le_bytes();
        let [x12, x13, x14, x15] = self.3.to_le_bytes();
        Words(
            column(x0, x5, x10, x15),
            column(x4, x9, x14, x3),
            column(x8, x13, x2, x7),
            column(x12, x1, x6, x11),
        )
    }

    // The block that `f` makes this one from.
    pub fn inv_f(self) -> Words
        ensures { bytes result ≡ Finv (bytes self) }
    {
        Words::from(&inv_f(&self.to_bytes()))
    }
}
