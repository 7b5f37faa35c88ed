// AES-256 of FIPS 197: the key schedule, and the encryption of a block.
#![tactic(auto)]

pub mod state;

ghost use Rattle.std.specs.Prelude.{◌≡◌, ◌<◌, ◌≤◌};
ghost use Rattle.aes256.specs.Cipher.{added, schedule, cipher, AES256};
ghost use Rattle.aes256.specs.Known.{VectorC3};

use crate::state::Aes256;
use aes::{shift_rows, sub_byte, sub_bytes};
use words::Words;

impl Aes256 {
    // Expands a key.
    pub fn new(key: &[u8; 32]) -> Aes256
        ensures { result.schedule ≡ schedule key.now }
    {
        let mut schedule = [0; 240];
        schedule[..32].copy_from_slice(key);
        // Each byte follows from bytes before it, so the loop goes by place.
        for m in 32..240 {
            let turned = schedule[4 * (m / 4 - 1) + (m + 1) % 4];
            schedule[m] = schedule[m - 32] ^ temp(m, schedule[m - 4], turned);
        }
        Aes256 { schedule }
    }

    // Encrypts a block under the expanded key.
    pub fn encrypt(&self, block: &[u8; 16]) -> [u8; 16]
        ensures { result ≡ cipher self.now.schedule block.now }
    {
        let (keys, _) = self.schedule.as_chunks::<16>();
        let mut s = Words::from(block) ^ Words::from(&keys[0]);
        for key in &keys[1..14] {
            s = s.f() ^ Words::from(key);
        }
        let last = shift_rows(&sub_bytes(&s.to_bytes()));
        (Words::from(&last) ^ Words::from(&keys[14])).to_bytes()
    }
}

// Encrypts one block. Where a key serves more than one, keep its `Aes256`.
pub fn aes256(key: &[u8; 32], block: &[u8; 16]) -> [u8; 16]
    ensures { result ≡ AES256 key.now block.now }
{
    Aes256::new(key).encrypt(block)
}

// What the word before adds to byte `m`: rotated and substituted in every eighth word, where the first byte takes the round
// constant too, and substituted halfway between. `before` is its byte in the same row, and `turned` the one a row further on.
fn temp(m: usize, before: u8, turned: u8) -> u8
    requires { (32 ≤ m) × (m < 240) }
    ensures { result ≡ added m before turned }
{
    match m / 4 % 8 {
        0 if m % 4 == 0 => sub_byte(turned) ^ (1 << (m / 32 - 1)),
        0 => sub_byte(turned),
        4 => sub_byte(before),
        _ => before,
    }
}

// The definition AES256 gives the example C.3 of FIPS 197.
pub fn fips_example()
    ensures { VectorC3 }
{}
