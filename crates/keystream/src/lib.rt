// Keystreams: a word of sixteen bytes at each place.
#![tactic(auto)]

pub mod state;

ghost use Rattle.std.specs.Prelude.{◌≡◌, ℕ, List};
ghost use Rattle.aes.specs.Blocks.{Block};
ghost use Rattle.keystream.specs.Keystream.{counter_block as counter_block_of, keystream};
ghost use Rattle.keystream.specs.States.{counter_words};
ghost use Rattle.keystream.specs.Words.{cipher_block};

use crate::state::CounterMode;
use aes256::state::Aes256;
use keys::state::{KeySlot, Serial};

pub trait Keystream {
    // the word at each place
    ghost words: { Self → ℕ → List ℕ };

    fn word(&self, place: u32) -> [u8; 16]
        ensures { result ≡ words self.now place };

    ghost block: { (s : Self) (place : ℕ) → Block (words s place) };
}

impl CounterMode {
    // Expands the key, once for all places.
    pub fn new(key: &KeySlot, serial: Serial) -> CounterMode
        ensures { counter_words result ≡ keystream key.now.bytes serial.office serial.number }
    {
        CounterMode {
            expanded: Aes256::new(key.bytes()),
            serial,
        }
    }
}

impl Keystream for CounterMode {
    ghost words = { counter_words };

    ghost block = { λ s place. cipher_block s.expanded.schedule (counter_block_of s.serial.office s.serial.number place) s.bytes };

    fn word(&self, place: u32) -> [u8; 16] {
        self.expanded.encrypt(&counter_block(self.serial, place))
    }
}

// Office and number, the lowest byte first, and then the place, the highest byte first.
fn counter_block(serial: Serial, place: u32) -> [u8; 16]
    ensures { result ≡ counter_block_of serial.office serial.number place }
{
    let [o0, o1, o2, o3] = serial.office.to_le_bytes();
    let [n0, n1, n2, n3, n4, n5, n6, n7] = serial.number.to_le_bytes();
    let [p0, p1, p2, p3] = place.to_be_bytes();
    [
        o0, o1, o2, o3, n0, n1, n2, n3, n4, n5, n6, n7, p0, p1, p2, p3,
    ]
}
