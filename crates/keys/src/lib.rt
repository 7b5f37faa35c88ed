// Key slots, serial books, serials drawn or received, and the IV of a run.
#![tactic(auto)]

pub mod state;

ghost use Rattle.std.specs.Prelude.{◌≡◌, ◌-◌, replicate};
ghost use Rattle.keys.specs.declared.state.Serial.{Serial as SerialRecord};
ghost use Rattle.keys.specs.Keys.{KeySet, comes, Draws, iv_of};

use crate::state::{DrawnSerial, KeySlot, Serial, SerialBook};
use refusals::Refusal;

impl KeySlot {
    // A key of sixteen zero bytes.
    pub fn new() -> KeySlot
        ensures { result.bytes ≡ replicate 32 0 }
    {
        KeySlot { bytes: [0; 32] }
    }

    // Bytes beyond those given are zero; refused unless 16 to 32 are given. No `TryFrom`: refused, the slot keeps its key.
    pub fn set(&mut self, key: &[u8]) -> Result<(), Refusal>
        ensures { KeySet self.old.bytes key.now result self.new.bytes }
    {
        let len = key.len();
        if len < 16 || len > 32 {
            return Err(Refusal::KeyLength);
        }
        let mut bytes = [0; 32];
        bytes[..len].copy_from_slice(key);
        self.bytes = bytes;
        Ok(())
    }

    pub fn bytes(&self) -> &[u8; 32]
        ensures { result.now ≡ self.now.bytes }
    {
        &self.bytes
    }
}

impl SerialBook {
    pub fn new(office: u32, first: u64, last: u64) -> SerialBook
        ensures office { result.office ≡ office }
        ensures last { result.last ≡ last }
        ensures comes { comes result ≡ first }
    {
        SerialBook {
            office,
            next: Some(first),
            last,
        }
    }

    pub fn draw(&mut self) -> Result<DrawnSerial, Refusal>
        ensures { Draws self.old result self.new }
    {
        let number = self.next.ok_or(Refusal::Serials)?;
        if number > self.last {
            return Err(Refusal::Serials);
        }
        self.next = number.checked_add(1);
        Ok(DrawnSerial {
            serial: Serial {
                office: self.office,
                number,
            },
        })
    }
}

impl DrawnSerial {
    pub fn office(&self) -> u32
        ensures { result ≡ self.now.serial.office }
    {
        self.serial.office
    }

    pub fn number(&self) -> u64
        ensures { result ≡ self.now.serial.number }
    {
        self.serial.number
    }
}

impl Serial {
    // The IV of a run: office in bytes 0 to 3, number in bytes 7 to 14, little-endian; zeros between and after.
    pub fn iv(self) -> [u8; 16]
        ensures { result ≡ iv_of self.office self.number }
    {
        let [o0, o1, o2, o3] = self.office.to_le_bytes();
        let [n0, n1, n2, n3, n4, n5, n6, n7] = self.number.to_le_bytes();
        [o0, o1, o2, o3, 0, 0, 0, n0, n1, n2, n3, n4, n5, n6, n7, 0]
    }
}

// What begins a run: a serial that was drawn, or one as received.
pub trait Numbered {
    // the serial that it is
    ghost numbered: { Self → SerialRecord };

    fn serial(self) -> Serial
        ensures { result ≡ numbered self };
}

impl Numbered for Serial {
    ghost numbered = { λ s. s };

    fn serial(self) -> Serial {
        self
    }
}

impl Numbered for DrawnSerial {
    ghost numbered = { λ d. d.serial };

    fn serial(self) -> Serial {
        let DrawnSerial { serial } = self;
        serial
    }
}
