// The bytes that wait for a whole block.
ghost use Rattle.std.specs.Prelude.{◌≡◌, ◌+◌, ◌-◌, ◌<◌, ◌≤◌, [], ◌++◌, length, replicate};
ghost use Rattle.message.specs.Feeding.{held};

use crate::state::Pending;

impl Pending {
    pub fn none() -> Pending
        ensures { held result ≡ [] }
    {
        Pending {
            bytes: [0; 16],
            len: 0,
        }
    }

    // Adds bytes that do not complete the block.
    pub(crate) fn add(&mut self, more: &[u8])
        requires { self.old.len + length more.now < 16 }
        ensures { held self.new ≡ held self.old ++ more.now }
    {
        let start = self.len;
        let end = start + more.len();
        self.bytes[start..end].copy_from_slice(more);
        self.len = end;
    }

    // A block of the bytes that wait, of more bytes, and of zeros.
    pub(crate) fn block_with(&self, more: &[u8]) -> [u8; 16]
        requires { self.now.len + length more.now ≤ 16 }
        ensures { result ≡ (held self.now ++ more.now) ++ replicate (16 - length (held self.now ++ more.now)) 0 }
    {
        let start = self.len;
        let waiting = &self.bytes[..start];
        let mut block = [0; 16];
        block[..start].copy_from_slice(waiting);
        block[start..start + more.len()].copy_from_slice(more);
        block
    }
}
