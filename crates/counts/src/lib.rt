// Counts of bytes and of bits, a run's ceiling, and the length block.
#![tactic(auto)]

pub mod counts;
pub mod state;

ghost use Rattle.std.specs.Prelude.{◌≡◌, ◌*◌, ◌++◌};
ghost use Rattle.counts.specs.Little.{little};

use state::ByteCount;

// The length block: both lengths in bits, eight little-endian bytes each.
pub fn length_block(header: ByteCount, body: ByteCount) -> [u8; 16]
    ensures { result ≡ little 8 (8 * header.value) ++ little 8 (8 * body.value) }
{
    let h = header.bits().to_le_bytes();
    let b = body.bits().to_le_bytes();
    let mut r = [0u8; 16];
    r[0..8].copy_from_slice(&h);
    r[8..16].copy_from_slice(&b);
    r
}
