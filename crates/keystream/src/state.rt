// AES-256 in counter mode, at one serial.
ghost use Rattle.aes.specs.Blocks.{Bytes};

use aes256::state::Aes256;
use keys::state::Serial;

// The key is expanded once.
#[derive(Clone, Copy)]
pub struct CounterMode {
    pub(crate) expanded: Aes256,
    pub(crate) serial: Serial,
    ghost bytes: { Bytes expanded.schedule },
}
