// A key, expanded for AES-256.
ghost use Rattle.std.specs.Prelude.{◌≡◌, length};

// The key schedule: fifteen round keys of 16 bytes, one behind the other.
#[derive(Clone, Copy)]
pub struct Aes256 {
    pub(crate) schedule: [u8; 240],
    ghost long: { length schedule ≡ 240 },
}
