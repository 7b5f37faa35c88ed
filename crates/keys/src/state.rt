// Key slots, serial books and drawn serials.
ghost use Rattle.std.specs.Prelude.{◌≡◌, length};

// A place that holds a key of 32 bytes.
#[derive(Drop)]
pub struct KeySlot {
    pub(crate) bytes: [u8; 32],
    ghost long: { length bytes ≡ 32 },
}

// An office, and one of its serials.
#[derive(Clone, Copy, PartialEq, Eq, Debug)]
pub struct Serial {
    pub office: u32,
    pub number: u64,
}

// Serials of one office, from the next to the last. There is none after the highest number.
#[derive(Drop)]
pub struct SerialBook {
    pub(crate) office: u32,
    pub(crate) next: Option<u64>,
    pub(crate) last: u64,
}

// A serial that was drawn. It cannot be copied: it begins one run.
#[derive(Drop)]
pub struct DrawnSerial {
    pub(crate) serial: Serial,
}
