// Hexadecimal text, and the key file that is written in it.
use crate::faults::Fault;
use hex::FromHexError;
use keys::state::KeySlot;
use refusals::Refusal;
use std::alloc::{AllocError, Global};
use std::fs::File;
use std::io::Read;
use std::{fmt, io};
use thiserror::Error;

// Why text is not hexadecimal.
#[derive(Clone, Copy, Debug, Error)]
pub enum NotHex {
    #[error("not hexadecimal (write two digits to a byte, 0 to 9 and a to f)")]
    Digit,
    #[error("an odd number of digits (write two digits to a byte)")]
    HalfByte,
    #[error("out of memory")]
    Memory(#[from(alloc)] AllocError),
}

// By hand, since it sorts the errors of `hex` into the two that are told here.
impl From<FromHexError> for NotHex {
    fn from(cause: FromHexError) -> NotHex {
        match cause {
            FromHexError::OddLength => NotHex::HalfByte,
            FromHexError::OutOfMemory => NotHex::Memory(AllocError),
            FromHexError::InvalidHexCharacter { .. } | FromHexError::InvalidStringLength => {
                NotHex::Digit
            }
        }
    }
}

// Bytes as lower-case hexadecimal. `hex::encode` asks for memory, and `encode_to_slice` for a second buffer and a text made of it.
#[derive(Drop)]
pub struct Hex<'a>(pub &'a [u8]);

impl fmt::Display for Hex<'_> {
    fn fmt<W: fmt::Write>(&self, f: &mut fmt::Formatter<W>) -> fmt::Result {
        for b in self.0 {
            write!(f, "{b:02x}")?;
        }
        Ok(())
    }
}

// A form feed is no white space here.
fn is_space(b: u8) -> bool {
    matches!(b, b' ' | b'\t' | b'\n' | b'\r')
}

// The bytes that the digits write; white space is passed over. A wrong digit is told before an odd number of them.
pub fn bytes_of(heap: Global, text: &[u8]) -> Result<Vec<u8>, NotHex> {
    let digits: Vec<u8> = text
        .iter()
        .copied()
        .filter(|b| !is_space(*b))
        .collect(heap)?;
    if !digits.iter().all(|b| b.is_ascii_hexdigit()) {
        return Err(NotHex::Digit);
    }
    Ok(hex::decode(heap, digits.as_slice())?)
}

// Why a key file gives no key.
#[derive(Clone, Copy, Debug, Error)]
pub enum BadKey {
    #[error("{0}")]
    Unread(#[from] io::Error),
    #[error("too long for a key (write 32 to 64 digits)")]
    TooLong,
    #[error("{0}")]
    Text(#[from] NotHex),
    #[error("{0}")]
    Refused(#[from] Refusal),
}

// A key file has fewer bytes than this, so that no other file is read whole by mistake.
const ROOM: usize = 4096;

fn read_key_file(rt: &HostRuntime, name: &str) -> io::Result<Vec<u8>> {
    let mut text = Vec::new(rt.alloc());
    File::open(rt, name)?
        .take(ROOM as u64)
        .read_to_end(&mut text)?;
    Ok(text)
}

fn key_in(rt: &HostRuntime, name: &str) -> Result<KeySlot, BadKey> {
    let text = read_key_file(rt, name)?;
    if text.len() >= ROOM {
        return Err(BadKey::TooLong);
    }
    let bytes = bytes_of(rt.alloc(), text.as_slice())?;
    let mut key = KeySlot::new();
    key.set(bytes.as_slice())?;
    Ok(key)
}

// The key that the file holds.
pub fn key_from(rt: &HostRuntime, name: &str) -> Result<KeySlot, Fault> {
    key_in(rt, name).map_err(|cause| Fault::of_file(
        rt.alloc(),
        format_args!("key file {name}"),
        cause,
    ))
}
