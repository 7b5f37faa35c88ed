// The values of options, read from their words.
use crate::hexadecimal::bytes_of;
use crate::name::Name;
use crate::usage::Usage;
use modes::kinds::ModeKind;
use std::alloc::Global;
use std::str::FromStr;

pub fn mode(text: String) -> Result<ModeKind, Usage> {
    text.parse().map_err(|_| Usage::UnknownMode(text))
}

// A number up to the highest of its type. Name and word stay apart: one is told in the error about the other.
pub fn number<T: FromStr + Into<u64> + Drop>(name: Name, text: String, most: T) -> Result<T, Usage>
where
    T::Err: Drop,
{
    text.parse().map_err(|_| Usage::NotNumber {
        name,
        text,
        most: most.into(),
    })
}

pub fn bytes(heap: Global, name: Name, text: String) -> Result<Vec<u8>, Usage> {
    bytes_of(heap, text.as_bytes()).map_err(|cause| Usage::NotHex { name, cause })
}
