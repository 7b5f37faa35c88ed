// The words of a line of vectors.
use anyhow::anyhow;
use hex::FromHexError;
use std::alloc::{AllocError, Global};

fn told(cause: FromHexError) -> anyhow::Error {
    match cause {
        FromHexError::OddLength => anyhow!("an odd number of digits"),
        FromHexError::OutOfMemory => AllocError.into(),
        FromHexError::InvalidHexCharacter { .. } | FromHexError::InvalidStringLength => {
            anyhow!("not hexadecimal")
        }
    }
}

// Bytes in lower-case hexadecimal; `-` stands for none. Upper case, which `hex` reads, is refused.
pub fn bytes(heap: Global, text: &str) -> anyhow::Result<Vec<u8>> {
    let digits = if text == "-" { "" } else { text };
    let given = hex::decode(heap, digits).map_err(told)?;
    if digits.bytes().any(|b| b.is_ascii_uppercase()) {
        return Err(anyhow!("not hexadecimal"));
    }
    Ok(given)
}

// Exactly as many bytes as the array has.
pub fn array<const N: usize>(heap: Global, text: &str) -> anyhow::Result<[u8; N]> {
    let given = bytes(heap, text)?;
    <[u8; N]>::try_from(given.as_slice()).map_err(|_| anyhow!("another number of bytes"))
}

// The words of a line, without the bar between what is given and what is expected.
pub fn fields<'a>(heap: Global, line: &'a str) -> Result<Vec<&'a str>, AllocError> {
    line.split_whitespace()
        .filter(|word| *word != "|")
        .collect(heap)
}
