// What can go wrong, and the line that says so.
use crate::hexadecimal::BadKey;
use crate::sections::BadSection;
use crate::usage::Usage;
use refusals::Refusal;
use std::alloc::{AllocError, Global};
use std::{fmt, io};
use thiserror::Error;

#[derive(Debug, Drop, Error)]
pub enum Fault {
    #[error("{0}")]
    Usage(#[from] Usage),
    #[error("{name}: {cause}")]
    File { name: String, cause: BadFile },
    #[error("{0}")]
    Refused(#[from] Refusal),
    // Writing to standard output is the one call whose error needs no name beside it.
    #[error("standard output: {0}")]
    Output(#[from] io::Error),
    #[error("out of memory")]
    Memory(#[from(alloc)] AllocError),
}

// What is wrong with a file.
#[derive(Clone, Copy, Debug, Error)]
pub enum BadFile {
    #[error("{0}")]
    Unread(#[from] io::Error),
    #[error("{0}")]
    Key(#[from] BadKey),
    #[error("{0}")]
    Section(#[from] BadSection),
}

impl Fault {
    // The fault of the file of that name.
    pub fn of_file(
        heap: Global,
        name: impl fmt::Display + Drop,
        cause: impl Into<BadFile> + Drop,
    ) -> Fault {
        match name.to_string(heap) {
            Ok(name) => Fault::File {
                name,
                cause: cause.into(),
            },
            Err(cause) => Fault::Memory(cause),
        }
    }
}
