// What can be wrong with the words of the command line.
use crate::hexadecimal::NotHex;
use crate::name::Name;
use std::io;
use thiserror::Error;

#[derive(Debug, Drop, Error)]
pub enum Usage {
    #[error("cannot read the command line: {0}")]
    Unread(#[from] io::Error),
    #[error("unknown word '{0}' (try 'zukeroha help')")]
    UnknownWord(String),
    #[error("unknown option '{0}' (try 'zukeroha help')")]
    UnknownOption(String),
    #[error("{0} does not go with this command (try 'zukeroha help')")]
    Misplaced(Name),
    #[error("{0} is given twice (give it once)")]
    Repeated(Name),
    #[error("{0} needs a value (try 'zukeroha help')")]
    NoValue(Name),
    #[error("{0} is missing (try 'zukeroha help')")]
    Missing(Name),
    #[error("no file is named (name one, or '-' for standard input)")]
    NoFile,
    #[error("name two files, IN and OUT (try 'zukeroha help')")]
    NotTwoFiles,
    #[error("'{0}' is one file too many (try 'zukeroha help')")]
    ExtraFile(String),
    #[error("OUT cannot be '-' (name a file)")]
    StandardOutput,
    #[error("unknown mode '{0}' (try smac-1, smac-3/4, smac-1/2 or smac-1x1 to smac-1x16)")]
    UnknownMode(String),
    #[error("{name}: {cause}")]
    NotHex { name: Name, cause: NotHex },
    #[error("{name}: '{text}' is not a whole number from 0 to {most}")]
    NotNumber { name: Name, text: String, most: u64 },
}
