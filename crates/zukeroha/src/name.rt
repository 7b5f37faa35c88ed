// The options' names.
use std::fmt;
use std::str::FromStr;

#[derive(Clone, Copy, PartialEq, Debug)]
pub enum Name {
    Mode,
    Bytes,
    Tag,
    Key,
    Office,
    Serial,
    Header,
    Progress,
}

const NAMES: [(&str, Name); 8] = [
    ("--mode", Name::Mode),
    ("--bytes", Name::Bytes),
    ("--tag", Name::Tag),
    ("--key", Name::Key),
    ("--office", Name::Office),
    ("--serial", Name::Serial),
    ("--header", Name::Header),
    ("--progress", Name::Progress),
];

// A word that is no option.
#[derive(Clone, Copy)]
pub struct NoOption;

impl FromStr for Name {
    type Err = NoOption;

    fn from_str(word: &str) -> Result<Name, NoOption> {
        let found = NAMES.iter().find(|(text, _)| *text == word);
        found.map(|(_, name)| *name).ok_or(NoOption)
    }
}

impl fmt::Display for Name {
    fn fmt<W: fmt::Write>(&self, f: &mut fmt::Formatter<W>) -> fmt::Result {
        match NAMES.iter().find(|(_, name)| name == self) {
            Some((text, _)) => f.write_str(text),
            None => Ok(()),
        }
    }
}
