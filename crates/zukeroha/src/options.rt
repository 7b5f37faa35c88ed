// The words of the command line, read once.
use crate::arguments::{bytes, mode, number};
use crate::name::Name;
use crate::usage::Usage;
use keys::state::Serial;
use modes::kinds::ModeKind;
use std::alloc::Global;
use std::env;
use std::env::Args;

#[derive(Drop)]
pub enum Command {
    Help,
    Work(Job),
    Section(SectionJob),
}

// What a tag and a section alike are made from.
#[derive(Drop)]
pub struct Basis {
    pub key: String,
    pub serial: Serial,
    pub header: Option<String>,
}

// What to do with a file, all of it known.
#[derive(Drop)]
pub struct Job {
    pub purpose: Purpose,
    pub mode: ModeKind,
    pub basis: Basis,
    pub progress: bool,
    pub file: String,
}

#[derive(Drop)]
pub enum Purpose {
    // a tag of so many bytes is made
    Tag(u64),
    // these bytes are compared with the tag
    Check(Vec<u8>),
}

// What to do with a section, all of it known.
#[derive(Drop)]
pub struct SectionJob {
    pub action: Action,
    pub basis: Basis,
    pub input: String,
    pub output: String,
}

// An enum, and no closure: one would be chosen by the same two words.
#[derive(Clone, Copy)]
pub enum Action {
    Seal,
    Open,
}

// What the words gave so far.
#[derive(Default, Drop)]
struct Given {
    mode: Option<ModeKind>,
    bytes: Option<u64>,
    tag: Option<Vec<u8>>,
    basis: GivenBasis,
    progress: Option<()>,
    file: Option<String>,
    second: Option<String>,
}

#[derive(Default, Drop)]
struct GivenBasis {
    key: Option<String>,
    office: Option<u32>,
    serial: Option<u64>,
    header: Option<String>,
}

impl GivenBasis {
    fn completed(self) -> Result<Basis, Usage> {
        Ok(Basis {
            key: self.key.ok_or(Usage::Missing(Name::Key))?,
            serial: Serial {
                office: self.office.ok_or(Usage::Missing(Name::Office))?,
                number: self.serial.ok_or(Usage::Missing(Name::Serial))?,
            },
            header: self.header,
        })
    }
}

// Fills a place that is empty.
fn once<T: Drop>(place: &mut Option<T>, name: Name, value: T) -> Result<(), Usage> {
    match place.replace(value) {
        Some(_) => Err(Usage::Repeated(name)),
        None => Ok(()),
    }
}

impl Given {
    // An option is followed by its value, which is no option; `--progress` stands alone.
    fn read(heap: Global, words: Args) -> Result<Given, Usage> {
        let mut given = Given::default();
        let mut waiting: Option<Name> = None;
        for word in words {
            match (waiting.take(), word.as_str().parse::<Name>().ok()) {
                (Some(name), Some(_)) => return Err(Usage::NoValue(name)),
                (Some(name), None) => given.take(heap, name, word)?,
                (None, Some(Name::Progress)) => given.take(heap, Name::Progress, word)?,
                (None, Some(name)) => waiting = Some(name),
                (None, None) => given.take_file(word)?,
            }
        }
        match waiting {
            Some(name) => Err(Usage::NoValue(name)),
            None => Ok(given),
        }
    }

    // A match, since the fields have six types, and a table of functions would need one.
    fn take(&mut self, heap: Global, name: Name, text: String) -> Result<(), Usage> {
        match name {
            Name::Mode => once(&mut self.mode, name, mode(text)?),
            Name::Bytes => once(&mut self.bytes, name, number(name, text, u64::MAX)?),
            Name::Tag => once(&mut self.tag, name, bytes(heap, name, text)?),
            Name::Key => once(&mut self.basis.key, name, text),
            Name::Office => once(&mut self.basis.office, name, number(name, text, u32::MAX)?),
            Name::Serial => once(&mut self.basis.serial, name, number(name, text, u64::MAX)?),
            Name::Header => once(&mut self.basis.header, name, text),
            Name::Progress => once(&mut self.progress, name, ()),
        }
    }

    fn take_file(&mut self, word: String) -> Result<(), Usage> {
        if word.as_str() != "-" && word.as_str().starts_with('-') {
            return Err(Usage::UnknownOption(word));
        }
        if self.second.is_some() {
            return Err(Usage::ExtraFile(word));
        }
        if self.file.is_some() {
            self.second = Some(word);
        } else {
            self.file = Some(word);
        }
        Ok(())
    }

    // An option that is of no use to a section.
    fn unfit_for_section(&self) -> Option<Name> {
        [
            (self.mode.is_some(), Name::Mode),
            (self.bytes.is_some(), Name::Bytes),
            (self.tag.is_some(), Name::Tag),
            (self.progress.is_some(), Name::Progress),
        ]
        .into_iter()
        .find_map(|(given, name)| given.then_some(name))
    }
}

#[derive(Clone, Copy)]
enum Verb {
    Tag,
    Check,
}

fn purpose_of(
    verb: Verb,
    mode: ModeKind,
    bytes: Option<u64>,
    tag: Option<Vec<u8>>,
) -> Result<Purpose, Usage> {
    match (verb, bytes, tag) {
        (Verb::Tag, _, Some(_)) => Err(Usage::Misplaced(Name::Tag)),
        (Verb::Tag, _, None) => Ok(Purpose::Tag(bytes.unwrap_or(mode.largest() as u64))),
        (Verb::Check, Some(_), _) => Err(Usage::Misplaced(Name::Bytes)),
        (Verb::Check, None, Some(tag)) => Ok(Purpose::Check(tag)),
        (Verb::Check, None, None) => Err(Usage::Missing(Name::Tag)),
    }
}

// What is left out has its default, or is missing.
fn completed(verb: Verb, given: Given) -> Result<Job, Usage> {
    let Given {
        mode,
        bytes,
        tag,
        basis,
        progress,
        file,
        second,
    } = given;
    // a tag is of one file
    if let Some(word) = second {
        return Err(Usage::ExtraFile(word));
    }
    let mode = mode.unwrap_or(ModeKind::Smac1);
    Ok(Job {
        purpose: purpose_of(verb, mode, bytes, tag)?,
        mode,
        basis: basis.completed()?,
        progress: progress.is_some(),
        file: file.ok_or(Usage::NoFile)?,
    })
}

// The same for a section, with both its files.
fn completed_section(action: Action, given: Given) -> Result<SectionJob, Usage> {
    if let Some(name) = given.unfit_for_section() {
        return Err(Usage::Misplaced(name));
    }
    let output = given.second.ok_or(Usage::NotTwoFiles)?;
    if output.as_str() == "-" {
        return Err(Usage::StandardOutput);
    }
    Ok(SectionJob {
        action,
        basis: given.basis.completed()?,
        input: given.file.ok_or(Usage::NotTwoFiles)?,
        output,
    })
}

pub fn read(rt: &HostRuntime) -> Result<Command, Usage> {
    let mut words = env::args(rt)?;
    let _program = words.next();
    let Some(first) = words.next() else {
        return Ok(Command::Help);
    };
    let given = || Given::read(rt.alloc(), words);
    match first.as_str() {
        "help" | "--help" | "-h" => Ok(Command::Help),
        "tag" => Ok(Command::Work(completed(Verb::Tag, given()?)?)),
        "check" => Ok(Command::Work(completed(Verb::Check, given()?)?)),
        "seal" => Ok(Command::Section(completed_section(Action::Seal, given()?)?)),
        "open" => Ok(Command::Section(completed_section(Action::Open, given()?)?)),
        _ => Err(Usage::UnknownWord(first)),
    }
}
