// Sealing a file into a section, and opening one.
use crate::faults::Fault;
use crate::hexadecimal::key_from;
use crate::options::{Action, SectionJob};
use crate::source::Source;
use keys::state::{KeySlot, Serial, SerialBook};
use refusals::Refusal;
use section::{LARGEST, TAG};
use std::fs;
use thiserror::Error;

// Why a file cannot be sealed, or opened.
#[derive(Clone, Copy, Debug, Error)]
pub enum BadSection {
    #[error("a section's header has at most 1048576 bytes")]
    HeaderLength,
    #[error("a sealed section holds at most 1048576 bytes")]
    BodyLength,
    #[error("a sealed section has 16 to 1048592 bytes")]
    SectionLength,
    #[error("not opened: the section was changed, or key, office, serial or header is not the one it was sealed with")]
    Mismatch,
}

// All bytes of the file. One that has more than it may is not read further than that.
fn read_whole(
    rt: &HostRuntime,
    source: Source,
    name: &str,
    most: usize,
    cause: BadSection,
) -> Result<Vec<u8>, Fault> {
    let bytes = source.first(rt, (most as u64).saturating_add(1))?;
    if bytes.len() > most {
        return Err(Fault::of_file(rt.alloc(), name, cause));
    }
    Ok(bytes)
}

fn read_header(rt: &HostRuntime, job: &SectionJob) -> Result<Vec<u8>, Fault> {
    let Some(name) = &job.basis.header else {
        return Ok(Vec::new(rt.alloc()));
    };
    let source = Source::open_file(rt, name.as_str())?;
    read_whole(rt, source, name.as_str(), LARGEST, BadSection::HeaderLength)
}

fn read_input(
    rt: &HostRuntime,
    job: &SectionJob,
    most: usize,
    cause: BadSection,
) -> Result<Vec<u8>, Fault> {
    let name = job.input.as_str();
    read_whole(rt, Source::open(rt, name)?, name, most, cause)
}

fn write_output(rt: &HostRuntime, job: &SectionJob, bytes: &[u8]) -> Result<(), Fault> {
    let name = job.output.as_str();
    fs::write(rt, name, bytes).map_err(|cause| Fault::of_file(rt.alloc(), name, cause))
}

// Answers how many bytes were sealed.
fn seal_file(
    rt: &HostRuntime,
    job: &SectionJob,
    key: &KeySlot,
    header: &[u8],
) -> Result<usize, Fault> {
    let body = read_input(rt, job, LARGEST, BadSection::BodyLength)?;
    let serial = job.basis.serial;
    let drawn = SerialBook::new(serial.office, serial.number, serial.number).draw()?;
    let mut out = vec![in rt.alloc(); 0u8; body.len() + TAG]?;
    section::seal(key, drawn, header, body.as_slice(), out.as_mut_slice())?;
    write_output(rt, job, out.as_slice())?;
    Ok(body.len())
}

// Answers how many bytes were opened. The output is first touched when the tag has matched.
fn open_file(
    rt: &HostRuntime,
    job: &SectionJob,
    key: &KeySlot,
    header: &[u8],
) -> Result<usize, Fault> {
    let heap = rt.alloc();
    let name = job.input.as_str();
    let sealed = read_input(rt, job, LARGEST + TAG, BadSection::SectionLength)?;
    if sealed.len() < TAG {
        return Err(Fault::of_file(heap, name, BadSection::SectionLength));
    }
    let mut out = vec![in heap; 0u8; sealed.len() - TAG]?;
    let answer = section::open(
        key,
        job.basis.serial,
        header,
        sealed.as_slice(),
        out.as_mut_slice(),
    );
    if let Err(Refusal::TagMismatch) = answer {
        return Err(Fault::of_file(heap, name, BadSection::Mismatch));
    }
    answer?;
    write_output(rt, job, out.as_slice())?;
    Ok(out.len())
}

pub fn perform(rt: &HostRuntime, job: &SectionJob) -> Result<(), Fault> {
    let key = key_from(rt, job.basis.key.as_str())?;
    let header = read_header(rt, job)?;
    // Two arms; a closure would be chosen by the same two.
    let count = match job.action {
        Action::Seal => seal_file(rt, job, &key, header.as_slice())?,
        Action::Open => open_file(rt, job, &key, header.as_slice())?,
    };
    let Serial { office, number } = job.basis.serial;
    let output = job.output.as_str();
    println!(rt; "section {count} {office} {number} {output}")?;
    Ok(())
}
