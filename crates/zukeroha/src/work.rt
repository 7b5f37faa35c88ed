// Tagging a file, and checking the tag of one.
use crate::faults::Fault;
use crate::hexadecimal::{Hex, key_from};
use crate::options::{Job, Purpose};
use crate::progress::Meter;
use crate::source::Source;
use counts::state::Ceiling;
use keys::state::{KeySlot, Serial, SerialBook};
use modes::kinds::AnyMode;
use refusals::Refusal;
use run::state::{BodyRun, ClosedRun, HeaderRun};
use tags::state::{Allowance, Verdict};

#[derive(Clone, Copy)]
pub enum Outcome {
    Done,
    Differs,
}

// Bytes that are read at a time.
const PIECE: usize = 65536;

// A byte more than the largest tag: longer tags are refused as one of this length is.
const ROOM: usize = 33;

pub fn perform(rt: &HostRuntime, job: &Job) -> Result<Outcome, Fault> {
    let key = key_from(rt, job.basis.key.as_str())?;
    let run = begin(&key, job)?;
    let (run, count) = read_through(rt, run, job)?;
    // Two arms; a closure would be chosen by the same two.
    match &job.purpose {
        Purpose::Tag(bytes) => print_tag(rt, job, &run, count, *bytes),
        Purpose::Check(tag) => print_verdict(rt, &run, tag.as_slice()),
    }
}

fn begin(key: &KeySlot, job: &Job) -> Result<HeaderRun<AnyMode>, Refusal> {
    let ceiling = Ceiling::highest();
    let serial = job.basis.serial;
    match &job.purpose {
        Purpose::Tag(_) => {
            let drawn = SerialBook::new(serial.office, serial.number, serial.number).draw()?;
            Ok(HeaderRun::begin(job.mode, key, ceiling, drawn))
        }
        Purpose::Check(_) => Ok(HeaderRun::begin(job.mode, key, ceiling, serial)),
    }
}

// Header and body, to the close; also how many bytes the body has.
fn read_through(
    rt: &HostRuntime,
    mut run: HeaderRun<AnyMode>,
    job: &Job,
) -> Result<(ClosedRun<AnyMode>, u64), Fault> {
    let mut buffer = vec![in rt.alloc(); 0u8; PIECE]?;
    read_header(rt, job, buffer.as_mut_slice(), &mut run)?;
    let mut run = run.turn();
    let count = read_body(rt, job, buffer.as_mut_slice(), &mut run)?;
    Ok((run.close(), count))
}

fn read_header(
    rt: &HostRuntime,
    job: &Job,
    buffer: &mut [u8],
    run: &mut HeaderRun<AnyMode>,
) -> Result<(), Fault> {
    if let Some(name) = &job.basis.header {
        let mut header = Source::open_file(rt, name.as_str())?;
        header.feed(rt, buffer, &mut Meter::silent(), run)?;
    }
    Ok(())
}

fn read_body(
    rt: &HostRuntime,
    job: &Job,
    buffer: &mut [u8],
    run: &mut BodyRun<AnyMode>,
) -> Result<u64, Fault> {
    let mut body = Source::open(rt, job.file.as_str())?;
    let mut meter = if job.progress {
        Meter::over(body.length())
    } else {
        Meter::silent()
    };
    let count = body.feed(rt, buffer, &mut meter, run);
    meter.end(rt);
    count
}

fn print_tag(
    rt: &HostRuntime,
    job: &Job,
    run: &ClosedRun<AnyMode>,
    count: u64,
    bytes: u64,
) -> Result<Outcome, Fault> {
    let mut room = [0u8; ROOM];
    let tag = &mut room[..bytes.min(ROOM as u64) as usize];
    run.tag(tag)?;
    let mode = job.mode;
    let Serial { office, number } = job.basis.serial;
    let hex = Hex(tag);
    let file = job.file.as_str();
    println!(rt; "{mode} {count} {office} {number} {hex} {file}")?;
    Ok(Outcome::Done)
}

fn print_verdict(rt: &HostRuntime, run: &ClosedRun<AnyMode>, tag: &[u8]) -> Result<Outcome, Fault> {
    match run.compare(tag, &mut Allowance::new(1))? {
        Verdict::Same => {
            println!(rt; "same")?;
            Ok(Outcome::Done)
        }
        Verdict::Differs => {
            println!(rt; "differs")?;
            Ok(Outcome::Differs)
        }
    }
}
