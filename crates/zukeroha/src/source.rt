// Where bytes are read from, and the one loop that reads them.
use crate::faults::Fault;
use crate::progress::Meter;
use refusals::Refusal;
use run::pieces::TakesPieces;
use std::fs::File;
use std::io;
use std::io::{ErrorKind, Read, Stdin};

// An enum, since a function that makes a `dyn Read` and hands it out is refused.
#[derive(Drop)]
enum Handle {
    Named(File),
    Standard(Stdin),
}

impl Read for Handle {
    fn read(&mut self, buffer: &mut [u8]) -> io::Result<usize> {
        match self {
            Handle::Named(file) => file.read(buffer),
            Handle::Standard(stdin) => stdin.read(buffer),
        }
    }
}

#[derive(Drop)]
pub struct Source<'a> {
    name: &'a str,
    handle: Handle,
}

impl<'a> Source<'a> {
    // The file of that name, or standard input at '-'.
    pub fn open(rt: &HostRuntime, name: &'a str) -> Result<Source<'a>, Fault> {
        if name == "-" {
            return Ok(Source {
                name: "standard input",
                handle: Handle::Standard(rt.stdin()),
            });
        }
        Source::open_file(rt, name)
    }

    pub fn open_file(rt: &HostRuntime, name: &'a str) -> Result<Source<'a>, Fault> {
        let file = File::open(rt, name).map_err(|cause| Fault::of_file(rt.alloc(), name, cause))?;
        Ok(Source {
            name,
            handle: Handle::Named(file),
        })
    }

    // How many bytes there are to read, where that is known.
    pub fn length(&self) -> Option<u64> {
        let Handle::Named(file) = &self.handle else {
            return None;
        };
        let found = file.metadata().ok()?;
        found.is_file().then_some(found.len())
    }

    // The bytes from the start on, and no more than so many of them.
    pub fn first(self, rt: &HostRuntime, most: u64) -> Result<Vec<u8>, Fault> {
        let mut bytes = Vec::new(rt.alloc());
        self.handle
            .take(most)
            .read_to_end(&mut bytes)
            .map_err(|cause| Fault::of_file(rt.alloc(), self.name, cause))?;
        Ok(bytes)
    }

    // Reads to the end and hands each piece on; answers how many bytes there were. Buffer, meter and run are what it works on.
    pub fn feed<R: TakesPieces>(
        &mut self,
        rt: &HostRuntime,
        buffer: &mut [u8],
        meter: &mut Meter,
        run: &mut R,
    ) -> Result<u64, Fault> {
        let mut count = 0u64;
        // A file may grow while it is read, so only a count of turns ends the loop.
        for _ in 0..u64::MAX {
            match self.handle.read(buffer) {
                Ok(0) => return Ok(count),
                Ok(n) => {
                    run.piece(&buffer[..n])?;
                    count = count.saturating_add(n as u64);
                    meter.reach(rt, count);
                }
                Err(cause) if cause.kind() == ErrorKind::Interrupted => {}
                Err(cause) => return Err(Fault::of_file(rt.alloc(), self.name, cause)),
            }
        }
        // There were more turns than a part can have bytes.
        Err(Fault::Refused(Refusal::PastCeiling))
    }
}
