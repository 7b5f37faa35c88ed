// How far a file has been read, shown on standard error in one line that is written over.

const MEBIBYTE: u64 = 1_048_576;

// Bytes from one showing to the next.
const STEP: u64 = 64 * MEBIBYTE;

// A file up to this length is read too soon to show anything.
const SMALL: u64 = 256 * MEBIBYTE;

#[derive(Clone, Copy)]
enum Scale {
    Percent { of: u64 },
    Mebibytes,
}

#[derive(Drop)]
pub struct Meter {
    // none shows nothing
    scale: Option<Scale>,
    count: u64,
    next: u64,
}

impl Meter {
    fn new(scale: Option<Scale>) -> Meter {
        Meter {
            scale,
            count: 0,
            next: STEP,
        }
    }

    pub fn silent() -> Meter {
        Meter::new(None)
    }

    // A meter for so many bytes, where their number is known.
    pub fn over(length: Option<u64>) -> Meter {
        Meter::new(match length {
            None => Some(Scale::Mebibytes),
            Some(of) => (of > SMALL).then_some(Scale::Percent { of }),
        })
    }

    pub fn reach(&mut self, rt: &HostRuntime, count: u64) {
        self.count = count;
        if count >= self.next {
            self.next = count.saturating_add(STEP);
            self.show(rt);
        }
    }

    // Ends the line, if there is one.
    pub fn end(&self, rt: &HostRuntime) {
        if self.next != STEP && self.scale.is_some() {
            self.show(rt);
            let _ = eprintln!(rt; "");
        }
    }

    // Progress that cannot be shown is no reason to stop.
    fn show(&self, rt: &HostRuntime) {
        match self.scale {
            None => {}
            Some(Scale::Percent { of }) => {
                let percent = (self.count / (of / 100).max(1)).min(100);
                let _ = eprint!(rt; "\r{percent}%");
            }
            Some(Scale::Mebibytes) => {
                let read = self.count / MEBIBYTE;
                let _ = eprint!(rt; "\r{read} MiB");
            }
        }
    }
}
