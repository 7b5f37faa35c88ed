// What the number of streams decides: places, and how each stream is loaded.
ghost use Rattle.std.specs.Prelude.{◌≡◌, ◌<◌};
ghost use Rattle.rounds.specs.Cycle.{next, prev};
ghost use Rattle.registers.specs.Registers.{regs};
ghost use Rattle.rounds.specs.Permutations.{sigma1};
ghost use Rattle.smac.specs.Smac.{patched as patched_of, stream_start};
ghost use Rattle.streams.specs.States.{Counted};

use crate::state::StreamCount;
use refusals::Refusal;
use registers::RegisterWords;
use sigma::Whole;

// Refused outside 1 to 16.
impl TryFrom<u8> for StreamCount {
    type Error = Refusal;

    ghost try_from_gives = { Counted };

    fn try_from(n: u8) -> Result<StreamCount, Refusal> {
        if n == 0 || n > 16 {
            return Err(Refusal::ModeOrStreams);
        }
        Ok(StreamCount { n })
    }
}

impl StreamCount {
    pub fn get(self) -> u8
        ensures { result ≡ self.n }
    {
        self.n
    }

    pub(crate) fn next_place(self, p: u8) -> u8
        requires { p < self.n }
        ensures is { result ≡ next self.n p }
        ensures within { result < self.n }
    {
        if p + 1 == self.n { 0 } else { p + 1 }
    }

    pub(crate) fn prev_place(self, p: u8) -> u8
        requires { p < self.n }
        ensures is { result ≡ prev self.n p }
        ensures within { result < self.n }
    {
        if p == 0 { self.n - 1 } else { p - 1 }
    }

    // The IV of stream `k`.
    fn patched(self, k: u8, iv: &[u8; 16]) -> [u8; 16]
        requires { k < self.n }
        ensures { result ≡ patched_of self.n k iv.now }
    {
        let mut own = *iv;
        own[15] = 16 * (self.n - 1) + k;
        own
    }

    // Stream `k`, loaded.
    pub(crate) fn start(self, k: u8, key: &[u8; 32], iv: &[u8; 16]) -> RegisterWords<Whole>
        requires { k < self.n }
        ensures { regs sigma1 result ≡ stream_start self.n key.now iv.now k }
    {
        let own: RegisterWords<Whole> = RegisterWords::keyed(key, &self.patched(k, iv));
        let first = RegisterWords::keyed(key, &self.patched(0, iv));
        own.dummy_rounds(8) ^ first
    }
}
