// The bytes of a part on their way to the mode, and the end of a message.
ghost use Rattle.std.specs.Prelude.{◌≡◌, ◌<◌, ◌≤◌, [], length, replicate};
ghost use Rattle.mode.specs.Rules.{after};
ghost use Rattle.tags.specs.Tags.{rest};
ghost use Rattle.message.specs.Framing.{length_block as length_block_of, zero_block};
ghost use Rattle.message.specs.Feeding.{fed, fed_in, flush, filled, held};

use crate::state::{Framing, Pending};
use counts::length_block;
use counts::state::ByteCount;
use mode::Mode;

// As many zero blocks as any mode asks for.
const ZEROS: [[u8; 16]; 15] = [[0; 16]; 15];

// Rule and state are told in two clauses, as in `Mode`.
impl<M: Mode> Framing<M> {
    // A part begins: nothing waits.
    pub fn over(mode: M) -> Framing<M>
        ensures mode { result.mode ≡ mode }
        ensures nothing { held result.pending ≡ [] }
    {
        Framing {
            mode,
            pending: Pending::none(),
        }
    }

    // Bytes after those that wait; what does not complete a block waits.
    pub fn feed(&mut self, bytes: &[u8])
        ensures rule { M.rule self.new.mode ≡ M.rule self.old.mode }
        ensures fed { fed_in M.state self.new ≡ fed (M.rule self.old.mode) (fed_in M.state self.old) bytes.now }
    {
        let waiting = self.pending.len;
        if waiting == 0 {
            self.feed_aligned(bytes);
            return;
        }
        let Some((front, back)) = bytes.split_at_checked(16 - waiting) else {
            self.pending.add(bytes);
            return;
        };
        let block = self.pending.block_with(front);
        self.mode.absorb(&block);
        self.pending = Pending::none();
        self.feed_aligned(back);
    }

    // The end of a part: what waits is filled up with zeros, and absorbed.
    pub fn flush(self) -> M
        ensures { rest M.rule M.state result ≡ record { rule = M.rule self.mode; state = flush (M.rule self.mode) (fed_in M.state self) } }
    {
        let Framing { mut mode, pending } = self;
        if pending.len > 0 {
            mode.absorb(&pending.block_with(&[]));
        }
        mode
    }

    // Bytes that begin where a block does. Whole blocks go to the mode from where they lie.
    fn feed_aligned(&mut self, bytes: &[u8])
        requires { self.old.pending.len ≡ 0 }
        ensures rule { M.rule self.new.mode ≡ M.rule self.old.mode }
        ensures fed { fed_in M.state self.new ≡ fed (M.rule self.old.mode) (fed_in M.state self.old) bytes.now }
    {
        let (whole, tail) = bytes.as_chunks::<16>();
        self.mode.absorb_all(whole);
        self.pending.add(tail);
    }
}

// The end of a message: the length block, and then the zero blocks that the mode asks for.
pub fn close<M: Mode>(mut mode: M, header: ByteCount, body: ByteCount) -> M
    ensures { rest M.rule M.state result ≡ record { rule = M.rule mode; state = filled (M.rule mode) (after (M.rule mode) (M.state mode) (length_block_of header.value body.value)) } }
{
    mode.absorb(&length_block(header, body));
    fill_up(&mut mode);
    mode
}

// The zero blocks that are still due; the mode is asked once.
pub fn fill_up<M: Mode>(mode: &mut M)
    ensures rule { M.rule mode.new ≡ M.rule mode.old }
    ensures state { M.state mode.new ≡ filled (M.rule mode.old) (M.state mode.old) }
{
    let due = mode.fill();
    if due > 0 {
        mode.absorb_all(zero_blocks(due));
    }
}

fn zero_blocks(count: u8) -> &'static [[u8; 16]]
    requires { count ≤ 15 }
    ensures { result.now ≡ replicate count zero_block }
{
    &ZEROS[..count as usize]
}
