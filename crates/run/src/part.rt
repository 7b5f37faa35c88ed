// One part of a run: the pieces of the header, or of the body.
ghost use Rattle.std.specs.Prelude.{◌≡◌, ◌<◌};
ghost use Rattle.run.specs.Calls.{Piece, begun, part_of};

use crate::state::Part;
use counts::state::{ByteCount, Ceiling};
use message::state::Framing;
use mode::Mode;
use refusals::Refusal;

impl<M: Mode> Part<M> {
    // A part with nothing accepted.
    pub(crate) fn over(mode: M, ceiling: Ceiling) -> Part<M>
        ensures { part_of M.rule M.state result ≡ begun (M.rule mode) (M.state mode) ceiling.most.value }
    {
        Part {
            framing: Framing::<M>::over(mode),
            count: ByteCount::none(),
            ceiling,
        }
    }

    // Takes a piece whole, or leaves everything as it was.
    pub(crate) fn take(&mut self, piece: &[u8]) -> Result<(), Refusal>
        ensures { Piece (part_of M.rule M.state self.old) piece.now result (part_of M.rule M.state self.new) }
    {
        let more = self.count.more(piece.len(), self.ceiling);
        let count = more.ok_or(Refusal::PastCeiling)?;
        self.framing.feed(piece);
        self.count = count;
        Ok(())
    }
}
