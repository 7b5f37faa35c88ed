// The pieces of a run, its turn and its close.
ghost use Rattle.std.specs.Prelude.{◌≡◌, ℕ, List, Result};
ghost use Rattle.refusals.specs.declared.Refusal.{Refusal as RefusalRecord};
ghost use Rattle.run.specs.Calls.{Piece, BodyPiece, turned, closed, header_of, body_of, closed_of};

use crate::state::{BodyRun, ClosedRun, HeaderRun, Part};
use message::framing::close;
use mode::Mode;
use refusals::Refusal;

impl<M: Mode> HeaderRun<M> {
    // A piece of the header, of any length; refused whole where it would pass the ceiling.
    // It has a name of its own, as a body piece has: with one name for both, a header piece after the turn would compile.
    pub fn header_piece(&mut self, piece: &[u8]) -> Result<(), Refusal>
        ensures { Piece (header_of M.rule M.state self.old) piece.now result (header_of M.rule M.state self.new) }
    {
        self.part.take(piece)
    }

    // Ends the header and begins the body.
    pub fn turn(self) -> BodyRun<M>
        ensures { body_of M.rule M.state result ≡ turned (header_of M.rule M.state self) }
    {
        let HeaderRun { part } = self;
        let Part {
            framing,
            count,
            ceiling,
        } = part;
        BodyRun {
            header: count,
            part: Part::<M>::over(framing.flush(), ceiling),
        }
    }
}

impl<M: Mode> BodyRun<M> {
    // A piece of the body, of any length; refused whole where it would pass the ceiling.
    pub fn body_piece(&mut self, piece: &[u8]) -> Result<(), Refusal>
        ensures { BodyPiece (body_of M.rule M.state self.old) piece.now result (body_of M.rule M.state self.new) }
    {
        self.part.take(piece)
    }

    // Ends the body: the length block, and then the zero blocks that the mode asks for.
    pub fn close(self) -> ClosedRun<M>
        ensures { closed_of M.rule M.state result ≡ closed (body_of M.rule M.state self) }
    {
        let BodyRun { header, part } = self;
        let Part { framing, count, .. } = part;
        let mode = framing.flush();
        ClosedRun {
            mode: close(mode, header, count),
        }
    }
}

// A run at its header or at its body, for callers that hand pieces in at either.
pub trait TakesPieces {
    // where it stood, the piece, the answer, and where it stands then
    ghost takes: { Self → List ℕ → Result (Unit {0}) RefusalRecord → Self → Type 0 };

    fn piece(&mut self, piece: &[u8]) -> Result<(), Refusal>
        ensures { takes self.old piece.now result self.new };
}

impl<M: Mode> TakesPieces for HeaderRun<M> {
    ghost takes = { λ s piece answer t. Piece (header_of M.rule M.state s) piece answer (header_of M.rule M.state t) };

    fn piece(&mut self, piece: &[u8]) -> Result<(), Refusal> {
        self.header_piece(piece)
    }
}

impl<M: Mode> TakesPieces for BodyRun<M> {
    ghost takes = { λ s piece answer t. BodyPiece (body_of M.rule M.state s) piece answer (body_of M.rule M.state t) };

    fn piece(&mut self, piece: &[u8]) -> Result<(), Refusal> {
        self.body_piece(piece)
    }
}
