// Performs a whole run on pieces that are handed in, and hands back how each was answered.
#![tactic(auto)]

pub mod state;

ghost use Rattle.std.specs.Prelude.{◌≡◌, ◌<◌, List, map, IfOk};
ghost use Rattle.aes.specs.Blocks.{Bytes};
ghost use Rattle.laws.specs.Runs.{Call, Pieces};
ghost use Rattle.replay.specs.Replays.{Answered, ReplaysUnder, BothUnder};

use crate::state::{Pieces as Handed, Replayed, Start};
use mode::Mode;
use refusals::Refusal;
use run::pieces::TakesPieces;
use run::state::HeaderRun;
use std::alloc::{AllocError, Global};

// What the type says of a piece, for proofs to cite.
fn are_bytes(piece: &[u8])
    ensures { Bytes piece.now }
{
    if piece.len() > 0 {
        let _first = piece[0];
    }
}

// Hands pieces in, one after another, at the header or at the body.
fn hand<R: TakesPieces>(
    heap: Global,
    run: &mut R,
    pieces: &[&[u8]],
) -> Result<Vec<Result<(), Refusal>>, AllocError>
    ensures { IfOk result (λ v. (calls : List Call) × Answered (map (λ x. x.now) pieces.now) v.items calls × Pieces R.takes run.old calls run.new) }
{
    let mut answers = Vec::new(heap);
    for piece in pieces {
        are_bytes(piece);
        answers.push(run.piece(piece))?;
    }
    Ok(answers)
}

// Performs begin, header pieces, turn, body pieces, close, and promises of them what the law of runs says.
pub fn replay<M: Mode>(
    heap: Global,
    start: &Start<'_, M>,
    pieces: &Handed<'_>,
) -> Result<Replayed<M>, AllocError>
    ensures { IfOk result (λ done. ReplaysUnder M.rule M.state (M.chosen start.now.setup start.now.key.now.bytes) start.now.key.now.bytes start.now.serial start.now.ceiling.most.value
        (map (λ x. x.now) pieces.now.header.now) (map (λ x. x.now) pieces.now.body.now) done) }
{
    let mut run = HeaderRun::<M>::begin(start.setup, start.key, start.ceiling, start.serial);
    let header = hand(heap, &mut run, pieces.header)?;
    let mut run = run.turn();
    let body = hand(heap, &mut run, pieces.body)?;
    Ok(Replayed {
        run: run.close(),
        header,
        body,
    })
}

// Performs two runs from one start, and promises that they are told apart.
pub fn replay_both<M: Mode>(
    heap: Global,
    start: &Start<'_, M>,
    one: &Handed<'_>,
    two: &Handed<'_>,
) -> Result<(Replayed<M>, Replayed<M>), AllocError>
    ensures { IfOk result (λ both. BothUnder M.rule M.state (M.chosen start.now.setup start.now.key.now.bytes) start.now.key.now.bytes start.now.serial start.now.ceiling.most.value
        (map (λ x. x.now) one.now.header.now) (map (λ x. x.now) one.now.body.now) (map (λ x. x.now) two.now.header.now) (map (λ x. x.now) two.now.body.now)
        both.0 both.1) }
{
    let first = replay(heap, start, one)?;
    let second = replay(heap, start, two)?;
    Ok((first, second))
}
