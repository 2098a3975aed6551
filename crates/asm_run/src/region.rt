//! The outcome of a region, by rounds.
ghost use Rattle.std.specs.Prelude.{All, IfOk};
ghost use Rattle.asm_eval.specs.code.FormedOutcomes.{IsFormed};
ghost use Rattle.asm_eval.specs.code.OpenedPieces.{pieces_yield};
ghost use Rattle.asm_eval.specs.code.Pieces.{IsPiece};
ghost use Rattle.asm_eval.specs.code.Evaluation.{evaluation_shape};

use crate::hand::{join_hands, split_hands};
use crate::rounds::{Cutting, RegionWork, RoundsSoFar, work_rounds};
use asm_eval::Outcome;
use asm_eval::evaluation::Evaluation;
use asm_eval::piece::Piece;
use asm_pool::{Gate, PoolError};
use asm_reader::Picks;
use asm_striped::Striped;
use std::alloc::Global;
use std::thread::Threads;

/// What the pieces yield beside each other. The workers put it into a table, which this thread
/// opens, and closes after the last round.
pub(crate) fn work_region<'a, R: Threads + Sync, G: Gate + Sync, P: Picks + Sync>(
    rt: &R,
    alloc: Global,
    evaluation: &'a Evaluation<'a, 'a, P>,
    shares: Cutting,
    pieces: &'a [Piece<'a>],
    gate: &G,
) -> Result<Outcome, PoolError>
    requires { All (IsPiece (evaluation_shape evaluation.now)) pieces.now }
    ensures { let at = evaluation.now in IfOk result (IsFormed (evaluation_shape at) (pieces_yield at pieces.now)) }
{
    let signature = evaluation.view.signature;
    let (striped, mut seat) = Striped::open(alloc, signature.count(), shares.workers as u64 + 1)?;
    let region = RegionWork {
        evaluation,
        striped: &striped,
        shares,
    };
    let none = RoundsSoFar {
        hands: split_hands(alloc, &striped, &mut seat, signature, shares.workers)?,
        instances: 0,
        exhausted: None,
    };
    let RoundsSoFar {
        hands,
        instances,
        exhausted,
    } = work_rounds(rt, alloc, &region, shares.rounds, pieces, none, gate)?;
    match exhausted {
        Some(path) => Ok(Outcome::Exhausted(path)),
        None => {
            join_hands(&striped, &mut seat, hands);
            let set = striped.close(alloc, seat)?;
            Ok(Outcome::Set { set, instances })
        }
    }
}
