//! Rounds over the pieces of a region.
//!
//! The table is the only part of a region that changes and that workers share. The state, the views
//! over it, the script, the codes and the pieces are only read. Between two rounds the outcome so
//! far is held (`Holds`): the set for which the logs of all hands stand together, the instances,
//! and the least exhausted path. Each round keeps that (`IsRound`). The rounds are a recursion, at
//! most 65 calls deep.
ghost use Rattle.std.specs.Prelude.{◌≡◌, ◌<◌, ◌≤◌, [], All, IfNone, IfOk, IfSome, IsOk, OnOk, vec_len};
ghost use Rattle.asm_state.specs.Signature.{count_of};
ghost use Rattle.asm_meaning.specs.Does as does;
ghost use Rattle.asm_eval.specs.code.OpenedPieces.{pieces_yield};
ghost use Rattle.asm_eval.specs.code.Pieces.{IsPiece};
ghost use Rattle.asm_eval.specs.code.Evaluation.{evaluation_shape};
ghost use Rattle.asm_limits.specs.Limits.{workers_option};
ghost use Rattle.asm_run.specs.code.Hands.{TakesHand, parts_of};
ghost use Rattle.asm_run.specs.code.Rounds.{Holds, IsRound, outs_of, least_path, least_of_all, new_pieces, count_instances};

use crate::hand::RegionHand;
use crate::job::{RegionJob, RegionOut};
use crate::work_budget::{RoundWork, workers_for};
use asm_eval::Path;
use asm_eval::evaluation::Evaluation;
use asm_eval::piece::Piece;
use asm_eval::shared::views_and_pieces_are_shared;
use asm_pool::{Gate, PoolError, work_by};
use asm_reader::Picks;
use asm_striped::Striped;
use asm_striped::shared::striped_is_shared;
use std::alloc::{AllocError, Global};
use std::thread::Threads;

/// This many pieces for each worker are enough: more cost more than they spread the work.
const PIECES_PER_WORKER: usize = 8;

/// The least of the paths.
fn least_path(known: Option<Path>, path: Path) -> Path
    ensures { result ≡ least_path known path }
{
    match known {
        None => path,
        Some(before) => {
            if path.as_slice().cmp(before.as_slice()).is_lt() {
                path
            } else {
                before
            }
        }
    }
}

/// What the tasks of a round returned, put together.
#[derive(Drop)]
struct RoundResult<'a> {
    next: Vec<Piece<'a>>,
    instances: u64,
    exhausted: Option<Path>,
}

/// Puts the results of a round together, in the order of the tasks.
fn collect<'a>(
    alloc: Global,
    outs: Vec<Result<RegionOut<'a>, AllocError>>,
    instances: u64,
    exhausted: Option<Path>,
) -> Result<RoundResult<'a>, AllocError>
    ensures ok { OnOk result (All IsOk outs.entry.items) }
    ensures next { IfOk result (λ c. c.next.items ≡ new_pieces (outs_of outs.entry.items)) }
    ensures instances { IfOk result (λ c. c.instances ≡ count_instances instances (outs_of outs.entry.items)) }
    ensures exhausted { IfOk result (λ c. c.exhausted ≡ least_of_all exhausted (outs_of outs.entry.items)) }
{
    let mut next = Vec::new(alloc);
    let mut counted = instances;
    let mut least = exhausted;
    for out in outs {
        match out? {
            RegionOut::Pieces {
                mut pieces,
                instances: more,
            } => {
                next.append(&mut pieces)?;
                counted = counted.saturating_add(more);
            }
            RegionOut::Done(more) => counted = counted.saturating_add(more),
            RegionOut::Exhausted(path) => least = Some(least_path(least, path)),
        }
    }
    Ok(RoundResult {
        next,
        instances: counted,
        exhausted: least,
    })
}

/// What the rounds so far have formed.
#[derive(Drop)]
pub(crate) struct RoundsSoFar {
    /// Each worker's, with what it has put of the set.
    pub hands: Vec<RegionHand>,
    /// Cut off if the number doesn't fit.
    pub instances: u64,
    /// The least path at which a piece is exhausted.
    pub exhausted: Option<Path>,
}

/// How the work of a region is shared.
#[derive(Clone, Copy, Debug)]
pub(crate) struct Cutting {
    pub workers: usize,
    /// At most `cut` elements of a `forall` are one piece.
    pub cut: usize,
    /// In `rounds` rounds pieces are opened.
    pub rounds: u32,
    pub ghost in_range: { (0 < workers) × (workers ≤ workers_option.bounds.most) × (0 < cut) },
}

/// What stays the same over the rounds of a region.
#[derive(Drop)]
pub(crate) struct RegionWork<'a, P: Picks> {
    pub evaluation: &'a Evaluation<'a, 'a, P>,
    pub striped: &'a Striped,
    pub shares: Cutting,
}

/// What a round leaves: the pieces that are still to be worked, and what was formed.
#[derive(Drop)]
struct AfterRound<'a> {
    next: Vec<Piece<'a>>,
    so_far: RoundsSoFar,
}

/// How many workers a round is worth, at most. If there is one round of opening at most, each round
/// is shared by all of them.
fn most_workers<P: Picks>(
    region: &RegionWork<'_, P>,
    round_work: RoundWork,
    pieces: &[Piece<'_>],
) -> usize
    requires { All (IsPiece (evaluation_shape region.now.evaluation.now)) pieces.now }
    ensures { 0 < result }
{
    let Cutting {
        workers,
        rounds,
        ..
    } = region.shares;
    if rounds <= 1 {
        return workers;
    }
    let evaluation = region.evaluation;
    workers_for(evaluation.view.signature, round_work, pieces, workers)
}

/// Opens the pieces, or works them whole, each once. The new pieces borrow from them. If there
/// are enough of them, a `forall` that isn't longer than the cut isn't opened: each of its elements
/// would be a piece.
fn work_round<'a, R: Threads + Sync, G: Gate + Sync, P: Picks + Sync>(
    rt: &R,
    alloc: Global,
    region: &RegionWork<'a, P>,
    cut: Option<usize>,
    pieces: &'a [Piece<'a>],
    so_far: RoundsSoFar,
    gate: &G,
) -> Result<AfterRound<'a>, PoolError>
    requires pieces { All (IsPiece (evaluation_shape region.now.evaluation.now)) pieces.now }
    requires cut { IfSome cut (λ k. 0 < k) }
    requires hands { vec_len so_far.hands ≡ region.now.shares.workers }
    requires fit { All (TakesHand (evaluation_shape region.now.evaluation.now) region.now.striped.now.table) so_far.hands.items }
    requires count { region.now.striped.now.count ≡ count_of (evaluation_shape region.now.evaluation.now) }
    ensures pieces { IfOk result (λ r. All (IsPiece (evaluation_shape region.now.evaluation.now)) r.next.items) }
    ensures whole { IfOk result (λ r. IfNone cut (r.next.items ≡ [])) }
    ensures hands { IfOk result (λ r. vec_len r.so_far.hands ≡ region.now.shares.workers) }
    ensures parts { IfOk result (λ r. parts_of r.so_far.hands.items ≡ parts_of so_far.hands.items) }
    ensures fit { IfOk result (λ r. All (TakesHand (evaluation_shape region.now.evaluation.now) region.now.striped.now.table) r.so_far.hands.items) }
    ensures holds { let at = region.now.evaluation.now in IfOk result (λ r. (o : does.Outcome) → Holds (evaluation_shape at) o so_far.hands.items so_far.instances so_far.exhausted
        → IsRound at (evaluation_shape at) o pieces.now r.next.items r.so_far.hands.items r.so_far.instances r.so_far.exhausted) }
{
    views_and_pieces_are_shared();
    striped_is_shared();
    let workers = region.shares.workers;
    let are_enough = workers * PIECES_PER_WORKER <= pieces.len();
    let most = most_workers(region, RoundWork { cut, are_enough }, pieces);
    let job = RegionJob {
        alloc,
        evaluation: region.evaluation,
        pieces,
        cut,
        are_enough,
        striped: region.striped,
    };
    let count = pieces.len();
    let worked = work_by(rt, alloc, workers, most, count, &job, so_far.hands, gate)?;
    let all = collect(alloc, worked.outs, so_far.instances, so_far.exhausted)?;
    Ok(AfterRound {
        next: all.next,
        so_far: RoundsSoFar {
            hands: worked.hands,
            instances: all.instances,
            exhausted: all.exhausted,
        },
    })
}

/// Works the pieces in `left` rounds of opening, and one more in which what is left is worked
/// whole. The pieces of a round borrow the frames of those of the round before.
#[cycle(rounds)]
pub(crate) fn work_rounds<'a, R: Threads + Sync, G: Gate + Sync, P: Picks + Sync>(
    rt: &R,
    alloc: Global,
    region: &RegionWork<'a, P>,
    left: u32,
    pieces: &'a [Piece<'a>],
    so_far: RoundsSoFar,
    gate: &G,
) -> Result<RoundsSoFar, PoolError>
    requires pieces { All (IsPiece (evaluation_shape region.now.evaluation.now)) pieces.now }
    requires hands { vec_len so_far.hands ≡ region.now.shares.workers }
    requires fit { All (TakesHand (evaluation_shape region.now.evaluation.now) region.now.striped.now.table) so_far.hands.items }
    requires count { region.now.striped.now.count ≡ count_of (evaluation_shape region.now.evaluation.now) }
    ensures fit { IfOk result (λ r. All (TakesHand (evaluation_shape region.now.evaluation.now) region.now.striped.now.table) r.hands.items) }
    ensures parts { IfOk result (λ r. parts_of r.hands.items ≡ parts_of so_far.hands.items) }
    ensures holds { let at = region.now.evaluation.now in IfOk result (λ r. (o : does.Outcome) → Holds (evaluation_shape at) o so_far.hands.items so_far.instances so_far.exhausted
        → Holds (evaluation_shape at) (does.both o (pieces_yield at pieces.now)) r.hands.items r.instances r.exhausted) }
{
    if pieces.is_empty() {
        return Ok(so_far);
    }
    if left == 0 {
        let last = work_round(rt, alloc, region, None, pieces, so_far, gate)?;
        return Ok(last.so_far);
    }
    let cut = Some(region.shares.cut);
    let AfterRound { next, so_far } = work_round(rt, alloc, region, cut, pieces, so_far, gate)?;
    work_rounds(rt, alloc, &*region, left - 1, next.as_slice(), so_far, gate)
}
