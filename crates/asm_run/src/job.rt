//! A round over the pieces of a region, as a job of a pool.
//!
//! If a task is refused memory, it returns the refusal, and puts nothing into the table. The other
//! tasks go on. When all are done, the region returns the refusal, so the run ends with `Memory`
//! after whole steps.
ghost use Rattle.std.specs.Prelude.{◌≡◌, ◌<◌, IfOk, IfSome, false};
ghost use Rattle.asm_state.specs.Signature.{count_of};
ghost use Rattle.asm_state.specs.Updates.{none};
ghost use Rattle.asm_updates.specs.code.Stands.{Stands};
ghost use Rattle.asm_code.specs.code.RuleViews.{rule_of};
ghost use Rattle.asm_eval.specs.code.OpenedPieces.{Gives, is_closed_part};
ghost use Rattle.asm_eval.specs.code.Pieces.{IsPiece, piece_yields};
ghost use Rattle.asm_eval.specs.code.Evaluation.{evaluation_shape};
ghost use Rattle.asm_run.specs.code.Hands.{TakesHand};
ghost use Rattle.asm_run.specs.code.Rounds.{IsTask, Leaves, LeavesWhole, RunsPiece, is_short};

use crate::hand::RegionHand;
use crate::put_set::put_set;
use asm_eval::evaluation::Evaluation;
use asm_eval::laws::opening_laws;
use asm_eval::open::{Opened, open_piece};
use asm_eval::piece::{Piece, form_piece};
use asm_eval::piece_positions::positions_of;
use asm_eval::{Path, Stopped};
use asm_pool::Job;
use asm_reader::Picks;
use asm_striped::Striped;
use std::alloc::{AllocError, Global};
use std::mem;

/// What a task returns.
#[derive(Drop)]
pub enum RegionOut<'a> {
    /// The piece was opened: the new pieces, and how many elements were counted in opening it.
    Pieces {
        pieces: Vec<Piece<'a>>,
        instances: u64,
    },
    /// It was worked whole, with that many elements counted, and its set is in the table.
    Done(u64),
    /// It is exhausted at this path.
    Exhausted(Path),
}

/// The pieces of a round. A task has the number of its piece. It opens the piece, or works it whole
/// and puts its set into the table of the region.
#[derive(Drop)]
pub struct RegionJob<'a, P: Picks> {
    pub alloc: Global,
    pub evaluation: &'a Evaluation<'a, 'a, P>,
    pub pieces: &'a [Piece<'a>],
    /// At most `cut` elements are one piece. None: the pieces are worked whole.
    pub cut: Option<usize>,
    /// There are enough pieces for all workers: a `forall` that isn't longer than the cut is worked
    /// whole.
    pub are_enough: bool,
    pub striped: &'a Striped,
}

impl<'a, P: Picks> RegionJob<'a, P> {
    /// A round that opens each piece that can be opened, or one that works all of them whole if
    /// there is no cut. It takes no memory.
    pub fn new(
        alloc: Global,
        evaluation: &'a Evaluation<'a, 'a, P>,
        pieces: &'a [Piece<'a>],
        cut: Option<usize>,
        striped: &'a Striped,
    ) -> RegionJob<'a, P>
        ensures evaluation { result.evaluation.now ≡ evaluation.now }
        ensures pieces { result.pieces.now ≡ pieces.now }
        ensures cut { result.cut ≡ cut }
        ensures opens_all { result.are_enough ≡ false }
        ensures striped { result.striped.now ≡ striped.now }
    {
        RegionJob {
            alloc,
            evaluation,
            pieces,
            cut,
            are_enough: false,
            striped,
        }
    }
}

/// Forms the set of a piece where the hand forms sets, and puts it into the table.
fn put_piece<'a, P: Picks>(
    job: &RegionJob<'_, P>,
    piece: &Piece<'_>,
    task: u64,
    hand: &mut RegionHand,
) -> Result<RegionOut<'a>, AllocError>
    requires piece { IsPiece (evaluation_shape job.now.evaluation.now) piece.now }
    requires count { job.now.striped.now.count ≡ count_of (evaluation_shape job.now.evaluation.now) }
    requires hand { TakesHand (evaluation_shape job.now.evaluation.now) job.now.striped.now.table hand.old }
    ensures table { hand.new.seat.table ≡ hand.old.seat.table }
    ensures count { hand.new.own.set.count ≡ hand.old.own.set.count }
    ensures leaves { let at = job.now.evaluation.now in
        LeavesWhole at (evaluation_shape at) task (piece_yields at piece.now) hand.old.seat hand.new.seat result }
{
    hand.own.instances = 0;
    match form_piece(job.alloc, job.evaluation, piece, &mut hand.own) {
        Ok(()) => {
            put_set(job.striped, &mut hand.seat, task, &hand.own.set);
            Ok(RegionOut::Done(hand.own.instances))
        }
        Err(Stopped::Exhausted) => {
            let path = mem::replace(&mut hand.own.path, Vec::new(job.alloc));
            Ok(RegionOut::Exhausted(Path::new(path)))
        }
        Err(Stopped::Memory) => Err(AllocError),
    }
}

/// Works a piece whole.
fn close_piece<'a, P: Picks>(
    job: &RegionJob<'_, P>,
    piece: &Piece<'_>,
    task: u64,
    hand: &mut RegionHand,
) -> Result<RegionOut<'a>, AllocError>
    requires piece { IsPiece (evaluation_shape job.now.evaluation.now) piece.now }
    requires count { job.now.striped.now.count ≡ count_of (evaluation_shape job.now.evaluation.now) }
    requires hand { TakesHand (evaluation_shape job.now.evaluation.now) job.now.striped.now.table hand.old }
    ensures hand { TakesHand (evaluation_shape job.now.evaluation.now) job.now.striped.now.table hand.new }
    ensures leaves { let at = job.now.evaluation.now in
        LeavesWhole at (evaluation_shape at) task (piece_yields at piece.now) hand.old.seat hand.new.seat result }
{
    let worked = put_piece(job, piece, task, hand);
    hand.own.set.clear();
    worked
}

/// Whether a piece has elements of a `forall`, and no more of them than are one piece.
fn is_short_piece<P: Picks>(
    evaluation: &Evaluation<'_, '_, P>,
    piece: &Piece<'_>,
    most: usize,
) -> bool
    requires { IsPiece (evaluation_shape evaluation.now) piece.now }
    ensures { result ≡ is_short (evaluation_shape evaluation.now) most piece.now }
{
    match positions_of(evaluation.view.signature, piece) {
        Some(positions) => positions <= most,
        None => false,
    }
}

/// What a piece is opened to: its parts, or nothing if it is closed.
fn open_into_parts<'a, P: Picks>(
    alloc: Global,
    evaluation: &Evaluation<'_, '_, P>,
    piece: &'a Piece<'a>,
    cut: usize,
) -> Result<Opened<'a>, AllocError>
    requires cut { 0 < cut }
    requires piece { IsPiece (evaluation_shape evaluation.now) piece.now }
    ensures { IfOk result (Gives evaluation.now cut (is_closed_part (rule_of piece.now.rule.now) piece.now.part) (piece_yields evaluation.now piece.now)) }
{
    opening_laws::<P>();
    open_piece(alloc, evaluation, piece, cut)
}

/// Opens a piece if there is a cut and it can be opened, or else works it whole. So is one that has
/// too few elements to be cut, if there are enough pieces besides.
fn work_piece<'a, P: Picks>(
    job: &RegionJob<'a, P>,
    piece: &'a Piece<'a>,
    task: u64,
    hand: &mut RegionHand,
) -> Result<RegionOut<'a>, AllocError>
    requires piece { IsPiece (evaluation_shape job.now.evaluation.now) piece.now }
    requires cut { IfSome job.now.cut (λ k. 0 < k) }
    requires count { job.now.striped.now.count ≡ count_of (evaluation_shape job.now.evaluation.now) }
    requires hand { TakesHand (evaluation_shape job.now.evaluation.now) job.now.striped.now.table hand.old }
    ensures hand { TakesHand (evaluation_shape job.now.evaluation.now) job.now.striped.now.table hand.new }
    ensures leaves { let at = job.now.evaluation.now in
        Leaves at (evaluation_shape at) job.now.cut job.now.are_enough piece.now task hand.old result hand.new }
{
    if let Some(most) = job.cut
        && !(job.are_enough && is_short_piece(job.evaluation, piece, most))
        && let Opened::Pieces { pieces, instances } = open_into_parts(
            job.alloc,
            job.evaluation,
            piece,
            most,
        )?
    {
        return Ok(RegionOut::Pieces { pieces, instances });
    }
    close_piece(job, piece, task, hand)
}

impl<'a, P: Picks> Job for RegionJob<'a, P> {
    type Hand = RegionHand;

    type Out = Result<RegionOut<'a>, AllocError>;

    ghost has_task = { λ job n. IsTask (evaluation_shape job.evaluation.now) job.cut job.pieces.now n × (job.striped.now.count ≡ count_of (evaluation_shape job.evaluation.now)) };

    ghost takes_hand = { λ job hand. TakesHand (evaluation_shape job.evaluation.now) job.striped.now.table hand };

    ghost runs = { λ job n before out after. RunsPiece job.evaluation.now (evaluation_shape job.evaluation.now) job.cut job.are_enough job.pieces.now n before out after };

    fn run(&self, n: usize, hand: &mut RegionHand) -> Result<RegionOut<'a>, AllocError> {
        let pieces = self.pieces;
        work_piece(self, &pieces[n], n as u64, hand)
    }
}
