//! The lanes of tasks: a table with a word for each lane, from which the workers' seats draw
//! numbers.
ghost use Rattle.std.specs.Prelude.{◌≡◌, ℕ, ◌+◌, ◌-◌, ◌*◌, ◌%◌, ◌/◌, ◌^◌, ◌<◌, ◌≤◌, ◌++◌, ◌∷◌, [], IfOk, MatchOption};
ghost use Rattle.asm_pool.specs.code.Lanes.{AreLanes, IsLaneState, IsDrawn, HasDrawnAll, seat_view, past};
ghost use Rattle.asm_pool.specs.code.WorkDone.{times};

use atomic_table::{Join, Play, Seat, Split, Table, TableRule};
use std::alloc::{AllocError, Global};
use std::collections::LinkedList;

/// How many lanes there are, and how many tasks.
#[derive(Clone, Copy)]
pub(crate) struct LaneCounts {
    pub lanes: usize,
    pub count: usize,
}

/// What a seat knows: how many lanes there are, its parts, and what it has drawn, with the number
/// `k` of the lane `l` written `l + k * lanes`. No value of it is made.
pub struct SeatView {
    pub lanes: usize,
    pub parts: usize,
    pub drawn: LinkedList<usize>,
}

/// A worker's seat at the table.
pub(crate) type LaneSeat = Seat<(), SeatView>;

/// The rule of the table.
struct LaneRule;

impl TableRule<(), SeatView, LaneCounts> for LaneRule {
    ghost holds = { λ shape state. IsLaneState shape.lanes shape.count state.words state.views };

    ghost first = { λ shape. seat_view shape.lanes shape.lanes [] };
}

/// A seat draws the next number of a lane.
struct DrawStep;

impl Play<(), SeatView> for DrawStep {
    ghost then = { IsDrawn };
}

/// Half of a seat's parts go to a new seat.
struct SplitInHalf;

impl Split<SeatView> for SplitInHalf {
    ghost left = { λ v. seat_view v.lanes (v.parts - v.parts / 2) v.drawn };

    ghost right = { λ v. seat_view v.lanes (v.parts / 2) [] };
}

/// A seat takes another's parts and draws.
struct JoinBoth;

impl Join<SeatView> for JoinBoth {
    ghost both = { λ v w. seat_view v.lanes (v.parts + w.parts) (v.drawn ++ w.drawn) };

    ghost spent = { seat_view 0 0 [] };
}

/// The numbers from 0 to a count, dealt to lanes: the number `n` lies in the lane `n % lanes`.
#[derive(Drop)]
pub(crate) struct Lanes {
    table: Table<(), SeatView, LaneCounts, LaneRule, Global>,
    shape: LaneCounts,
    ghost keyed: { table.shared.key ≡ shape },
    ghost wide: { table.shared.table_id.words ≡ shape.lanes },
    ghost narrow: { table.shared.table_id.slots ≡ 0 },
    ghost some: { AreLanes shape.lanes },
    ghost room: { shape.count ≤ 2 ^ 63 },
}

impl Lanes {
    /// No number is drawn yet, and the one seat has a part for each lane.
    pub(crate) fn open(
        alloc: Global,
        lanes: usize,
        count: usize,
    ) -> Result<(Lanes, LaneSeat), AllocError>
        requires some { AreLanes lanes }
        requires room { count ≤ 2 ^ 63 }
        ensures shape { IfOk result (λ r. (r.0.shape.lanes ≡ lanes) × (r.0.shape.count ≡ count)) }
        ensures seat { IfOk result (λ r. (r.1.table_id ≡ r.0.table.shared.table_id) × (r.1.me ≡ (seat_view lanes lanes [], []))) }
    {
        let words = vec![in alloc; 0u64; lanes]?;
        let shape = LaneCounts { lanes, count };
        let (table, seat) = Table::of_words(alloc, words.as_slice(), &shape)?;
        Ok((Lanes { table, shape }, seat))
    }

    /// How many lanes there are.
    pub(crate) fn count(&self) -> usize
        ensures { result ≡ self.now.shape.lanes }
    {
        self.shape.lanes
    }

    /// The task of a lane's number, or none if the number is past the end of the lane.
    pub(crate) fn task(&self, lane: usize, number: u64) -> Option<usize>
        ensures { MatchOption result (self.now.shape.count ≤ lane + number * self.now.shape.lanes)
            (λ task. (task < self.now.shape.count) × (task ≡ lane + number * self.now.shape.lanes)) }
    {
        let task = (number as usize)
            .checked_mul(self.shape.lanes)?
            .checked_add(lane)?;
        if task < self.shape.count {
            Some(task)
        } else {
            None
        }
    }

    /// Draws the lane's next number, in one atomic step.
    pub(crate) fn draw(&self, seat: &mut LaneSeat, lane: usize) -> u64
        requires seat { (seat.old.table_id ≡ self.now.table.shared.table_id) × (seat.old.me.1 ≡ []) × (seat.old.me.0.lanes ≡ self.now.shape.lanes) }
        requires lane { lane < self.now.shape.lanes }
        requires part { past self.now.shape.lanes self.now.shape.count lane seat.old.me.0.drawn < seat.old.me.0.parts }
        ensures seat { (seat.new.table_id ≡ seat.old.table_id) × (seat.new.me.1 ≡ []) }
        ensures drawn { seat.new.me.0 ≡ seat_view seat.old.me.0.lanes seat.old.me.0.parts (seat.old.me.0.drawn ++ (lane + result * self.now.shape.lanes) ∷ []) }
        ensures next { (t : ℕ) → 0 < times t seat.old.me.0.drawn → t % self.now.shape.lanes ≡ lane → t / self.now.shape.lanes < result }
    {
        self.table.shared.fetch_add::<DrawStep>(seat, lane, 1)
    }

    /// Half of the parts of a seat that has drawn nothing go to a new seat.
    pub(crate) fn split(&self, seat: &mut LaneSeat) -> LaneSeat
        requires seat { (seat.old.table_id ≡ self.now.table.shared.table_id) × (seat.old.me.1 ≡ []) }
        requires parts { 1 < seat.old.me.0.parts }
        requires none { seat.old.me.0.drawn ≡ [] }
        ensures left { (seat.new.table_id ≡ seat.old.table_id) × (seat.new.me ≡ (seat_view seat.old.me.0.lanes (seat.old.me.0.parts - seat.old.me.0.parts / 2) [], [])) }
        ensures right { (result.table_id ≡ seat.old.table_id) × (result.me ≡ (seat_view seat.old.me.0.lanes (seat.old.me.0.parts / 2) [], [])) }
    {
        self.table.shared.split_seat::<SplitInHalf>(seat)
    }

    /// The seat takes the other's parts and draws.
    pub(crate) fn join(&self, seat: &mut LaneSeat, other: LaneSeat)
        requires seat { (seat.old.table_id ≡ self.now.table.shared.table_id) × (seat.old.me.1 ≡ []) × (0 < seat.old.me.0.parts) }
        requires other { (other.table_id ≡ self.now.table.shared.table_id) × (other.me.1 ≡ []) }
        ensures { (seat.new.table_id ≡ seat.old.table_id)
            × (seat.new.me ≡ (seat_view seat.old.me.0.lanes (seat.old.me.0.parts + other.me.0.parts) (seat.old.me.0.drawn ++ other.me.0.drawn), [])) }
    {
        self.table.shared.join_seat::<JoinBoth>(seat, other);
    }

    /// The seat that has all parts has all draws.
    pub(crate) fn close(self, seat: LaneSeat)
        requires seat { seat.table_id ≡ self.table.shared.table_id }
        requires parts { seat.me.0.parts ≡ self.shape.lanes }
        ensures { HasDrawnAll self.shape.lanes seat.me.0.drawn }
    {
        let Lanes { table, shape: _ } = self;
        table.close_with(seat).free();
    }
}
