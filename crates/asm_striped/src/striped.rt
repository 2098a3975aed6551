//! The table and its seats.
//!
//! `put` is a `fetch_min` on the low word and a `fetch_max` on the high word. It takes no lock, no
//! memory and no handle of the runtime, so it can't wait for another thread. The table is the union
//! of what was put, so no summaries are united after the threads are joined. Values are put as
//! their codes, which are in the order of the values. A code is at least 1 and less than 2^63, so
//! it is never a word of a location where nothing was put. The log of a seat exists only in the
//! proofs, and takes no memory.
ghost use Rattle.std.specs.Prelude.{◌≡◌, ◌+◌, ◌*◌, ◌^◌, ◌<◌, ◌≤◌, None, IfOk};
ghost use Rattle.asm_state.specs.Signature.{Shape};
ghost use Rattle.asm_updates.specs.code.Stands.{MarksFaults};
ghost use Rattle.asm_striped.specs.code.Log.{IsCode, IsPut, put_of, IsSummaryOfLog};
ghost use Rattle.asm_striped.specs.code.Board.{after_begin, after_end, AtMostKnown, AtLeastKnown, LowsWerePut, HighsWerePut};
ghost use Rattle.asm_striped.specs.code.Seats.{first_seat, after_put, without_part, new_seat, both_seats};

use crate::board::{Board, Known, NamesPut, PutsHigh, PutsLow, SplitAndJoin, TableSize};
use crate::table_words::{marks, summary_of};
use asm_updates::summary::Summary;
use atomic_table::{Seat, Shared, Table};
use std::alloc::{AllocError, Global};
use std::marker::{Brand, Model};

/// The low and the high word of each location. The low word begins as the greatest `u64`, and the
/// high word as 0.
#[derive(Drop)]
pub struct Striped {
    table: Table<(), Known, TableSize, Board, Global>,
}

impl Model for Striped {
    ghost use Rattle.std.specs.Prelude.{◌≡◌, ◌+◌, ◌*◌, ◌^◌, ◌≤◌};
    ghost use Rattle.asm_striped.specs.code.Seats.{Stripes};

    ghost Value = { Stripes };

    ghost view = { λ s. record { table = s.table.shared.table_id; count = s.table.shared.key.count; parts = s.table.shared.key.parts } };

    ghost invariant = { λ s. (s.table.shared.table_id.words ≡ 2 * s.table.shared.key.count + 1) × (s.table.shared.table_id.slots ≡ 0) × (s.table.shared.key.count ≤ 2 ^ 32) };
}

/// The right to put into a table, and what its holder knows. It has no bytes.
#[derive(Drop)]
pub struct StripeSeat {
    seat: Seat<(), Known>,
}

impl Model for StripeSeat {
    ghost use Rattle.std.specs.Prelude.{◌≡◌, ◌<◌, None, []};
    ghost use Rattle.asm_striped.specs.code.Seats.{SeatState, seat_state};

    ghost Value = { SeatState };

    ghost view = { λ s. seat_state s.seat.table_id s.seat.me.0 };

    ghost invariant = { λ s. (s.seat.me.1 ≡ []) × (s.seat.me.0.begun ≡ None) × (0 < s.seat.me.0.parts) };
}

/// The two words of a location as a put found them.
#[derive(Clone, Copy, Debug, PartialEq, Eq)]
pub struct WordsBefore {
    pub low_before: u64,
    pub high_before: u64,
}

/// Both steps of a put.
fn put_entry<E: NamesPut>(
    shared: &Shared<(), Known, TableSize, Board>,
    seat: &mut Seat<(), Known>,
    task: u64,
    n: usize,
    low: u64,
    high: u64,
) -> WordsBefore
    requires entry { E.put ≡ put_of task n low high }
    requires fits { IsPut shared.now.key.count E.put }
    requires table { (seat.old.table_id ≡ shared.now.table_id) × (shared.now.table_id.words ≡ 2 * shared.now.key.count + 1) × (shared.now.key.count ≤ 2 ^ 32) }
    requires seat { (seat.old.me.0.begun ≡ None) × (0 < seat.old.me.0.parts) }
    ensures table { seat.new.table_id ≡ seat.old.table_id }
    ensures seat { seat.new.me ≡ (after_end (after_begin seat.old.me.0 E.put result.low_before) E.put result.high_before, seat.old.me.1) }
    ensures low { AtMostKnown seat.old.me.0.lows n result.low_before }
    ensures high { AtLeastKnown seat.old.me.0.highs n result.high_before }
{
    let low_before = shared.fetch_min::<PutsLow<E>>(seat, 2 * n + 1, low);
    let high_before = shared.fetch_max::<PutsHigh<E>>(seat, 2 * n + 2, high);
    WordsBefore {
        low_before,
        high_before,
    }
}

impl Striped {
    /// A table of `count` locations where nothing was put, and the seat with all parts.
    pub fn open(
        alloc: Global,
        count: usize,
        parts: u64,
    ) -> Result<(Striped, StripeSeat), AllocError>
        requires count { count ≤ 2 ^ 32 }
        requires parts { 1 ≤ parts }
        ensures table { IfOk result (λ r. (r.0.count ≡ count) × (r.0.parts ≡ parts)) }
        ensures seat { IfOk result (λ r. r.1 ≡ first_seat r.0.table parts) }
    {
        let words = marks(alloc, count)?;
        let table_size = TableSize {
            count: count as u64,
            parts,
        };
        let (table, seat) = Table::of_words(alloc, words.as_slice(), &table_size)?;
        Ok((Striped { table }, StripeSeat { seat }))
    }

    /// One part goes to the new seat, which knows what the old one knows and has put nothing.
    pub fn split(&self, seat: &mut StripeSeat) -> StripeSeat
        requires table { seat.old.table ≡ self.now.table }
        requires parts { 2 ≤ seat.old.parts }
        ensures old { seat.new ≡ without_part seat.old }
        ensures new { result ≡ new_seat seat.old }
    {
        StripeSeat {
            seat: self.table.shared.split_seat::<SplitAndJoin>(&mut seat.seat),
        }
    }

    /// The seat takes in the other's parts, its log and what it knows.
    pub fn join(&self, seat: &mut StripeSeat, other: StripeSeat)
        requires table { (seat.old.table ≡ self.now.table) × (other.table ≡ self.now.table) }
        ensures { seat.new ≡ both_seats seat.old other }
    {
        let StripeSeat { seat: other } = other;
        self.table
            .shared
            .join_seat::<SplitAndJoin>(&mut seat.seat, other);
    }

    /// Lowers the low word and raises the high word of a location, and returns both as they were
    /// found. It is two atomic steps, one on each word, and no more.
    pub fn put(
        &self,
        seat: &mut StripeSeat,
        task: u64,
        n: usize,
        low: u64,
        high: u64,
    ) -> WordsBefore
        requires table { seat.old.table ≡ self.now.table }
        requires location { n < self.now.count }
        requires codes { IsCode low × IsCode high × (low ≤ high) }
        ensures seat { seat.new ≡ after_put seat.old (put_of task n low high) result.low_before result.high_before }
        ensures low { AtMostKnown seat.old.lows n result.low_before }
        ensures high { AtLeastKnown seat.old.highs n result.high_before }
    {
        put_entry::<Brand>(&self.table.shared, &mut seat.seat, task, n, low, high)
    }

    /// Gives the table up, and returns the least and the greatest value that were put at each
    /// location.
    pub fn close(self, alloc: Global, seat: StripeSeat) -> Result<Summary, AllocError>
        requires table { seat.table ≡ self.table }
        requires parts { seat.parts ≡ self.parts }
        ensures count { IfOk result (λ s. s.count ≡ self.count) }
        ensures summary { IfOk result (IsSummaryOfLog seat.log) }
        ensures marks { IfOk result (λ s. (shape : Shape) → MarksFaults shape s) }
        ensures lows { LowsWerePut seat.lows seat.log }
        ensures highs { HighsWerePut seat.highs seat.log }
    {
        let Striped { table } = self;
        let StripeSeat { seat } = seat;
        let count = table.word_count() / 2;
        let closed = table.close_with(seat);
        let summary = summary_of(alloc, &closed, count);
        closed.free();
        summary
    }
}
