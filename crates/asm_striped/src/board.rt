//! The rule of the table: its words are the least low and the greatest high in the logs of all
//! seats.
//!
//! Word 0 is the seats' word, where seats are split and joined; it never changes. Words 2 n + 1 and
//! 2 n + 2 are the low and the high word of location n.
use atomic_table::{Join, Play, Split, TableRule};
use std::collections::LinkedList;
use std::marker::{Brand, PhantomData};

/// What one put adds: a task's low and high at a location, each the code of a value.
#[derive(Clone, Copy, Debug, PartialEq, Eq)]
pub struct Put {
    pub task: u64,
    pub location: u64,
    pub low: u64,
    pub high: u64,
}

/// How many locations a table has, and into how many parts it can be shared out.
#[derive(Clone, Copy, Debug)]
pub struct TableSize {
    pub count: u64,
    pub parts: u64,
}

/// What a seat knows. No value of it is made.
pub struct Known {
    pub parts: u64,
    pub log: LinkedList<Put>,
    /// The put that has changed the low word and not yet the high word.
    pub begun: Option<Put>,
    /// The lows that the seat has put or found, each with its location.
    pub lows: LinkedList<(u64, u64)>,
    /// The highs, likewise.
    pub highs: LinkedList<(u64, u64)>,
}

/// The rule of the table of a `Striped`.
pub struct Board;

impl TableRule<(), Known, TableSize> for Board {
    ghost use Rattle.asm_striped.specs.code.Board.{IsBoard, opening_view};

    ghost holds = { IsBoard };

    ghost first = { λ extent. opening_view extent.parts };
}

/// Names one put.
pub trait NamesPut {
    ghost use Rattle.asm_striped.specs.declared.board.Put.{Put};

    ghost put: { Put };
}

impl NamesPut for Brand {
    ghost put = { record { task = 0; location = 0; low = 0; high = 0 } };
}

/// The low word is changed.
pub struct PutsLow<E> {
    put: PhantomData<E>,
}

impl<E: NamesPut> Play<(), Known> for PutsLow<E> {
    ghost use Rattle.asm_striped.specs.code.Board.{IsLowPut};

    ghost then = { λ _ before found after. IsLowPut E.put before found after };
}

/// The high word is changed.
pub struct PutsHigh<E> {
    put: PhantomData<E>,
}

impl<E: NamesPut> Play<(), Known> for PutsHigh<E> {
    ghost use Rattle.asm_striped.specs.code.Board.{IsHighPut};

    ghost then = { λ _ before found after. IsHighPut E.put before found after };
}

/// One part goes to a new seat, and two seats become one.
pub struct SplitAndJoin;

impl Split<Known> for SplitAndJoin {
    ghost use Rattle.asm_striped.specs.code.Board.{giver, taker};

    ghost left = { giver };

    ghost right = { taker };
}

impl Join<Known> for SplitAndJoin {
    ghost use Rattle.asm_striped.specs.code.Board.{joined, spent};

    ghost both = { joined };

    ghost spent = { spent };
}
