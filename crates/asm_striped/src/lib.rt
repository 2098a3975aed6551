//! A table of low and high words that threads share. At each location it keeps the least low and
//! the greatest high that any thread has put there.
//!
//! A thread puts with a seat. A seat knows what it has put and what its puts returned. A put is two
//! atomic steps, the one on the low word and the other on the high word of its location, and waits
//! for no other.
#![tactic(auto)]

mod board;
pub mod laws;
pub mod shared;
mod striped;
mod table_words;

pub use board::{Board, Known, Put, TableSize};
pub use striped::{StripeSeat, Striped, WordsBefore};
