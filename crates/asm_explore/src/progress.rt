//! How far a search is.

/// How far a search through all runs is.
#[derive(Clone, Copy, Debug, PartialEq, Eq)]
pub struct Progress {
    /// How many states are reached.
    pub states: usize,
    /// How many of them are done with.
    pub done: usize,
    /// How many steps lead to the last one of these.
    pub depth: u32,
    /// How many bytes of memory the states take that are reached.
    pub bytes: usize,
}

/// Is told how far something is. What it is told, and when, changes no result.
pub trait Watch<P> {
    /// It is so far.
    fn tell(&mut self, progress: P);
}

/// Nobody, who needn't be told.
#[derive(Clone, Copy, Debug)]
pub struct Unwatched;

impl<P: Drop> Watch<P> for Unwatched {
    fn tell(&mut self, _progress: P) {}
}
