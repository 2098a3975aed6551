//! The part of a rule that a piece of a region has.

/// Which part of its rule a piece has. There is no reference in it.
#[derive(Clone, Copy, Debug)]
pub enum Part {
    /// All of it.
    Whole,
    /// The elements of a `forall` at the positions from one to before another.
    Span { from: usize, to: usize },
}
