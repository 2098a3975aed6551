//! What is wrong with a step.

/// What is wrong with a step, or with the state that it leads to.
#[derive(Clone, Copy, Debug, PartialEq, Eq)]
pub enum Fault {
    /// It yields no set: an `iterate` has made its last turn.
    Exhausted,
    /// Its set is inconsistent.
    Inconsistent,
    /// It leads to a state that isn't right.
    Wrong,
    /// It changes nothing, whatever is chosen, in a state in which a run may not rest.
    Deadlock,
}
