//! What a step leads to, found ahead of the search.

use crate::states::nodes::Nodes;

/// What the step from a state leads to, if each of its outcomes leads on.
#[derive(Drop)]
pub struct StepAhead {
    /// The states that it leads to. Some may be here twice, and those that are reached already may be
    /// left out. Of `from` and `depth` nothing is said.
    pub states: Nodes,
    /// By which they are found. No proof rests on them.
    pub hashes: Vec<u64>,
    /// How many outcomes the step has.
    pub outcomes: usize,
    /// Whether the state is quiet.
    pub is_quiet: bool,
}
