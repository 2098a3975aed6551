//! The result of the exploration of a specification.
use crate::fault::Fault;
use crate::outcomes::outcomes_error::RuleOverLimit;

/// A run that goes wrong.
#[derive(Drop)]
pub struct BadRun {
    /// The text of a script.
    pub script: String,
    /// The run under this script goes wrong in this step, and no run goes wrong before. A deadlock
    /// is the state that the step begins in.
    pub step: u64,
    pub fault: Fault,
}

/// A run that goes wrong, whose choices have no script: their lines are longer than a script may
/// be, or have a number of more than nine digits.
#[derive(Clone, Copy, Debug, PartialEq, Eq)]
pub struct Unwritten {
    /// The run goes wrong in this step, and no run goes wrong before.
    pub step: u64,
    pub fault: Fault,
}

/// A run that comes to a quiet state: it stays there, whatever is chosen.
#[derive(Drop)]
pub struct QuietRun {
    /// The text of a script.
    pub script: String,
    /// The run under this script comes to the state by this number of steps, and no run comes to a
    /// quiet state by fewer.
    pub steps: u64,
}

/// What is found of the runs of a specification.
#[derive(Drop)]
pub enum Finding {
    /// No run goes wrong, of however many steps.
    Closed,
    /// No run of at most that many steps goes wrong, and none of the states that it comes to is a
    /// deadlock.
    SafeTo(u32),
    /// A run goes wrong.
    BadStep(BadRun),
    /// The first state isn't right.
    WrongFirst,
    /// There are more states than the limit says. It is safe up to that many steps, if any.
    TooManyStates(Option<u32>),
    /// There are more outcomes of a step than the limit says, of the rule at a path. It is safe up
    /// to that many steps, if any.
    TooManyOutcomes {
        safe: Option<u32>,
        crowd: RuleOverLimit,
    },
    /// Memory ran out. It is safe up to that many steps, if any.
    NoMemory(Option<u32>),
    /// A run goes wrong, but its script can't be written.
    Unwritten(Unwritten),
}

/// What is found of a specification.
#[derive(Drop)]
pub struct ExplorationResult {
    pub finding: Finding,
    /// How many states were reached.
    pub states: usize,
    /// The greatest number of steps that lead to one.
    pub depth: u32,
    /// How many outcomes of steps were followed.
    pub outcomes: usize,
    /// The most outcomes of a step.
    pub widest: usize,
    /// How many states are quiet: their step changes nothing, whatever is chosen.
    pub quiet: usize,
    /// A run that comes to the first of them, unless there is none, or no script of it was written.
    pub first_quiet: Option<QuietRun>,
}
