//! What a search has found.
ghost use Rattle.std.specs.Prelude.{◌≡◌};
ghost use Rattle.asm_explore.specs.code.SearchEnds.{IfOverLimit, IsRefused};
ghost use Rattle.asm_explore.specs.declared.search_result.SearchEnd.TheVariants as ended;
ghost use Rattle.asm_explore.specs.declared.search_error.SearchError.TheVariants as halts;

use crate::fault::Fault;
use crate::outcomes::listed_outcome::Choice;
use crate::outcomes::outcomes_error::RuleOverLimit;
use crate::search_error::SearchError;
use crate::states::nodes::Nodes;

/// A step that goes wrong.
#[derive(Drop)]
pub struct BadStep {
    /// The number of the node that the step begins in.
    pub from: usize,
    /// The choices of the step.
    pub choices: Vec<Choice>,
    pub fault: Fault,
}

/// Why a search has ended.
#[derive(Drop)]
pub enum SearchEnd {
    /// Nothing is left to be looked at, whatever the number of steps.
    Closed,
    /// All runs of the given number of steps were looked at.
    AtLimit,
    /// A step goes wrong.
    BadStep(BadStep),
    /// There are more states than the limit says.
    TooManyStates,
    /// There are more outcomes of a step than the limit says.
    TooManyOutcomes(RuleOverLimit),
    /// Memory ran out.
    Memory,
}

/// What a search has found.
#[derive(Drop)]
pub struct SearchResult {
    /// The states that were reached.
    pub nodes: Nodes,
    /// Each run of at most `whole` steps is fine.
    pub whole: u32,
    /// No run of at most that many steps goes wrong, and none comes to a deadlock, if that is known
    /// of any.
    pub safe: Option<u32>,
    /// How many of the states were looked at, in order.
    pub expanded: usize,
    pub ended: SearchEnd,
    /// How many outcomes of steps were followed.
    pub outcomes: usize,
    /// The most outcomes of a step.
    pub widest: usize,
    /// The numbers of the quiet states, of those that were looked at and that runs are followed
    /// from, in order.
    pub quiet: Vec<u32>,
}

/// How far a search has gone.
#[derive(Drop)]
pub(crate) struct SearchSoFar {
    /// How many nodes are expanded.
    pub expanded: usize,
    pub ended: SearchEnd,
}

/// The end of a search that was cut off.
pub(crate) fn cut_off(halt: SearchError) -> SearchEnd
    ensures refused { IsRefused result }
    ensures states { result ≡ ended.TooManyStates → halt ≡ halts.States }
    ensures crowd { IfOverLimit result (λ crowd. halt ≡ halts.Outcomes crowd) }
{
    match halt {
        SearchError::Memory => SearchEnd::Memory,
        SearchError::Outcomes(crowd) => SearchEnd::TooManyOutcomes(crowd),
        SearchError::States => SearchEnd::TooManyStates,
    }
}
