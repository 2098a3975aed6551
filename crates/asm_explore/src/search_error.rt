//! Why a search was cut off.
ghost use Rattle.std.specs.Prelude.{◌≡◌, IfErr, IsErr};
ghost use Rattle.asm_explore.specs.declared.search_error.SearchError.TheVariants as halt;
ghost use Rattle.asm_explore.specs.declared.outcomes.outcomes_error.OutcomesError.TheVariants as refusals;
ghost use Rattle.asm_explore.specs.code.SearchEnds.{HaltsSo};

use crate::outcomes::outcomes_error::{OutcomesError, RuleOverLimit, copy_rule_over_limit};
use std::alloc::{AllocError, AllocFailed, Global};

/// Why a search was cut off.
#[derive(Drop)]
pub enum SearchError {
    /// Memory ran out.
    Memory,
    /// A step has more outcomes than the limit says.
    Outcomes(RuleOverLimit),
    /// There are more states than the limit says.
    States,
}

impl From<AllocError> for SearchError {
    ghost from_gives = { λ _ h. h ≡ halt.Memory };

    fn from(_e: AllocError) -> SearchError {
        SearchError::Memory
    }
}

impl<T: Drop> From<AllocFailed<T>> for SearchError {
    ghost from_gives = { λ _ h. h ≡ halt.Memory };

    fn from(_e: AllocFailed<T>) -> SearchError {
        SearchError::Memory
    }
}

/// Why a step has no outcomes to follow, as an error.
fn halts(alloc: Global, refusal: &OutcomesError) -> Result<(), SearchError>
    ensures told { IfErr result (HaltsSo ⊥ (λ crowd. refusal.now ≡ refusals.TooMany crowd)) }
    ensures refused { IsErr result }
{
    match refusal {
        OutcomesError::Memory => Err(SearchError::Memory),
        OutcomesError::TooMany(crowd) => {
            let crowd = copy_rule_over_limit(alloc, crowd)?;
            Err(SearchError::Outcomes(crowd))
        }
    }
}

/// The end of a search that has no outcomes to follow.
pub(crate) fn halted(alloc: Global, refusal: &OutcomesError) -> SearchError
    ensures { HaltsSo ⊥ (λ crowd. refusal.now ≡ refusals.TooMany crowd) result }
{
    match halts(alloc, refusal) {
        Ok(()) => unreachable!(),
        Err(halt) => halt,
    }
}
