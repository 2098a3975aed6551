//! Why outcomes weren't listed.
ghost use Rattle.std.specs.Prelude.{◌≡◌, IfOk};
ghost use Rattle.asm_explore.specs.declared.outcomes.outcomes_error.OutcomesError.TheVariants as refusal;

use crate::outcomes::listed_outcome::copy_path;
use asm_eval::Path;
use std::alloc::{AllocError, AllocFailed, Global};

/// A rule whose outcomes are more than the limit says.
#[derive(Drop)]
pub struct RuleOverLimit {
    /// The path of the rule.
    pub path: Path,
    /// How many outcomes its part has, or the candidate, or how many have ended.
    pub first: usize,
    /// How many the parts after it have together, or the list has to which they are added.
    pub others: usize,
}

/// Why the outcomes of a rule weren't listed.
#[derive(Drop)]
pub enum OutcomesError {
    /// Memory ran out.
    Memory,
    /// There are more of them than the limit says.
    TooMany(RuleOverLimit),
}

impl From<AllocError> for OutcomesError {
    ghost from_gives = { λ _ e. e ≡ refusal.Memory };

    fn from(_e: AllocError) -> OutcomesError {
        OutcomesError::Memory
    }
}

impl<T: Drop> From<AllocFailed<T>> for OutcomesError {
    ghost from_gives = { λ _ e. e ≡ refusal.Memory };

    fn from(_e: AllocFailed<T>) -> OutcomesError {
        OutcomesError::Memory
    }
}

/// The same again.
pub(crate) fn copy_rule_over_limit(
    alloc: Global,
    crowd: &RuleOverLimit,
) -> Result<RuleOverLimit, AllocError>
    ensures { IfOk result (λ c. c ≡ crowd.now) }
{
    let path = copy_path(alloc, &crowd.path)?;
    Ok(RuleOverLimit {
        path,
        first: crowd.first,
        others: crowd.others,
    })
}
