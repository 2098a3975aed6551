//! What a rule may yield, with the choices that lead to it.
ghost use Rattle.std.specs.Prelude.{◌≡◌, ℕ, IfOk};
ghost use Rattle.asm_explore.specs.code.OutcomeLists.{IsCounted, IsShownBy};

use crate::outcomes::below::Below;
use crate::outcomes::choice_list::ChoiceList;
use crate::outcomes::sets::copy_updates;
use crate::updates::Updates;
use asm_eval::Path;
use std::alloc::{AllocError, Global};

/// The `choose` at this path takes the candidate with this number.
#[derive(Drop)]
pub struct Choice {
    pub path: Path,
    pub number: u64,
}

/// What a rule may yield.
#[derive(Drop)]
pub enum RuleResult {
    /// An update set.
    Set(Updates),
    /// No set: the `iterate` at this path has made its last turn.
    Exhausted(Path),
}

/// What a rule yields under each script that makes these choices.
#[derive(Drop)]
pub struct ListedOutcome {
    pub choices: ChoiceList,
    pub answer: RuleResult,
    /// By which equal results are found, or 0 while it is alone in its list. No proof rests on it:
    /// they are compared.
    pub hash: u64,
    /// Where the search for another result goes on.
    pub below: Below,
}

/// The same path again.
pub(crate) fn copy_path(alloc: Global, path: &Path) -> Result<Path, AllocError>
    ensures { IfOk result (λ p. p ≡ path.now) }
{
    let numbers = path.as_slice().to_vec(alloc)?;
    Ok(Path::new(numbers))
}

/// The same choice again.
pub(crate) fn copy_choice(alloc: Global, choice: &Choice) -> Result<Choice, AllocError>
    ensures { IfOk result (λ c. c ≡ choice.now) }
{
    let path = copy_path(alloc, &choice.path)?;
    Ok(Choice {
        path,
        number: choice.number,
    })
}

/// The same result again.
pub(crate) fn copy_result(alloc: Global, answer: &RuleResult) -> Result<RuleResult, AllocError>
    ensures counted { (n : ℕ) → IsCounted n answer.now → IfOk result (IsCounted n) }
    ensures shows { IfOk result (IsShownBy answer.now) }
{
    match answer {
        RuleResult::Set(updates) => {
            let updates = copy_updates(alloc, updates)?;
            Ok(RuleResult::Set(updates))
        }
        RuleResult::Exhausted(path) => {
            let path = copy_path(alloc, path)?;
            Ok(RuleResult::Exhausted(path))
        }
    }
}

/// The same outcome again.
pub(crate) fn copy_outcome(
    alloc: Global,
    found: &ListedOutcome,
) -> Result<ListedOutcome, AllocError>
    ensures choices { IfOk result (λ f. f.choices ≡ found.now.choices) }
    ensures counted { (n : ℕ) → IsCounted n found.now.answer → IfOk result (λ f. IsCounted n f.answer) }
    ensures shows { IfOk result (λ f. IsShownBy found.now.answer f.answer) }
{
    let choices = found.choices.share()?;
    let answer = copy_result(alloc, &found.answer)?;
    Ok(ListedOutcome {
        choices,
        answer,
        hash: found.hash,
        below: Below::none(),
    })
}
