//! Lists with the outcomes of a candidate.
ghost use Rattle.std.specs.Prelude.{◌≡◌, ℕ, ◌+◌, ◌<◌, ◌≤◌, ◌++◌, ◌∷◌, [], Some, IfOk, IfErr, OnOk, length, slice_get};
ghost use Rattle.asm_state.specs.Signature.{Shape};
ghost use Rattle.asm_meaning.specs.Yields.{Result as Yielded};
ghost use Rattle.asm_explore.specs.code.OverLimit.{IfTooMany};
ghost use Rattle.asm_explore.specs.code.OutcomeLists.{Shows, IsCounted, IsPicked};
ghost use Rattle.asm_explore.specs.code.ChoiceLists.{choice_lists, with_choice as with_own};

use crate::outcomes::add_outcome::add_outcome;
use crate::outcomes::below::Below;
use crate::outcomes::choice_list::one_more;
use crate::outcomes::list_error::ListError;
use crate::outcomes::listed_outcome::{ListedOutcome, RuleResult, copy_result};
use crate::outcomes::sets::in_order;
use crate::same_result::hash_of;
use asm_state::word::Word;
use std::alloc::{AllocError, Global};

/// An outcome with one more choice.
fn with_choice(
    alloc: Global,
    one: &ListedOutcome,
    path: &[u64],
    number: u64,
) -> Result<ListedOutcome, AllocError>
    ensures choices { IfOk result (λ f. f.choices ≡ one.now.choices ++ record { path = path.now; number = number } ∷ []) }
    ensures counted { (n : ℕ) → IsCounted n one.now.answer → IfOk result (λ f. IsCounted n f.answer) }
    ensures shows { (shape : Shape) (r : Yielded) → IfOk result (λ f. Shows shape one.now.answer r → Shows shape f.answer r) }
{
    let before = one.choices.share()?;
    let choices = one_more(alloc, before, path, number)?;
    let answer = copy_result(alloc, &one.answer)?;
    let hash = hash_of(&answer);
    Ok(ListedOutcome {
        choices,
        answer,
        hash,
        below: Below::none(),
    })
}

/// Adds the outcomes of a candidate.
fn add_chosen(
    alloc: Global,
    part: &[ListedOutcome],
    path: &[u64],
    number: u64,
    limit: usize,
    found: &mut Vec<ListedOutcome>,
) -> Result<(), ListError>
    ensures picks { OnOk result (IsPicked path.now number part.now found.old.items found.new.items) }
    ensures crowd { IfErr result (IfTooMany (limit < length found.old.items + length part.now)) }
{
    for i in 0..part.len() {
        let one = with_choice(alloc, &part[i], path, number)?;
        add_outcome(found, one, limit)?;
    }
    Ok(())
}

/// The result, with the entries of its set in one order.
fn ordered(answer: RuleResult) -> Result<RuleResult, AllocError>
    ensures counted { (n : ℕ) → IsCounted n answer → IfOk result (IsCounted n) }
    ensures shows { (shape : Shape) (r : Yielded) → IfOk result (λ a. Shows shape answer r → Shows shape a r) }
{
    match answer {
        RuleResult::Set(set) => {
            let set = in_order(set)?;
            Ok(RuleResult::Set(set))
        }
        RuleResult::Exhausted(path) => Ok(RuleResult::Exhausted(path)),
    }
}

/// An outcome with one more choice, in its own room.
fn choose_into(
    alloc: Global,
    one: ListedOutcome,
    path: &[u64],
    number: u64,
) -> Result<ListedOutcome, AllocError>
    ensures choices { IfOk result (λ f. f.choices ≡ one.choices ++ record { path = path.now; number = number } ∷ []) }
    ensures counted { (n : ℕ) → IsCounted n one.answer → IfOk result (λ f. IsCounted n f.answer) }
    ensures shows { (shape : Shape) (r : Yielded) → IfOk result (λ f. Shows shape one.answer r → Shows shape f.answer r) }
{
    let ListedOutcome {
        choices: before,
        answer,
        ..
    } = one;
    let choices = one_more(alloc, before, path, number)?;
    let answer = ordered(answer)?;
    let hash = hash_of(&answer);
    Ok(ListedOutcome {
        choices,
        answer,
        hash,
        below: Below::none(),
    })
}

/// Adds the outcome of a candidate that has one.
fn add_one(
    alloc: Global,
    one: ListedOutcome,
    path: &[u64],
    number: u64,
    limit: usize,
    found: &mut Vec<ListedOutcome>,
) -> Result<(), ListError>
    ensures picks { OnOk result (IsPicked path.now number (one ∷ []) found.old.items found.new.items) }
    ensures crowd { IfErr result (IfTooMany (limit ≤ length found.old.items)) }
{
    let chosen = choose_into(alloc, one, path, number)?;
    add_outcome(found, chosen, limit)?;
    Ok(())
}

/// The same of a list that isn't wanted afterwards.
pub(crate) fn add_part(
    alloc: Global,
    part: Vec<ListedOutcome>,
    path: &[u64],
    number: u64,
    limit: usize,
    found: &mut Vec<ListedOutcome>,
) -> Result<(), ListError>
    ensures picks { OnOk result (IsPicked path.now number part.items found.old.items found.new.items) }
    ensures crowd { IfErr result (IfTooMany (limit < length (choice_lists found.old.items ++ with_own path.now number (choice_lists part.items)))) }
{
    if part.len() == 1 {
        let mut rest = part;
        let Some(one) = rest.pop() else {
            unreachable!();
        };
        add_one(alloc, one, path, number, limit, found)?;
        return Ok(());
    }
    add_chosen(alloc, part.as_slice(), path, number, limit, found)?;
    Ok(())
}

/// The value at a place.
pub(crate) fn value_at(values: &[Word], k: usize) -> Word
    requires { k < length values.now }
    ensures { slice_get values.now k ≡ Some result }
{
    values[k]
}
