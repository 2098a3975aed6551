//! Lists of outcomes of the rule at a path: if one has more than the limit says, the refusal names
//! the path, and how many outcomes the rule's parts have.
ghost use Rattle.std.specs.Prelude.{◌≡◌, ◌<◌, ℕ, ◌+◌, ◌++◌, List, length, IfOk, IfErr, IsErr, OnOk};
ghost use Rattle.asm_state.specs.Signature.{count_of};
ghost use Rattle.asm_meaning.specs.Yields as yields;
ghost use Rattle.asm_meaning.specs.Yields.{Result as Yielded, Gives, Exhausted};
ghost use Rattle.asm_state.specs.Updates.{none};
ghost use Rattle.asm_explore.specs.code.OverLimit.{NamesRule, IfTooMany, IsOverLimit};
ghost use Rattle.asm_explore.specs.code.OutcomeLists.{Situation, HaveChoices, AreCounted, IsPicked, Lists};
ghost use Rattle.asm_explore.specs.code.ChoicePaths.{LieBelow, IsPlacedFrom};
ghost use Rattle.asm_explore.specs.code.Sequences.{longer, SortsAll, EndsSequence};
ghost use Rattle.asm_explore.specs.code.ChoiceLists.{choice_lists, AreSomeOf, behind, all_joined, with_choice};
ghost use Rattle.asm_explore.specs.declared.outcomes.listed_outcome.Choice.{Choice};

use crate::outcomes::list_error::ListError;
use crate::outcomes::listed_outcome::ListedOutcome;
use crate::outcomes::outcomes_error::{OutcomesError, RuleOverLimit};
use crate::outcomes::sequence_outcomes::SequenceOutcomes;
use crate::outcomes::{beside, candidate_outcomes, sequence_outcomes};
use crate::updates::Updates;
use asm_eval::Path;
use asm_state::signature::Signature;
use std::alloc::{AllocError, Global};

/// What a refusal names.
fn crowd(
    alloc: Global,
    path: &[u64],
    first: usize,
    others: usize,
) -> Result<RuleOverLimit, AllocError>
    ensures { IfOk result (λ crowd. (crowd.path ≡ path.now) × (crowd.first ≡ first) × (crowd.others ≡ others)) }
{
    let path = Path::new(path.to_vec(alloc)?);
    Ok(RuleOverLimit {
        path,
        first,
        others,
    })
}

/// That the list of the rule at this path has more outcomes than the limit says.
fn too_many(alloc: Global, path: &[u64], first: usize, others: usize) -> Result<(), OutcomesError>
    ensures named { IfErr result (NamesRule path.now first others) }
    ensures refused { IsErr result }
{
    let crowd = crowd(alloc, path, first, others)?;
    Err(OutcomesError::TooMany(crowd))
}

/// The refusal of a list of the rule at this path.
fn refused(
    alloc: Global,
    overflow: ListError,
    path: &[u64],
    first: usize,
    others: usize,
) -> OutcomesError
    ensures names { NamesRule path.now first others result }
    ensures crowd { (limit : ℕ) (ways : List (List Choice)) → IfTooMany (limit < length ways) overflow → IsOverLimit limit ways result }
{
    match overflow {
        ListError::Memory => OutcomesError::Memory,
        ListError::TooMany => match too_many(alloc, path, first, others) {
            Ok(()) => unreachable!(),
            Err(refusal) => refusal,
        },
    }
}

/// What two parts yield that are beside each other.
pub(crate) fn beside_lists(
    alloc: Global,
    signature: &Signature,
    left: Vec<ListedOutcome>,
    right: Vec<ListedOutcome>,
    limit: usize,
    path: &[u64],
) -> Result<Vec<ListedOutcome>, OutcomesError>
    requires left { AreCounted (count_of signature.now) left.items }
    requires right { AreCounted (count_of signature.now) right.items }
    ensures lists { (o q : Situation → Yielded) → Lists signature.now o left.items → Lists signature.now q right.items →
        IfOk result (λ fs. Lists signature.now (λ s. yields.beside (o s) (q s)) fs.items) }
    ensures placed { (k : ℕ) → HaveChoices (LieBelow (yields.at path.now k)) left.items → HaveChoices (IsPlacedFrom path.now (k + 1)) right.items →
        IfOk result (λ fs. HaveChoices (IsPlacedFrom path.now k) fs.items) }
    ensures chosen { IfOk result (λ fs. AreSomeOf (choice_lists fs.items) (all_joined (choice_lists left.items) (choice_lists right.items))) }
    ensures names { IfErr result (NamesRule path.now (length left.items) (length right.items)) }
    ensures crowd { IfErr result (IsOverLimit limit (all_joined (choice_lists left.items) (choice_lists right.items))) }
{
    let (first, others) = (left.len(), right.len());
    match beside::beside_lists(alloc, signature, left, right, limit) {
        Ok(found) => Ok(found),
        Err(overflow) => Err(refused(alloc, overflow, path, first, others)),
    }
}

/// Adds the outcomes of a candidate.
pub(crate) fn add_part(
    alloc: Global,
    part: Vec<ListedOutcome>,
    path: &[u64],
    number: u64,
    limit: usize,
    found: &mut Vec<ListedOutcome>,
) -> Result<(), OutcomesError>
    ensures picks { OnOk result (IsPicked path.now number part.items found.old.items found.new.items) }
    ensures names { IfErr result (NamesRule path.now (length part.items) (length found.old.items)) }
    ensures crowd { IfErr result (IsOverLimit limit (choice_lists found.old.items ++ with_choice path.now number (choice_lists part.items))) }
{
    let (first, others) = (part.len(), found.len());
    match candidate_outcomes::add_part(alloc, part, path, number, limit, found) {
        Ok(()) => Ok(()),
        Err(overflow) => Err(refused(alloc, overflow, path, first, others)),
    }
}

/// Adds what comes of the outcomes of the next part, upon a set so far with its choices.
pub(crate) fn add_part_of_sequence(
    alloc: Global,
    signature: &Signature,
    so_far: &Updates,
    one: &ListedOutcome,
    part: Vec<ListedOutcome>,
    turns: bool,
    limit: usize,
    path: &[u64],
    sorted: &mut SequenceOutcomes,
) -> Result<(), OutcomesError>
    requires so_far { so_far.now.set.count ≡ count_of signature.now }
    requires part { AreCounted (count_of signature.now) part.items }
    ensures sorts { OnOk result (SortsAll signature.now turns so_far.now.set one.now.choices part.items sorted.old sorted.new) }
    ensures names { IfErr result (NamesRule path.now (length part.items) (length (longer sorted.old))) }
    ensures crowd { IfErr result (IsOverLimit limit (choice_lists (longer sorted.old) ++ behind one.now.choices (choice_lists part.items))) }
{
    let (first, others) = (part.len(), sorted.longer());
    match sequence_outcomes::add_part_of_sequence(
        alloc, signature, so_far, one, part, turns, limit, sorted,
    ) {
        Ok(()) => Ok(()),
        Err(overflow) => Err(refused(alloc, overflow, path, first, others)),
    }
}

/// All outcomes, if the sets so far are those of the whole.
pub(crate) fn close(
    alloc: Global,
    sorted: SequenceOutcomes,
    limit: usize,
    path: &[u64],
) -> Result<Vec<ListedOutcome>, OutcomesError>
    ensures { EndsSequence (Gives none) limit path.now sorted result }
{
    let (first, others) = (sorted.done.len(), sorted.more.len());
    match sequence_outcomes::close(alloc, sorted, limit) {
        Ok(found) => Ok(found),
        Err(overflow) => Err(refused(alloc, overflow, path, first, others)),
    }
}

/// All outcomes, if the whole is exhausted at the path after each of the sets so far.
pub(crate) fn exhaust(
    alloc: Global,
    sorted: SequenceOutcomes,
    path: &[u64],
    limit: usize,
) -> Result<Vec<ListedOutcome>, OutcomesError>
    ensures { EndsSequence (Exhausted path.now) limit path.now sorted result }
{
    let (first, others) = (sorted.done.len(), sorted.more.len());
    match sequence_outcomes::exhaust(alloc, sorted, path, limit) {
        Ok(found) => Ok(found),
        Err(overflow) => Err(refused(alloc, overflow, path, first, others)),
    }
}
