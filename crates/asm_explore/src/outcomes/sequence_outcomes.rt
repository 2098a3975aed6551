//! How a sequence goes on: the sets so far, and what a part yields upon one of them.
ghost use Rattle.std.specs.Prelude.{◌≡◌, ◌+◌, ◌≤◌, ◌<◌, ◌++◌, length, max, IfOk, IfErr, OnOk};
ghost use Rattle.asm_state.specs.Signature.{count_of};
ghost use Rattle.asm_state.specs.Updates.{none};
ghost use Rattle.asm_meaning.specs.Yields.{Gives, Exhausted};
ghost use Rattle.asm_explore.specs.declared.outcomes.listed_outcome.RuleResult.TheVariants as answer;
ghost use Rattle.asm_explore.specs.code.OverLimit.{IfTooMany};
ghost use Rattle.asm_explore.specs.code.OutcomeLists.{AreCounted, IsCounted};
ghost use Rattle.asm_explore.specs.code.Sequences.{longer, Sorts, SortsAll, AddsOutcome, Exhausts, EndsLists};
ghost use Rattle.asm_explore.specs.code.ChoiceLists.{choice_lists, behind};

use crate::outcomes::add_outcome::add_outcome;
use crate::outcomes::below::Below;
use crate::outcomes::choice_list::{ChoiceList, both_choices};
use crate::outcomes::list_error::ListError;
use crate::outcomes::listed_outcome::{ListedOutcome, RuleResult, copy_outcome, copy_path};
use crate::outcomes::sets::{is_last, merged};
use crate::same_result::hash_of;
use crate::updates::Updates;
use asm_eval::Path;
use asm_state::signature::Signature;
use std::alloc::{AllocError, Global};

/// Where the outcomes go: those with which the sequence ends, and those with which it goes on.
#[derive(Drop)]
pub(crate) struct SequenceOutcomes {
    pub done: Vec<ListedOutcome>,
    pub more: Vec<ListedOutcome>,
}

impl SequenceOutcomes {
    /// How many outcomes the longer list has.
    pub fn longer(&self) -> usize
        ensures { result ≡ length (longer self.now) }
    {
        self.done.len().max(self.more.len())
    }
}

/// Adds what comes of an outcome of the next part, upon a set so far with its choices.
fn add_one_of_part(
    alloc: Global,
    signature: &Signature,
    so_far: &Updates,
    choices: &ChoiceList,
    one: &ListedOutcome,
    turns: bool,
    limit: usize,
    sorted: &mut SequenceOutcomes,
) -> Result<(), ListError>
    requires so_far { so_far.now.set.count ≡ count_of signature.now }
    requires one { IsCounted (count_of signature.now) one.now.answer }
    ensures sorts { OnOk result (Sorts signature.now turns so_far.now.set choices.now one.now sorted.old sorted.new) }
    ensures crowd { IfErr result (IfTooMany (limit ≤ max (length sorted.old.done.items) (length sorted.old.more.items))) }
{
    let choices = both_choices(alloc, choices, &one.choices)?;
    match &one.answer {
        RuleResult::Exhausted(path) => {
            let path = copy_path(alloc, path)?;
            let answer = RuleResult::Exhausted(path);
            let hash = hash_of(&answer);
            let one = ListedOutcome {
                choices,
                answer,
                hash,
                below: Below::none(),
            };
            add_outcome(&mut sorted.done, one, limit)?;
            Ok(())
        }
        RuleResult::Set(set) => {
            let joined = merged(alloc, so_far, set)?;
            let answer = RuleResult::Set(joined);
            let hash = hash_of(&answer);
            let one = ListedOutcome {
                choices,
                answer,
                hash,
                below: Below::none(),
            };
            let last = is_last(signature, set, turns);
            if last {
                add_outcome(&mut sorted.done, one, limit)?;
                Ok(())
            } else {
                add_outcome(&mut sorted.more, one, limit)?;
                Ok(())
            }
        }
    }
}

/// Adds what comes of the outcomes of the next part, upon a set so far with its choices.
fn add_all_of_part(
    alloc: Global,
    signature: &Signature,
    so_far: &Updates,
    choices: &ChoiceList,
    part: &[ListedOutcome],
    turns: bool,
    limit: usize,
    sorted: &mut SequenceOutcomes,
) -> Result<(), ListError>
    requires so_far { so_far.now.set.count ≡ count_of signature.now }
    requires part { AreCounted (count_of signature.now) part.now }
    ensures sorts { OnOk result (SortsAll signature.now turns so_far.now.set choices.now part.now sorted.old sorted.new) }
    ensures crowd { IfErr result (IfTooMany (limit < max (length sorted.old.done.items) (length sorted.old.more.items) + length part.now)) }
{
    for i in 0..part.len() {
        add_one_of_part(
            alloc, signature, so_far, choices, &part[i], turns, limit, sorted,
        )?;
    }
    Ok(())
}

/// The same of a list that isn't wanted afterwards.
pub(crate) fn add_part_of_sequence(
    alloc: Global,
    signature: &Signature,
    so_far: &Updates,
    one: &ListedOutcome,
    part: Vec<ListedOutcome>,
    turns: bool,
    limit: usize,
    sorted: &mut SequenceOutcomes,
) -> Result<(), ListError>
    requires so_far { so_far.now.set.count ≡ count_of signature.now }
    requires part { AreCounted (count_of signature.now) part.items }
    ensures sorts { OnOk result (SortsAll signature.now turns so_far.now.set one.now.choices part.items sorted.old sorted.new) }
    ensures crowd { IfErr result (IfTooMany (limit < length (choice_lists (longer sorted.old) ++ behind one.now.choices (choice_lists part.items)))) }
{
    let choices = &one.choices;
    let outcomes = part.as_slice();
    add_all_of_part(
        alloc, signature, so_far, choices, outcomes, turns, limit, sorted,
    )?;
    Ok(())
}

/// Adds outcomes.
fn add_each(
    alloc: Global,
    more: &[ListedOutcome],
    limit: usize,
    done: &mut Vec<ListedOutcome>,
) -> Result<(), ListError>
    ensures adds { OnOk result (AddsOutcome done.old.items more.now done.new.items) }
    ensures crowd { IfErr result (IfTooMany (limit < length done.old.items + length more.now)) }
{
    for i in 0..more.len() {
        let one = copy_outcome(alloc, &more[i])?;
        add_outcome(done, one, limit)?;
    }
    Ok(())
}

/// The same choices, with which the whole is exhausted at the path.
fn exhausted(alloc: Global, one: &ListedOutcome, path: &[u64]) -> Result<ListedOutcome, AllocError>
    ensures choices { IfOk result (λ f. f.choices ≡ one.now.choices) }
    ensures rule_result { IfOk result (λ f. f.answer ≡ answer.Exhausted path.now) }
{
    let choices = one.choices.share()?;
    let path = path.to_vec(alloc)?;
    let answer = RuleResult::Exhausted(Path::new(path));
    let hash = hash_of(&answer);
    Ok(ListedOutcome {
        choices,
        answer,
        hash,
        below: Below::none(),
    })
}

/// Adds that the whole is exhausted at the path with the choices of each of these.
fn exhaust_each(
    alloc: Global,
    more: &[ListedOutcome],
    path: &[u64],
    limit: usize,
    done: &mut Vec<ListedOutcome>,
) -> Result<(), ListError>
    ensures exhausts { OnOk result (Exhausts path.now done.old.items more.now done.new.items) }
    ensures crowd { IfErr result (IfTooMany (limit < length done.old.items + length more.now)) }
{
    for i in 0..more.len() {
        let one = exhausted(alloc, &more[i], path)?;
        add_outcome(done, one, limit)?;
    }
    Ok(())
}

/// All outcomes, if the sets so far are those of the whole.
pub(crate) fn close(
    alloc: Global,
    sorted: SequenceOutcomes,
    limit: usize,
) -> Result<Vec<ListedOutcome>, ListError>
    ensures { EndsLists (Gives none) limit sorted result }
{
    let SequenceOutcomes { mut done, more } = sorted;
    add_each(alloc, more.as_slice(), limit, &mut done)?;
    Ok(done)
}

/// All outcomes, if the whole is exhausted at the path after each of the sets so far.
pub(crate) fn exhaust(
    alloc: Global,
    sorted: SequenceOutcomes,
    path: &[u64],
    limit: usize,
) -> Result<Vec<ListedOutcome>, ListError>
    ensures { EndsLists (Exhausted path.now) limit sorted result }
{
    let SequenceOutcomes { mut done, more } = sorted;
    exhaust_each(alloc, more.as_slice(), path, limit, &mut done)?;
    Ok(done)
}
