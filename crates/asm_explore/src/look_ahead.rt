//! Looks ahead: what the step from a state leads to.
ghost use Rattle.std.specs.Prelude.{◌≡◌, ◌⊎◌, length, IsTrue, IfOk, IfSome};
ghost use Rattle.asm_state.specs.code.Contents.{IsStateOf};
ghost use Rattle.asm_state.specs.Signature.{count_of, state_of};
ghost use Rattle.asm_meaning.specs.Yields.{Result as Yielded};
ghost use Rattle.asm_explore.specs.code.StepsAhead.{IsAhead, IsFound, IsReached};
ghost use Rattle.asm_explore.specs.code.PackedNodes.{GrowsBy};
ghost use Rattle.asm_explore.specs.code.OutcomeLists.{Each, IsCounted, IsSound, Shows};
ghost use Rattle.asm_explore.specs.code.ChoicePaths.{HaveOwnPaths};
ghost use Rattle.asm_explore.specs.code.ReachedStates.{steps_from};
ghost use Rattle.asm_explore.specs.Search.{LeadsOn};
ghost use Rattle.asm_explore.specs.code.StepOutcomes.{IsStep};

use crate::machine::Machine;
use crate::outcomes::listed_outcome::{ListedOutcome, RuleResult};
use crate::states::index::{Index, hash_of};
use crate::states::lookup::is_reached;
use crate::states::nodes::Nodes;
use crate::states::quiet::is_quiet;
use crate::step_ahead::StepAhead;
use asm_state::state::State;
use std::alloc::{AllocError, Global};

/// Adds the state that an outcome of the step from a state leads to, and its hash, unless the index
/// shows it as reached. Returns whether the outcome leads on.
fn look_at<M: Machine>(
    alloc: Global,
    machine: &M,
    from: &State,
    one: &ListedOutcome,
    nodes: &Nodes,
    index: &Index,
    found: &mut Nodes,
    hashes: &mut Vec<u64>,
) -> Result<bool, AllocError>
    requires from { IsStateOf (M.shape machine.now) from.now }
    requires one { IsCounted (count_of (M.shape machine.now)) one.now.answer }
    requires sound { IsSound (M.shape machine.now) (steps_from (M.specification machine.now) (M.turns machine.now) (state_of (M.shape machine.now) from.now)) one.now }
    requires apart { HaveOwnPaths one.now.choices }
    requires nodes { Each (λ n. length n.state ≡ count_of (M.shape machine.now)) nodes.now }
    ensures more { GrowsBy (Each (IsFound (M.shape machine.now) (M.specification machine.now) (M.turns machine.now) (state_of (M.shape machine.now) from.now))) found.old found.new }
    ensures leads { IfOk result (λ so. IsTrue so → (r : Yielded) → Shows (M.shape machine.now) one.now.answer r →
        LeadsOn r (state_of (M.shape machine.now) from.now) (λ B. IsReached (M.shape machine.now) nodes.now B ⊎ IsReached (M.shape machine.now) found.new B)) }
{
    let updates = match &one.answer {
        RuleResult::Set(updates) => updates,
        RuleResult::Exhausted(_) => return Ok(false),
    };
    let signature = machine.signature();
    if updates.set.first_fault(signature).is_some() {
        return Ok(false);
    }
    let next = updates.set.fire(alloc, signature, from)?;
    let count = signature.count();
    let hash = hash_of(&next, count);
    if is_reached(nodes, index, hash, &next, count) {
        return Ok(true);
    }
    hashes.push(hash)?;
    found.push(&next, count, 0, 0)?;
    Ok(true)
}

/// What the step from a state leads to in addition to what the index shows as reached, if each of
/// these outcomes leads on.
pub(crate) fn look_ahead<M: Machine>(
    alloc: Global,
    machine: &M,
    from: &State,
    outcomes: &[ListedOutcome],
    nodes: &Nodes,
    index: &Index,
) -> Result<Option<StepAhead>, AllocError>
    requires from { IsStateOf (M.shape machine.now) from.now }
    requires step { IsStep (M.shape machine.now) (M.specification machine.now) (M.turns machine.now) (state_of (M.shape machine.now) from.now) outcomes.now }
    requires nodes { Each (λ n. length n.state ≡ count_of (M.shape machine.now)) nodes.now }
    ensures { IfOk result (λ ahead. IfSome ahead (IsAhead (M.shape machine.now) (M.specification machine.now) (M.turns machine.now) nodes.now (state_of (M.shape machine.now) from.now))) }
{
    let mut states = Nodes::with_capacity(alloc, outcomes.len(), machine.signature().count())?;
    let mut hashes = Vec::with_capacity(alloc, outcomes.len())?;
    for k in 0..outcomes.len() {
        let one = &outcomes[k];
        if !look_at(
            alloc,
            machine,
            from,
            one,
            nodes,
            index,
            &mut states,
            &mut hashes,
        )? {
            return Ok(None);
        }
    }
    let is_quiet = is_quiet(alloc, machine, from, outcomes)?;
    Ok(Some(StepAhead {
        states,
        hashes,
        outcomes: outcomes.len(),
        is_quiet,
    }))
}
