//! The choices of the steps that lead to a state.
//!
//! Some outcome of each step leads to the next node. This is proved, so `choices_between` never
//! returns `None` to `trail_to`.
ghost use Rattle.std.specs.Prelude.{◌≡◌, ◌<◌, ℕ, ◌↔◌, Some, length, map, slice_get, IsTrue, IfOk, IfErr, IfSome, IfNone};
ghost use Rattle.asm_state.specs.code.Contents.{IsStateOf};
ghost use Rattle.asm_state.specs.Signature.{count_of, state_of};
ghost use Rattle.asm_meaning.specs.Yields.{Result as Yielded};
ghost use Rattle.asm_explore.specs.code.SearchEnds.{HaltsSo};
ghost use Rattle.asm_explore.specs.code.PackedNodes.{Node};
ghost use Rattle.asm_explore.specs.code.OutcomeLists.{Each, IsCounted, Shows};
ghost use Rattle.asm_explore.specs.code.ReachedStates.{AreInside, AtNode, IsGood, IsLinked, LeadBetween, LeadTo, MayLead, state_at};
ghost use Rattle.asm_explore.specs.Search.{LeadsOn};
ghost use Rattle.asm_explore.specs.code.StepOutcomes.{IsOverLimitOf, IsStep};

use crate::machine::Machine;
use crate::outcomes::listed_outcome::{Choice, ListedOutcome, RuleResult};
use crate::search::is_same_state;
use crate::search_error::{SearchError, halted};
use crate::states::nodes::Nodes;
use asm_state::signature::Signature;
use asm_state::state::State;
use std::alloc::{AllocError, Global};

/// Whether an outcome of the step from a state leads to another.
pub(crate) fn leads(
    alloc: Global,
    signature: &Signature,
    one: &ListedOutcome,
    from: &State,
    to: &State,
) -> Result<bool, AllocError>
    requires one { IsCounted (count_of signature.now) one.now.answer }
    requires from { IsStateOf signature.now from.now }
    requires to { IsStateOf signature.now to.now }
    ensures { IfOk result (λ so. (r : Yielded) → Shows signature.now one.now.answer r →
        IsTrue so ↔ LeadsOn r (state_of signature.now from.now) (λ A. A ≡ state_of signature.now to.now)) }
{
    let updates = match &one.answer {
        RuleResult::Set(updates) => updates,
        RuleResult::Exhausted(_) => return Ok(false),
    };
    if updates.set.first_fault(signature).is_some() {
        return Ok(false);
    }
    let next = updates.set.fire(alloc, signature, from)?;
    Ok(is_same_state(&next, to, signature.count()))
}

/// The outcomes of the step from a state.
fn outcomes_from<M: Machine>(
    alloc: Global,
    machine: &M,
    from: &State,
) -> Result<Vec<ListedOutcome>, SearchError>
    requires machine { M.is_sound machine.now }
    requires whole { length from.now ≡ count_of (M.shape machine.now) }
    ensures step { IfOk result (λ fs. IsStep (M.shape machine.now) (M.specification machine.now) (M.turns machine.now) (state_of (M.shape machine.now) from.now) fs.items) }
    ensures crowded { IfErr result (HaltsSo ⊥ (IsOverLimitOf (M.made machine.now) (M.limit machine.now) (state_of (M.shape machine.now) from.now))) }
{
    match machine.outcomes(alloc, from) {
        Ok(outcomes) => Ok(outcomes),
        Err(refusal) => Err(halted(alloc, &refusal)),
    }
}

/// Choices with which the step from a state leads to another, if there are some.
fn choices_between<M: Machine>(
    alloc: Global,
    machine: &M,
    from: &State,
    to: &State,
) -> Result<Option<Vec<Choice>>, SearchError>
    requires machine { M.is_sound machine.now }
    requires from { IsStateOf (M.shape machine.now) from.now }
    requires to { IsStateOf (M.shape machine.now) to.now }
    ensures some { IfOk result (λ found. IfSome found (λ cs. LeadBetween (M.specification machine.now) (M.turns machine.now) (state_of (M.shape machine.now) from.now) (state_of (M.shape machine.now) to.now) cs.items)) }
    ensures none { IfOk result (λ found. IfNone found (MayLead (M.shape machine.now) (M.specification machine.now) (M.turns machine.now) (state_of (M.shape machine.now) from.now) (state_of (M.shape machine.now) to.now) → ⊥)) }
    ensures crowded { IfErr result (HaltsSo ⊥ (IsOverLimitOf (M.made machine.now) (M.limit machine.now) (state_of (M.shape machine.now) from.now))) }
{
    let outcomes = outcomes_from(alloc, machine, from)?;
    for k in 0..outcomes.len() {
        let one = &outcomes[k];
        if leads(alloc, machine.signature(), one, from, to)? {
            let choices = one.choices.to_vec(alloc)?;
            return Ok(Some(choices));
        }
    }
    Ok(None)
}

/// The choices of the steps that lead to a node, those of the last step first. They aren't kept
/// while states are reached: the steps are looked at again.
pub(crate) fn trail_to<M: Machine>(
    alloc: Global,
    machine: &M,
    nodes: &Nodes,
    last: usize,
    like: &State,
) -> Result<Vec<Vec<Choice>>, SearchError>
    requires machine { M.is_sound machine.now }
    requires last { last < length nodes.now }
    requires like { length like.now ≡ count_of (M.shape machine.now) }
    requires nodes { Each (IsGood (M.shape machine.now) (M.right machine.now)) nodes.now }
    requires linked { Each (IsLinked (M.shape machine.now) (M.specification machine.now) (M.turns machine.now) nodes.now) nodes.now }
    requires inside { AreInside (M.shape machine.now) (M.specification machine.now) (M.turns machine.now) (M.within machine.now) nodes.now }
    ensures leads { IfOk result (λ trail. (n : Node) → slice_get nodes.now last ≡ Some n → LeadTo (M.specification machine.now) (M.turns machine.now) (M.within machine.now) (state_at (M.shape machine.now) n) (map (λ cs. cs.items) trail.items)) }
    ensures deep { IfOk result (λ trail. (n : Node) → slice_get nodes.now last ≡ Some n → length trail.items ≡ n.depth) }
    ensures crowded { IfErr result (HaltsSo ⊥ (λ crowd. (n : Node) → slice_get nodes.now last ≡ Some n → (number : ℕ) × AtNode (M.shape machine.now) (IsOverLimitOf (M.made machine.now) (M.limit machine.now)) nodes.now number n.depth crowd)) }
{
    let mut trail = Vec::new(alloc);
    let mut at = last;
    for _step in 0..nodes.depth(last) {
        let from = nodes.from(at);
        let to = nodes.state(alloc, at, like)?;
        let earlier = nodes.state(alloc, from, like)?;
        let Some(choices) = choices_between(alloc, machine, &earlier, &to)? else {
            unreachable!();
        };
        trail.push(choices)?;
        at = from;
    }
    Ok(trail)
}
