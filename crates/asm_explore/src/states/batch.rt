//! States that are stepped from at once.
ghost use Rattle.std.specs.Prelude.{◌≡◌, ◌+◌, ◌<◌, ◌≤◌, [], true, false, IfErr, IfOk, Some, length, slice_get, map, take, drop};
ghost use Rattle.asm_state.specs.code.Contents.{IsStateOf};
ghost use Rattle.asm_state.specs.Signature.{count_of};
ghost use Rattle.asm_explore.specs.code.StepsAhead.{AreAhead};
ghost use Rattle.asm_explore.specs.code.SearchEnds.{HaltsSo};
ghost use Rattle.asm_explore.specs.code.PackedNodes.{Node};
ghost use Rattle.asm_explore.specs.code.OutcomeLists.{Each};
ghost use Rattle.asm_explore.specs.code.ReachedStates.{state_at};

use crate::machine::Machine;
use crate::search_error::SearchError;
use crate::states::indexed_nodes::IndexedNodes;
use crate::step_ahead::StepAhead;
use asm_state::state::State;
use std::alloc::Global;

/// The states of a node and of those after it, at most `most`, as long as they are to be expanded.
fn next_states<M: Machine>(
    alloc: Global,
    machine: &M,
    nodes: &IndexedNodes,
    first: usize,
    steps: u32,
    most: usize,
    like: &State,
) -> Result<Vec<State>, SearchError>
    requires machine { M.is_sound machine.now }
    requires most { 0 < most }
    requires first { first < length nodes.now }
    requires like { length like.now ≡ count_of (M.shape machine.now) }
    requires nodes { Each (λ n. length n.state ≡ count_of (M.shape machine.now)) nodes.now }
    ensures within { IfOk result (λ states. first + length states.items ≤ length nodes.now) }
    ensures states { IfOk result (λ states. states.items ≡ map (λ n. n.state) (take (length states.items) (drop first nodes.now))) }
    ensures shallow { IfOk result (λ states. Each (λ n. n.depth < steps) (take (length states.items) (drop first nodes.now))) }
    ensures inside { IfOk result (λ states. Each (λ n. (M.within machine.now) (state_at (M.shape machine.now) n) ≡ true) (take (length states.items) (drop first nodes.now))) }
    ensures none { IfOk result (λ states. states.items ≡ [] → (n : Node) → slice_get nodes.now first ≡ Some n → n.depth < steps → (M.within machine.now) (state_at (M.shape machine.now) n) ≡ false) }
    ensures never { IfErr result (HaltsSo ⊥ (λ _. ⊥)) }
{
    let mut states = Vec::new(alloc);
    for number in first..nodes.len() {
        if states.len() >= most || nodes.depth(number) >= steps {
            return Ok(states);
        }
        let state = nodes.state(alloc, number, like)?;
        if !machine.is_within(alloc, &state) {
            return Ok(states);
        }
        states.push(state)?;
    }
    Ok(states)
}

/// What the steps from the first of some states lead to, when these nodes are reached.
fn look_from<M: Machine>(
    alloc: Global,
    machine: &M,
    states: &[State],
    nodes: &IndexedNodes,
) -> Result<Vec<Option<StepAhead>>, SearchError>
    requires machine { M.is_sound machine.now }
    requires states { Each (IsStateOf (M.shape machine.now)) states.now }
    requires nodes { Each (λ n. length n.state ≡ count_of (M.shape machine.now)) nodes.now }
    ensures some { 0 < length states.now → IfOk result (λ all. 0 < length all.items) }
    ensures ahead { IfOk result (λ all. AreAhead (M.shape machine.now) (M.specification machine.now) (M.turns machine.now) nodes.now (take (length all.items) states.now) all.items) }
    ensures never { IfErr result (HaltsSo ⊥ (λ _. ⊥)) }
{
    let all = machine.ahead(alloc, states, nodes.nodes(), nodes.index())?;
    Ok(all)
}

/// States that are stepped from at once, and what is known of each step.
#[derive(Drop)]
pub(crate) struct Batch {
    pub states: Vec<State>,
    pub ahead: Vec<Option<StepAhead>>,
}

/// The next states that are stepped from at once, at most `most`: those of a node and of some after
/// it, which are all to be expanded. There are none if that node isn't.
pub(crate) fn next_batch<M: Machine>(
    alloc: Global,
    machine: &M,
    nodes: &IndexedNodes,
    first: usize,
    steps: u32,
    most: usize,
    like: &State,
) -> Result<Batch, SearchError>
    requires machine { M.is_sound machine.now }
    requires most { 0 < most }
    requires first { first < length nodes.now }
    requires like { length like.now ≡ count_of (M.shape machine.now) }
    requires nodes { Each (λ n. IsStateOf (M.shape machine.now) n.state) nodes.now }
    ensures within { IfOk result (λ batch. first + length batch.states.items ≤ length nodes.now) }
    ensures states { IfOk result (λ batch. batch.states.items ≡ map (λ n. n.state) (take (length batch.states.items) (drop first nodes.now))) }
    ensures shallow { IfOk result (λ batch. Each (λ n. n.depth < steps) (take (length batch.states.items) (drop first nodes.now))) }
    ensures inside { IfOk result (λ batch. Each (λ n. (M.within machine.now) (state_at (M.shape machine.now) n) ≡ true) (take (length batch.states.items) (drop first nodes.now))) }
    ensures none { IfOk result (λ batch. batch.states.items ≡ [] → (n : Node) → slice_get nodes.now first ≡ Some n → n.depth < steps → (M.within machine.now) (state_at (M.shape machine.now) n) ≡ false) }
    ensures ahead { IfOk result (λ batch. AreAhead (M.shape machine.now) (M.specification machine.now) (M.turns machine.now) nodes.now batch.states.items batch.ahead.items) }
    ensures never { IfErr result (HaltsSo ⊥ (λ _. ⊥)) }
{
    let mut states = next_states(alloc, machine, nodes, first, steps, most, like)?;
    let ahead = look_from(alloc, machine, states.as_slice(), nodes)?;
    states.truncate(ahead.len());
    Ok(Batch { states, ahead })
}
