//! Deadlocks among the states of one depth.
//!
//! The search looks at the steps from the states of a depth up to its end, and from none at the
//! limit of steps. Whether one of the other states is a deadlock is looked at here, so that no
//! deadlock is passed over that comes before what ends the search.
ghost use Rattle.std.specs.Prelude.{◌≡◌, ◌<◌, Some, IfOk, length, slice_get};
ghost use Rattle.asm_state.specs.code.Contents.{IsStateOf};
ghost use Rattle.asm_state.specs.Signature.{count_of, state_of};
ghost use Rattle.asm_explore.specs.code.Deadlocks.{AreKnown, IsJudged};
ghost use Rattle.asm_explore.specs.code.OutcomeLists.{Each};
ghost use Rattle.asm_explore.specs.code.PackedNodes.{Node};
ghost use Rattle.asm_explore.specs.code.ReachedStates.{state_at};
ghost use Rattle.asm_explore.specs.code.StepOutcomes.{IsOverLimitOf};

use crate::machine::Machine;
use crate::outcomes::outcomes_error::RuleOverLimit;
use crate::search_error::SearchError;
use crate::states::nodes::Nodes;
use asm_state::state::State;
use std::alloc::{AllocError, Global};

/// Whether a state is a deadlock that runs are followed from.
#[derive(Drop)]
pub(crate) enum Judged {
    /// It is none.
    Alive,
    /// It is one.
    Dead,
    /// Its step has too many outcomes to tell.
    Crowded(RuleOverLimit),
}

/// What is known of the nodes of one depth.
#[derive(Drop)]
pub enum Deadlocks {
    /// None of their states is a deadlock.
    None,
    /// The state of the node with this number is one.
    At(usize),
    /// None of them is one whose steps don't have too many outcomes to tell. That from the state of
    /// the node with this number has.
    Unknown(usize, RuleOverLimit),
    /// Memory ran out.
    NoMemory,
}

/// Whether a state is a deadlock that runs are followed from.
fn judge<M: Machine>(alloc: Global, machine: &M, state: &State) -> Result<Judged, AllocError>
    requires machine { M.is_sound machine.now }
    requires state { IsStateOf (M.shape machine.now) state.now }
    ensures { IfOk result (IsJudged (M.specification machine.now) (M.turns machine.now) (IsOverLimitOf (M.made machine.now) (M.limit machine.now)) (M.rests machine.now) (M.within machine.now) (state_of (M.shape machine.now) state.now)) }
{
    if !machine.is_within(alloc, state) {
        return Ok(Judged::Alive);
    }
    if machine.may_rest(alloc, state) {
        return Ok(Judged::Alive);
    }
    match machine.is_quiet(alloc, state) {
        Ok(true) => Ok(Judged::Dead),
        Ok(false) => Ok(Judged::Alive),
        Err(SearchError::Outcomes(crowd)) => Ok(Judged::Crowded(crowd)),
        Err(SearchError::Memory) => Err(AllocError),
        Err(SearchError::States) => unreachable!(),
    }
}

/// Whether the state of a node is a deadlock that runs are followed from.
fn judge_node<M: Machine>(
    alloc: Global,
    machine: &M,
    nodes: &Nodes,
    number: usize,
    like: &State,
) -> Result<Judged, AllocError>
    requires machine { M.is_sound machine.now }
    requires number { number < length nodes.now }
    requires like { length like.now ≡ count_of (M.shape machine.now) }
    requires nodes { Each (λ n. IsStateOf (M.shape machine.now) n.state) nodes.now }
    ensures { IfOk result (λ judged. (n : Node) → slice_get nodes.now number ≡ Some n →
        IsJudged (M.specification machine.now) (M.turns machine.now) (IsOverLimitOf (M.made machine.now) (M.limit machine.now)) (M.rests machine.now) (M.within machine.now) (state_at (M.shape machine.now) n) judged) }
{
    let state = nodes.state(alloc, number, like)?;
    let judged = judge(alloc, machine, &state)?;
    Ok(judged)
}

/// What is known of the nodes of a depth, from one on.
fn look_through<M: Machine>(
    alloc: Global,
    machine: &M,
    nodes: &Nodes,
    first: usize,
    depth: u32,
    like: &State,
) -> Result<Deadlocks, AllocError>
    requires machine { M.is_sound machine.now }
    requires like { length like.now ≡ count_of (M.shape machine.now) }
    requires nodes { Each (λ n. IsStateOf (M.shape machine.now) n.state) nodes.now }
    ensures { IfOk result (AreKnown (M.specification machine.now) (M.turns machine.now) (IsOverLimitOf (M.made machine.now) (M.limit machine.now)) (M.rests machine.now) (M.within machine.now) (M.shape machine.now) nodes.now first depth) }
{
    let mut known = Deadlocks::None;
    for number in first..nodes.len() {
        if nodes.depth(number) == depth {
            match judge_node(alloc, machine, nodes, number, like)? {
                Judged::Alive => {}
                Judged::Dead => return Ok(Deadlocks::At(number)),
                Judged::Crowded(crowd) => known = Deadlocks::Unknown(number, crowd),
            }
        }
    }
    Ok(known)
}

/// What is known of the nodes of a depth, from one on.
pub(crate) fn deadlocks_at<M: Machine>(
    alloc: Global,
    machine: &M,
    nodes: &Nodes,
    first: usize,
    depth: u32,
    like: &State,
) -> Deadlocks
    requires machine { M.is_sound machine.now }
    requires like { length like.now ≡ count_of (M.shape machine.now) }
    requires nodes { Each (λ n. IsStateOf (M.shape machine.now) n.state) nodes.now }
    ensures { AreKnown (M.specification machine.now) (M.turns machine.now) (IsOverLimitOf (M.made machine.now) (M.limit machine.now)) (M.rests machine.now) (M.within machine.now) (M.shape machine.now) nodes.now first depth result }
{
    match look_through(alloc, machine, nodes, first, depth, like) {
        Ok(known) => known,
        Err(AllocError) => Deadlocks::NoMemory,
    }
}
