//! What an outcome leads to.
ghost use Rattle.std.specs.Prelude.{◌≡◌, IfErr, IfOk};
ghost use Rattle.asm_state.specs.code.Contents.{IsStateOf};
ghost use Rattle.asm_state.specs.Signature.{Shape, count_of, state_of};
ghost use Rattle.asm_updates.specs.code.Faults.{fault_of};
ghost use Rattle.asm_explore.specs.code.OutcomeLists.{IsCounted};
ghost use Rattle.asm_graph.specs.Graphs.{IsKind};
ghost use Rattle.asm_graph.specs.code.GraphSoFar.{FailsSo, Leads};

use crate::graph::StepFault;
use asm_explore::{ListedOutcome, RuleResult};
use asm_state::signature::Signature;
use asm_state::state::State;
use asm_updates::fault::Fault;
use std::alloc::{AllocError, Global};

/// The kind of a set's fault.
pub(crate) fn kind_of(fault: Fault) -> StepFault
    ensures { (shape : Shape) → IsKind result (fault_of shape fault) }
{
    match fault {
        Fault::Clash { .. } => StepFault::Clash,
        Fault::Outside { .. } => StepFault::Outside,
    }
}

/// The state that an outcome of the step from a state leads to, or its fault.
pub(crate) fn next_state(
    alloc: Global,
    signature: &Signature,
    from: &State,
    one: &ListedOutcome,
) -> Result<Result<State, StepFault>, AllocError>
    requires from { IsStateOf signature.now from.now }
    requires one { IsCounted (count_of signature.now) one.now.answer }
    ensures leads { IfOk result (λ led. IfOk led (λ next. Leads signature.now (state_of signature.now from.now) one.now next)) }
    ensures fault { IfOk result (λ led. IfErr led (FailsSo signature.now one.now)) }
{
    let updates = match &one.answer {
        RuleResult::Set(updates) => updates,
        RuleResult::Exhausted(_) => return Ok(Err(StepFault::Exhausted)),
    };
    match updates.set.first_fault(signature) {
        Some(fault) => Ok(Err(kind_of(fault))),
        None => {
            let next = updates.set.fire(alloc, signature, from)?;
            Ok(Ok(next))
        }
    }
}
