//! Quiet states: the step from one changes nothing, whatever is chosen.
ghost use Rattle.std.specs.Prelude.{◌≡◌, ◌<◌, ◌↔◌, ℕ, [], IsTrue, IfOk, IfErr, IfSome};
ghost use Rattle.asm_state.specs.code.Contents.{IsStateOf};
ghost use Rattle.asm_state.specs.Signature.{count_of, state_of};
ghost use Rattle.asm_meaning.specs.Run.{Specification};
ghost use Rattle.asm_explore.specs.declared.fault.Fault.TheVariants as fault;
ghost use Rattle.asm_explore.specs.code.SearchEnds.{HaltsSo};
ghost use Rattle.asm_explore.specs.code.AddedNodes.{ListsQuiet};
ghost use Rattle.asm_explore.specs.code.OutcomeLists.{AreCounted};
ghost use Rattle.asm_explore.specs.Search.{IsQuiet, IsDeadlock};
ghost use Rattle.asm_explore.specs.code.StepOutcomes.{IsStep};

use crate::fault::Fault;
use crate::machine::Machine;
use crate::outcomes::listed_outcome::ListedOutcome;
use crate::search_error::SearchError;
use crate::search_result::BadStep;
use crate::states::trail::leads;
use asm_state::signature::Signature;
use asm_state::state::State;
use std::alloc::{AllocError, Global};

/// Whether each of these outcomes leaves a state as it is.
pub(crate) fn all_stay(
    alloc: Global,
    signature: &Signature,
    state: &State,
    outcomes: &[ListedOutcome],
) -> Result<bool, AllocError>
    requires state { IsStateOf signature.now state.now }
    requires counted { AreCounted (count_of signature.now) outcomes.now }
    ensures { IfOk result (λ so. (specification : Specification) (turns : ℕ) → IsStep signature.now specification turns (state_of signature.now state.now) outcomes.now →
        IsTrue so ↔ IsQuiet specification turns (state_of signature.now state.now)) }
{
    for k in 0..outcomes.len() {
        let one = &outcomes[k];
        if !leads(alloc, signature, one, state, state)? {
            return Ok(false);
        }
    }
    Ok(true)
}

/// Whether each outcome of the step from a state leaves it as it is.
pub fn is_quiet<M: Machine>(
    alloc: Global,
    machine: &M,
    state: &State,
    outcomes: &[ListedOutcome],
) -> Result<bool, AllocError>
    requires state { IsStateOf (M.shape machine.now) state.now }
    requires step { IsStep (M.shape machine.now) (M.specification machine.now) (M.turns machine.now) (state_of (M.shape machine.now) state.now) outcomes.now }
    ensures { IfOk result (λ so. IsTrue so ↔ IsQuiet (M.specification machine.now) (M.turns machine.now) (state_of (M.shape machine.now) state.now)) }
{
    all_stay(alloc, machine.signature(), state, outcomes)
}

/// Lists the number of a node if its state is quiet, as is told. Returns what is wrong with it if a
/// run may not rest in it.
pub(crate) fn rest<M: Machine>(
    alloc: Global,
    machine: &M,
    from: usize,
    state: &State,
    is_quiet: bool,
    quiet: &mut Vec<u32>,
) -> Result<Option<BadStep>, SearchError>
    requires machine { M.is_sound machine.now }
    requires from { from < 4_294_967_296 }
    requires state { IsStateOf (M.shape machine.now) state.now }
    requires quiet { IsTrue is_quiet ↔ IsQuiet (M.specification machine.now) (M.turns machine.now) (state_of (M.shape machine.now) state.now) }
    ensures quiet { ListsQuiet (M.specification machine.now) (M.turns machine.now) (M.rests machine.now) (state_of (M.shape machine.now) state.now) from quiet.old.items quiet.new.items result }
    ensures wrong { IfOk result (λ bad. IfSome bad (λ b. (b.from ≡ from) × (b.choices.items ≡ []) × (b.fault ≡ fault.Deadlock)
        × IsDeadlock (M.specification machine.now) (M.turns machine.now) (M.rests machine.now) (state_of (M.shape machine.now) state.now))) }
    ensures never { IfErr result (HaltsSo ⊥ (λ _. ⊥)) }
{
    if !is_quiet {
        return Ok(None);
    }
    if !machine.may_rest(alloc, state) {
        return Ok(Some(BadStep {
            from,
            choices: Vec::new(alloc),
            fault: Fault::Deadlock,
        }));
    }
    quiet.push(from as u32)?;
    Ok(None)
}
